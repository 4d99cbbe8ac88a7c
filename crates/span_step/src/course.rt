//! One course of an instruction, tick by tick.
ghost use Rattle.std.specs.Prelude.{◌≡◌, true, false};
ghost use Rattle.span_step.specs.Courses as spec;

use crate::ages::Ages;
use crate::cause::Causes;
use crate::context::Context;
use crate::levels::Write;
use crate::outcome::ContextOutcome;
use crate::rules::Rules;

/// A tick of a course.
#[derive(Clone, Copy)]
pub(crate) struct Tick {
    /// It doesn't count: the machine waits, or ends a stall.
    pub(crate) late: bool,
    /// The instruction finishes in it.
    pub(crate) finishes: bool,
    /// What it writes to the from-pin's watched signal, if anything.
    pub(crate) from: Option<bool>,
    /// What it writes to the to-pin's.
    pub(crate) to: Option<bool>,
}

/// What is known in the middle of a course.
#[derive(Clone, Copy)]
pub(crate) struct Watch {
    /// Whether the from-pin's watched signal is high.
    pub(crate) from: bool,
    /// Whether the to-pin's is.
    pub(crate) to: bool,
    pub(crate) ages: Ages,
    /// The causes that came so far.
    pub(crate) causes: Causes,
    /// A from-event came.
    pub(crate) from_edge: bool,
    /// A to-event came while a from-event of an earlier tick was open.
    pub(crate) closes: bool,
    /// The ages at the start still live: no to-event came, and no excuse.
    pub(crate) passes: bool,
}

impl Watch {
    /// At the start of a course: no age lives on where ways through the row are left out.
    pub(crate) fn start(left_out: bool, context: &Context, ages: Ages) -> Watch
        ensures { result ≡ spec.start left_out context.now ages }
    {
        Watch {
            from: context.from,
            to: context.to,
            ages: if left_out { Ages::Empty } else { ages },
            causes: Causes::none(),
            from_edge: false,
            closes: false,
            passes: !left_out,
        }
    }

    /// At the end of the prompt course: all effects in the first tick.
    #[tactic(auto, unfolding(crate::specs::Courses::prompt))]
    pub(crate) fn prompt(
        self,
        rules: &Rules,
        side: Write,
        outcome: &ContextOutcome,
        delay: u8,
    ) -> Watch
        ensures { result ≡ spec.followed rules.now (spec.prompt side outcome.now delay) self }
    {
        let first = Write {
            from: over(side.from, outcome.from),
            to: over(side.to, outcome.to),
        };
        self.finished(rules, first).delayed(rules, delay)
    }

    /// At the end of the delayed course: side-set in the first tick, the other effects in the last late one.
    #[tactic(auto, unfolding(crate::specs::Courses::delayed))]
    pub(crate) fn late(
        self,
        rules: &Rules,
        side: Write,
        outcome: &ContextOutcome,
        delay: u8,
    ) -> Watch
        ensures { result ≡ spec.followed rules.now (spec.delayed side outcome.now delay) self }
    {
        let last = Tick {
            late: true,
            finishes: true,
            from: outcome.from,
            to: outcome.to,
        };
        self.begun(rules, side, false)
            .watched(rules, last)
            .delayed(rules, delay)
    }

    /// After a first tick in which the instruction finishes, which is looked at only where its end is an event.
    #[tactic(auto, using(crate::proofs::Ticks::asked))]
    fn finished(self, rules: &Rules, write: Write) -> Watch
        ensures { result
            ≡ spec.watched rules.now self (record { late = false; finishes = true; from = write.from; to = write.to }) }
    {
        self.begun(rules, write, rules.has_ends())
    }

    /// After the first tick of a course, which counts, in which this is written, and in which the instruction may finish.
    fn begun(self, rules: &Rules, write: Write, finishes: bool) -> Watch
        ensures { result
            ≡ spec.watched rules.now self (record { late = false; finishes = finishes; from = write.from; to = write.to }) }
    {
        match (write.from, write.to) {
            (None, None) if !finishes => self.rested(rules),
            (from, to) => self.watched(
                rules,
                Tick {
                    late: false,
                    finishes,
                    from,
                    to,
                },
            ),
        }
    }

    /// After so many ticks of a delay.
    fn delayed(self, rules: &Rules, delay: u8) -> Watch
        ensures { result ≡ spec.followed rules.now (spec.delay_ticks delay) self }
    {
        let mut watch = self;
        for _tick in 0..delay {
            watch = watch.rested(rules);
        }
        watch
    }

    /// After one tick that counts, writes nothing and ends no instruction, and so has no event.
    #[tactic(auto, using(crate::proofs::Ticks::rested))]
    fn rested(self, rules: &Rules) -> Watch
        ensures { result ≡ spec.watched rules.now self spec.delay_tick }
    {
        let ages = self.ages.older(rules.max);
        let causes = tick_causes(rules, false, false, self.ages, ages);
        Watch {
            ages,
            causes: self.causes.joined(causes),
            ..self
        }
    }

    /// After one tick.
    #[tactic(auto, unfolding(crate::specs::Courses::watched))]
    fn watched(self, rules: &Rules, tick: Tick) -> Watch
        ensures { result ≡ spec.watched rules.now self tick }
    {
        let aged = if tick.late {
            self.ages
        } else {
            self.ages.older(rules.max)
        };
        let excused = tick.late && rules.excuses;
        let from = tick.from.unwrap_or(self.from);
        let to = tick.to.unwrap_or(self.to);
        let closes = comes(
            is_edge(rules.to_rise, self.to, to),
            rules.to_edges,
            tick.finishes,
            rules.to_ends,
        );
        let opens = comes(
            is_edge(rules.from_rise, self.from, from),
            rules.from_edges,
            tick.finishes,
            rules.from_ends,
        );
        let causes = if excused {
            self.causes
        } else {
            self.causes
                .joined(tick_causes(rules, tick.late, closes, self.ages, aged))
        };
        Watch {
            from,
            to,
            ages: aged.after_events(excused || closes, opens),
            causes,
            from_edge: self.from_edge || opens,
            closes: self.closes || (closes && !excused && aged.is_open()),
            passes: self.passes && !(excused || closes),
        }
    }
}

/// The causes that one tick adds, by the ages before it and those that it makes older.
fn tick_causes(rules: &Rules, late: bool, closes: bool, before: Ages, aged: Ages) -> Causes
    ensures { result ≡ spec.tick_causes rules.now late closes before aged }
{
    Causes {
        u1: rules.bounded && aged.is_above(rules.max),
        u2: closes && aged.is_below(rules.min),
        u3: late && rules.bounded && !rules.named && before.is_open(),
        u4: false,
        u6: false,
    }
}

/// Whether an event comes: an edge where edges are events, or the end of the instruction where ends are.
fn comes(edge: bool, edges: bool, finishes: bool, ends: bool) -> bool
    ensures { result ≡ spec.comes edge edges finishes ends }
{
    (edge && edges) || (finishes && ends)
}

/// Whether the level changes in this direction.
fn is_edge(rise: bool, old: bool, new: bool) -> bool
    ensures { result ≡ spec.is_edge rise old new }
{
    if rise { !old && new } else { old && !new }
}

/// The write that counts.
fn over(above: Option<bool>, below: Option<bool>) -> Option<bool>
    ensures { result ≡ spec.over above below }
{
    match above {
        Some(level) => Some(level),
        None => below,
    }
}
