//! What the machines of a block did in the last clock of note, and how they stood at its start: what spans are measured
//! by.
ghost use Rattle.std.specs.Prelude.{◌≡◌, ℕ, ◌<◌, ◌≤◌, ◌^◌, ◌+◌, ◌==◌, ◌&&◌, ◌||◌, not, false, option_map, if◌then◌else◌};
ghost use Rattle.dreq_pacing.specs.Due.{quiet as spec_quiet};
ghost use Rattle.block_core.specs.Block.{next, run_from, uses_fifos_in};
ghost use Rattle.block_core.specs.Conduct as spec;
ghost use Rattle.block_core.specs.Conduct.{after_in, are_places_noted, concluded_places, conduct_after, is_noted, no_conduct, standing_in};
ghost use Rattle.block_core.specs.Kept.{IsInStep};
ghost use Rattle.block_core.specs.Leaps.{leapt};
ghost use Rattle.block_core.specs.Stirring.{moves_on};

use crate::block::Block;
use crate::news::News;
use crate::slot::Slot;
use dreq_pacing::Due;
use fifo_pair::Fifo;
use std::marker::Model;

/// What one machine did in one clock, how it stood at the clock's start, and what it was after it.
#[derive(Clone, Copy)]
pub struct MachineConduct {
    /// Its PC at the clock's start.
    pub pc: u8,
    /// Whether it had begun the instruction there and not finished it: it waited.
    pub waits: bool,
    /// Whether it came to the instruction in memory there next: no delay was left, no word was pending, and it had not
    /// begun.
    pub comes: bool,
    /// Whether the clock was a tick of the instruction in memory there, and not of a delay or a pending word.
    pub works: bool,
    /// Whether that instruction finished in it.
    pub finishes: bool,
    /// Whether a line of the clock disabled it, or restarted its divider.
    pub breaks: bool,
    /// X after the clock.
    pub x: u32,
    /// Y after it.
    pub y: u32,
    /// The clock in which the last tick of its delay comes if no line acts on it: this one where no delay is left, and
    /// none while it is disabled.
    pub rests: Option<u64>,
}

/// What was done in the last clock of note: one in which a machine began or finished an instruction, or a line enabled
/// or disabled it or restarted its divider, or the level or the direction of a pin changed.
#[derive(Clone, Copy)]
pub struct Conduct {
    /// The number of that clock.
    pub clock: u64,
    /// The output levels after it.
    pub level: u32,
    /// The directions after it.
    pub direction: u32,
    /// Each configured machine at its place.
    pub machines: [Option<MachineConduct>; 4],
}

/// How a machine stands before a clock, and which tick it has in it.
#[derive(Clone, Copy)]
pub(crate) struct Standing {
    pub(crate) pc: u8,
    pub(crate) waits: bool,
    pub(crate) comes: bool,
    pub(crate) pending: bool,
    pub(crate) acts: bool,
    pub(crate) breaks: bool,
    pub(crate) lined: bool,
}

/// What a machine is after a clock.
#[derive(Clone, Copy)]
pub(crate) struct After {
    pub(crate) waits: bool,
    pub(crate) x: u32,
    pub(crate) y: u32,
    pub(crate) rests: Option<u64>,
}

/// A block, with what was done in its last clock of note.
#[derive(Drop)]
pub struct Conducted<F: Fifo> {
    block: Block<F>,
    last: Conduct,
}

impl<F: Fifo> Model for Conducted<F> {
    ghost use Rattle.block_core.specs.Conduct.{Told};

    ghost Value = { Told };

    ghost view = { λ c. record { worked = c.block; last = c.last } };
}

impl<F: Fifo> Conducted<F> {
    /// A block in which no clock has gone by. The clock is the present one.
    #[tactic(auto, unfolding(crate::specs::Conduct::no_conduct, crate::specs::Shown::sample_of))]
    pub fn new(block: Block<F>, clock: u64) -> Conducted<F>
        requires { block.run.clock ≡ clock }
        ensures { result ≡ record { worked = block; last = no_conduct block.run } }
    {
        let shown = block.view();
        let last = Conduct {
            clock,
            level: shown.level,
            direction: shown.direction,
            machines: [None; 4],
        };
        Conducted { block, last }
    }

    /// The block.
    #[inline(always)]
    pub fn block(&self) -> &Block<F>
        ensures { result.now ≡ self.now.worked }
    {
        &self.block
    }

    /// What was done in the last clock of note.
    #[inline(always)]
    pub fn last(&self) -> &Conduct
        ensures { result.now ≡ self.now.last }
    {
        &self.last
    }

    /// One clock, in which the system does this (`Block::clock`). The clock is the present one.
    pub fn clock(&mut self, clock: u64, due: &Due)
        requires clock { self.old.worked.run.clock ≡ clock }
        requires within { clock < 2 ^ 40 }
        ensures run { self.new.worked.run ≡ next due.now self.old.worked.run }
        ensures calls { self.new.worked.calls ≡ self.old.worked.calls + 1 }
        ensures last { self.new.last ≡ conduct_after due.now self.old.worked.run self.old.last }
    {
        let before = self.block.standings(due);
        let (level, direction) = pins(&self.block);
        self.block.clock(due);
        let (_noted, last) = told(&self.block, &self.last, clock, level, direction, &before);
        self.last = last;
    }

    /// The same, in which the system does nothing (`Block::quiet_clock`). What is shown is new where the clock is of
    /// note.
    #[inline(always)]
    pub fn quiet_clock(&mut self, clock: u64) -> News
        requires clock { self.old.worked.run.clock ≡ clock }
        requires within { clock < 2 ^ 40 }
        ensures run { self.new.worked.run ≡ next spec_quiet self.old.worked.run }
        ensures calls { self.new.worked.calls ≡ self.old.worked.calls + 1 }
        ensures last { self.new.last ≡ conduct_after spec_quiet self.old.worked.run self.old.last }
        ensures fifos { result.fifos ≡ uses_fifos_in spec_quiet self.old.worked.run }
        ensures shown { result.shown ≡ is_noted spec_quiet self.old.worked.run }
    {
        let quiet = Due::quiet();
        let before = self.block.standings(&quiet);
        let (level, direction) = pins(&self.block);
        let news = self.block.quiet_clock();
        let (noted, last) = told(&self.block, &self.last, clock, level, direction, &before);
        self.last = last;
        News {
            fifos: news.fifos,
            shown: noted,
        }
    }

    /// So many clocks at once, none of which stirs, and in which the system does nothing (`Block::leap`). None of them
    /// is of note.
    pub fn leap(&mut self, clocks: u64)
        requires clock { self.old.worked.run.clock + clocks ≤ 2 ^ 40 }
        requires calm { (k : ℕ) → k < clocks →
            moves_on spec_quiet (run_from self.old.worked.run (λ c. spec_quiet) k) ≡ false }
        ensures run { self.new.worked.run ≡ run_from self.old.worked.run (λ c. spec_quiet) clocks }
        ensures rests { (k : ℕ) → k ≤ clocks →
            run_from self.old.worked.run (λ c. spec_quiet) k ≡ leapt k self.old.worked.run }
        ensures calls { self.new.worked.calls ≡ self.old.worked.calls }
        ensures last { self.new.last ≡ self.old.last }
        ensures none { (k : ℕ) → k < clocks →
            is_noted spec_quiet (run_from self.old.worked.run (λ c. spec_quiet) k) ≡ false }
    {
        self.block.leap(clocks);
    }
}

/// The levels and the directions.
#[tactic(auto, unfolding(crate::specs::Shown::sample_of))]
fn pins<F: Fifo>(block: &Block<F>) -> (u32, u32)
    ensures { result ≡ (block.now.run.state.levels, block.now.run.state.directions) }
{
    let shown = block.view();
    (shown.level, shown.direction)
}

/// Whether the clock before was of note, and what is told after it, by the pins and the machines before it and the
/// block after it.
fn told<F: Fifo>(
    block: &Block<F>,
    last: &Conduct,
    clock: u64,
    level: u32,
    direction: u32,
    before: &[Option<Standing>; 4],
) -> (bool, Conduct)
    requires clock { block.now.run.clock ≡ clock + 1 }
    requires within { clock < 2 ^ 40 }
    ensures noted { result.0 ≡ spec.is_noted_by clock level direction before.now block.now.run.state }
    ensures last { result.1
        ≡ if result.0 then spec.conduct_by clock before.now block.now.run.state else last.now }
{
    let after = block.afters(clock);
    let (new_level, new_direction) = pins(block);
    let same = (level == new_level) & (direction == new_direction);
    if !(are_noted(before, &after) | !same) {
        return (false, *last);
    }
    let conduct = Conduct {
        clock,
        level: new_level,
        direction: new_direction,
        machines: concluded(before, &after),
    };
    (true, conduct)
}

/// How the machine of a place stands before a clock with these lines.
pub(crate) fn stands<F: Fifo>(slot: &Option<Slot<F>>, due: &Due) -> Option<Standing>
    ensures { result ≡ option_map (standing_in due.now) slot.now }
{
    match slot {
        Some(slot) => Some(slot.stands(due)),
        None => None,
    }
}

/// What the machine of a place is after this clock.
pub(crate) fn stands_after<F: Fifo>(slot: &Option<Slot<F>>, clock: u64) -> Option<After>
    requires within { clock < 2 ^ 40 }
    requires step { IsInStep (clock + 1) slot.now }
    ensures { result ≡ option_map (after_in clock) slot.now }
{
    match slot {
        Some(slot) => Some(slot.after(clock)),
        None => None,
    }
}

/// Whether what the machines did in a clock is of note, by how they stood before it and what they are after it.
fn are_noted(before: &[Option<Standing>; 4], after: &[Option<After>; 4]) -> bool
    ensures { result ≡ are_places_noted before.now after.now }
{
    let [a, b, c, d] = before;
    let [e, f, g, h] = after;
    is_noted_at(a, e) | (is_noted_at(b, f) | (is_noted_at(c, g) | is_noted_at(d, h)))
}

/// The same of one place.
fn is_noted_at(before: &Option<Standing>, after: &Option<After>) -> bool
    ensures { result ≡ spec.is_place_noted before.now after.now }
{
    match (before, after) {
        (Some(before), Some(after)) => {
            before.lined | (before.acts & (!before.waits | !after.waits))
        }
        _ => false,
    }
}

/// What the machines did in a clock, by how they stood before it and what they are after it.
fn concluded(
    before: &[Option<Standing>; 4],
    after: &[Option<After>; 4],
) -> [Option<MachineConduct>; 4]
    ensures { result ≡ concluded_places before.now after.now }
{
    let [a, b, c, d] = before;
    let [e, f, g, h] = after;
    [
        concluded_at(a, e),
        concluded_at(b, f),
        concluded_at(c, g),
        concluded_at(d, h),
    ]
}

/// The same of one place.
fn concluded_at(before: &Option<Standing>, after: &Option<After>) -> Option<MachineConduct>
    ensures { result ≡ spec.concluded_place before.now after.now }
{
    match (before, after) {
        (Some(before), Some(after)) => Some(MachineConduct {
            pc: before.pc,
            waits: before.waits,
            comes: before.comes,
            works: before.acts & !before.pending,
            finishes: (before.acts & !after.waits) & !before.pending,
            breaks: before.breaks,
            x: after.x,
            y: after.y,
            rests: after.rests,
        }),
        _ => None,
    }
}
