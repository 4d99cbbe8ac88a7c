//! The courses of a row.
ghost use Rattle.std.specs.Prelude.{◌≡◌, ◌<◌, ◌≤◌, ◌+◌, length};
ghost use Rattle.span_step.specs.Steps as spec;

use crate::acts::may_stall;
use crate::ages::Ages;
use crate::context::Context;
use crate::course::Watch;
use crate::levels::{Write, side_of};
use crate::outcome::ContextOutcome;
use crate::rules::{Rules, is_left_out};
use crate::stepped::{Next, Stepped};
use pin_matrix::{MachineSetup, Span};
use pio_encode::Op;
use std::marker::Model;

/// What all courses of a row share. The type keeps the address that follows below 32.
#[derive(Drop)]
pub(crate) struct Visit {
    rules: Rules,
    side: Write,
    delay: u8,
    stalls: bool,
    following: u8,
    left_out: bool,
    context: Context,
    ages: Ages,
}

impl Model for Visit {
    ghost use Rattle.std.specs.Prelude.{◌<◌};
    ghost use Rattle.span_step.specs.Steps as spec;

    ghost Value = { spec.Visit };

    ghost view = { λ v. record {
      rules = v.rules;
      side = v.side;
      delay = v.delay;
      stalls = v.stalls;
      following = v.following;
      left_out = v.left_out;
      context = v.context;
      ages = v.ages;
    } };

    ghost invariant = { λ v. v.following < 32 };
}

impl Visit {
    /// A visit of the row whose instruction this is.
    #[tactic(auto, unfolding(crate::specs::Steps::visit_of))]
    pub(crate) fn of(
        machine: &MachineSetup,
        span: &Span,
        op: &Op,
        context: &Context,
        ages: Ages,
    ) -> Visit
        ensures { result ≡ spec.visit_of machine.now span.now op.now context.now ages }
    {
        Visit {
            rules: Rules::of(machine, span, context.address),
            side: side_of(machine, span, op.side),
            delay: op.delay,
            stalls: may_stall(op.act, machine),
            following: next_address(machine, context.address),
            left_out: is_left_out(span, context.address),
            context: *context,
            ages,
        }
    }

    /// Adds what one more outcome gives, by each of its courses.
    #[tactic(auto, unfolding(crate::specs::Steps::with_outcome, crate::specs::Courses::courses))]
    pub(crate) fn add_outcome(&self, outcome: &ContextOutcome, found: &mut Stepped)
        requires { length found.old.ends ≤ 6 }
        ensures value { found.new ≡ spec.with_outcome self.now found.old outcome.now }
        ensures room { length found.new.ends ≤ length found.old.ends + 2 }
    {
        let start = Watch::start(self.left_out, &self.context, self.ages);
        let known = found.narrowing.held(outcome);
        self.add_end(
            &known,
            &start.prompt(&self.rules, self.side, outcome, self.delay),
            found,
        );
        if self.stalls {
            self.add_end(
                &known,
                &start.late(&self.rules, self.side, outcome, self.delay),
                found,
            );
        }
    }

    /// Adds the end of one course.
    #[tactic(auto, unfolding(crate::specs::Steps::with_end))]
    fn add_end(&self, outcome: &ContextOutcome, end: &Watch, found: &mut Stepped)
        requires { length found.old.ends < 8 }
        ensures value { found.new ≡ spec.with_end self.now outcome.now found.old end.now }
        ensures room { length found.new.ends ≡ length found.old.ends + 1 }
    {
        found.ends.push(Next {
            context: Context {
                address: outcome.jump.unwrap_or(self.following),
                x: outcome.x,
                y: outcome.y,
                from: end.from,
                to: end.to,
            },
            ages: end.ages,
            passes: end.passes,
        });
        found.causes = found.causes.joined(end.causes);
        found.from_edge = found.from_edge || end.from_edge;
        found.closes = found.closes || end.closes;
    }
}

/// The address that follows.
fn next_address(machine: &MachineSetup, address: u8) -> u8
    requires { address < 32 }
    ensures value { result ≡ spec.next_address machine.now address }
    ensures below { result < 32 }
{
    if address == machine.wrap_top {
        machine.wrap_bottom
    } else {
        (address + 1) % 32
    }
}
