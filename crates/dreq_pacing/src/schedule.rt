//! A stimulus whose lines break no rule.
ghost use Rattle.std.specs.Prelude.{◌≡◌, []};
ghost use Rattle.dreq_pacing.specs.Lines.{IsSchedule};

use crate::line::Line;
use std::alloc::Global;
use std::marker::Model;

/// The lines of a stimulus, which contracts see as their list. Each is in its ranges, clocks never fall, and no two
/// accesses crowd each other.
#[derive(Drop)]
pub struct Schedule {
    lines: Vec<Line>,
}

impl Model for Schedule {
    ghost use Rattle.std.specs.Prelude.{List};
    ghost use Rattle.dreq_pacing.specs.declared.line.Line.{Line};
    ghost use Rattle.dreq_pacing.specs.Lines.{IsSchedule};

    ghost Value = { List Line };

    ghost view = { λ s. s.lines.items };

    ghost invariant = { λ s. IsSchedule s.lines.items };
}

impl Schedule {
    /// A stimulus without lines. It takes no memory.
    pub fn empty(alloc: Global) -> Schedule
        ensures { result ≡ [] }
    {
        Schedule {
            lines: Vec::new(alloc),
        }
    }

    /// These lines. It takes no memory.
    pub fn of(lines: Vec<Line>) -> Schedule
        requires { IsSchedule lines.items }
        ensures { result ≡ lines.items }
    {
        Schedule { lines }
    }

    /// The lines in their order.
    pub fn lines(&self) -> &[Line]
        ensures value { result.now ≡ self.now }
        ensures schedule { IsSchedule self.now }
    {
        self.lines.as_slice()
    }
}
