//! The output levels and directions in the course of a clock.
ghost use Rattle.std.specs.Prelude.{◌≡◌, ℕ, true};
ghost use Rattle.pin_matrix.specs.Pins as spec;
ghost use Rattle.pin_matrix.specs.Pins.{IsWrite, merged};
ghost use Rattle.sm_registers.specs.Ends.{end_level, end_direction, written_end, written_side};
ghost use Rattle.sm_registers.specs.Intents.{two_writes, written_by};
ghost use Rattle.sm_registers.specs.Plans.{side_level, side_direction};

use crate::end::End;
use crate::intent::Intent;
use crate::plan::Side;
use pin_matrix::merge;

/// The pins as the machines so far leave them. A machine's writes take precedence over those of the machines before it.
#[derive(Clone, Copy)]
pub struct Outputs {
    /// The output level of each of the 32 pins. Bit i is that of pin i.
    pub levels: u32,
    /// The direction of each of the 32 pins: 1 is out.
    pub directions: u32,
}

impl Outputs {
    /// Makes the writes of a tick: the instruction's, and then side-set's.
    #[inline(always)]
    #[tactic(auto, unfolding(pin_matrix::specs::Pins::merged))]
    pub fn write(&mut self, intent: &Intent)
        ensures { self.new ≡ written_by self.old intent.now }
    {
        if are_none(&intent.level) && are_none(&intent.direction) {
            return;
        }
        self.levels = merge(self.levels, &intent.level);
        self.directions = merge(self.directions, &intent.direction);
    }

    /// Makes the write that an instruction ends with.
    #[inline(always)]
    pub(crate) fn write_end(&mut self, end: End)
        requires level { IsWrite (end_level end) }
        requires direction { IsWrite (end_direction end) }
        ensures { self.new ≡ written_end end self.old }
    {
        match end {
            End::Levels(write) => self.levels = written(self.levels, write),
            End::Directions(write) => self.directions = written(self.directions, write),
            _ => {}
        }
    }

    /// Makes side-set's write.
    #[inline(always)]
    pub(crate) fn write_side(&mut self, side: Side)
        requires level { IsWrite (side_level side) }
        requires direction { IsWrite (side_direction side) }
        ensures { self.new ≡ written_side side self.old }
    {
        match side {
            Side::Nothing => {}
            Side::Levels(write) => self.levels = written(self.levels, write),
            Side::Directions(write) => self.directions = written(self.directions, write),
        }
    }
}

/// Pins after a write: the pins that it is of, and their bits.
#[inline(always)]
#[tactic(auto, using(crate::proofs::Written::masked))]
fn written(pins: u32, write: (u32, u32)) -> u32
    requires { IsWrite write }
    ensures { result ≡ spec.written pins write }
{
    let (mask, bits) = write;
    bits | (pins & !mask)
}

/// Whether two writes are of no pins, as most are.
#[inline(always)]
#[tactic(auto, unfolding(pin_matrix::specs::Pins::merged))]
fn are_none(writes: &[(u32, u32); 2]) -> bool
    ensures { (pins : ℕ) → result ≡ true → merged pins (two_writes writes.now) ≡ pins }
{
    writes[0].0 == 0 && writes[1].0 == 0
}
