//! The setups of the four machines.
ghost use Rattle.std.specs.Prelude.{◌≡◌, ◌<◌, ◌≤◌};
ghost use Rattle.drawn_load.specs.Draws.{numbers_of};
ghost use Rattle.drawn_load.specs.SettingUp.{SetsUp};
ghost use Rattle.drawn_load.specs.Machines.{looped_row, pulse_row, bits_row, reader_row, answer_row};

use crate::letters::Letters;
use crate::no_side::no_side_set;
use pin_matrix::{MachineSetup, Mapping};

/// Machine 0: a pulse on pin 0, in which it raises flag 0.
pub fn pulse() -> MachineSetup
    ensures { SetsUp pulse_row result }
{
    let mut machine = looped(0, 0, 2);
    machine.set = Mapping { base: 0, count: 1 };
    machine
}

/// Machine 1: bits that are shifted out to pin 1, by its own divider.
pub fn bits(letters: &Letters) -> MachineSetup
    ensures { SetsUp (bits_row (numbers_of letters.now)) result }
{
    let mut machine = looped(1, 3, 3);
    machine.int = u16::from(letters.i);
    machine.frac = letters.f;
    machine.out = Mapping { base: 1, count: 1 };
    machine.autopull = true;
    machine
}

/// Machine 2: a reader of the pins from pin 2 on, at each pulse of pin 2.
pub fn reader() -> MachineSetup
    ensures { SetsUp reader_row result }
{
    let mut machine = looped(2, 4, 6);
    machine.in_base = 2;
    machine.autopush = true;
    machine
}

/// Machine 3: an answer to flag 0 on pin 3.
pub fn answer() -> MachineSetup
    ensures { SetsUp answer_row result }
{
    let mut machine = looped(3, 7, 9);
    machine.set = Mapping { base: 3, count: 1 };
    machine
}

/// A machine that starts at an address, wraps from another to it, and sets no pins.
fn looped(id: u8, first: u8, last: u8) -> MachineSetup
    requires id { id < 4 }
    requires first { first < 32 }
    requires last { last < 32 }
    ensures { SetsUp (looped_row id first last) result }
{
    let mut machine = MachineSetup::of(id, no_side_set());
    machine.start = first;
    machine.wrap_bottom = first;
    machine.wrap_top = last;
    machine.set = Mapping { base: 0, count: 0 };
    machine
}
