//! The lines of the addresses and the words that machines were at, which are kept: a program comes by the same ones
//! again and again.
ghost use Rattle.std.specs.Prelude.{◌≡◌, ◌+◌, ◌*◌, ◌<◌, ◌≤◌, ◌++◌, drop, length};
ghost use Rattle.vcd_trace.specs.PlaceText.{HasPlace, IsPlace, place_lines};

use crate::line::{LINE_ROOM, write_vector};
use crate::variable::{MACHINE, MACHINE_VALUES};
use std::marker::Model;

/// Room for the lines of an address of 8 bits and of a word of 16.
pub(crate) const PLACE_ROOM: usize = 34;

/// How many are kept: one for each machine and each of the 32 addresses.
const PLACES: usize = 128;

/// For each machine and each address, the lines that it had last.
#[derive(Drop)]
pub(crate) struct Places {
    lines: [PlaceLines; PLACES],
}

impl Model for Places {
    ghost use Rattle.std.specs.Prelude.{⊤, All};
    ghost use Rattle.vcd_trace.specs.PlaceText.{IsPlace};

    ghost Value = { ⊤ };

    ghost view = { λ _. tt };

    ghost invariant = { λ p. All IsPlace p.lines };
}

/// The lines of some address and some word, up to the end of their room.
#[derive(Clone, Copy, Drop)]
struct PlaceLines {
    room: [u8; PLACE_ROOM],
    start: usize,
    first: u8,
    pc: u8,
    instruction: u16,
}

impl Places {
    /// Lines of other machines' values than any that is asked for.
    pub(crate) fn new() -> Self {
        Places {
            lines: [PlaceLines::new(0, 0, 0); PLACES],
        }
    }

    /// Writes the lines of an address and a word of the machine at a place up to an end, and says where they begin.
    #[inline(always)]
    pub(crate) fn write(
        &mut self,
        room: &mut [u8],
        end: usize,
        place: u8,
        pc: u8,
        instruction: u16,
    ) -> usize
        requires place { place < 4 }
        requires after { PLACE_ROOM ≤ end }
        requires before { end ≤ length room.now }
        ensures room { end ≤ result + PLACE_ROOM }
        ensures before { result ≤ end }
        ensures text { drop result room.new
            ≡ place_lines (193 + 10 * place) pc instruction ++ drop end room.old }
    {
        let kept = &mut self.lines[usize::from(place * 32 + pc % 32)];
        kept.turn(MACHINE + MACHINE_VALUES * place, pc, instruction);
        kept.write(room, end)
    }
}

impl PlaceLines {
    // The lines of an address and a word, whose numbers count on from one.
    fn new(first: u8, pc: u8, instruction: u16) -> Self
        requires { first + 2 ≤ 256 }
        ensures own { IsPlace result }
        ensures lines { HasPlace result first pc instruction }
    {
        let mut lines = [0; 2 * LINE_ROOM];
        let second = write_vector(&mut lines, 2 * LINE_ROOM, first + 1, u32::from(instruction));
        let start = write_vector(&mut lines, second, first, u32::from(pc));
        let mut room = [0; PLACE_ROOM];
        room.copy_from_slice(&lines[2 * LINE_ROOM - PLACE_ROOM..]);
        PlaceLines {
            room,
            start: start - (2 * LINE_ROOM - PLACE_ROOM),
            first,
            pc,
            instruction,
        }
    }

    // Writes the lines of an address and a word where others were kept.
    #[inline(always)]
    fn turn(&mut self, first: u8, pc: u8, instruction: u16)
        requires first { first + 2 ≤ 256 }
        requires own { IsPlace self.old }
        ensures own { IsPlace self.new }
        ensures lines { HasPlace self.new first pc instruction }
    {
        if self.first == first && self.pc == pc && self.instruction == instruction {
            return;
        }
        self.renew(first, pc, instruction);
    }

    // The same where they are others. A call of its own, since most are kept.
    #[inline(never)]
    fn renew(&mut self, first: u8, pc: u8, instruction: u16)
        requires { first + 2 ≤ 256 }
        ensures own { IsPlace self.new }
        ensures lines { HasPlace self.new first pc instruction }
    {
        *self = PlaceLines::new(first, pc, instruction);
    }

    // Writes them up to an end, and says where they begin.
    #[inline(always)]
    fn write(&self, room: &mut [u8], end: usize) -> usize
        requires within { self.now.start ≤ PLACE_ROOM }
        requires after { PLACE_ROOM ≤ end }
        requires before { end ≤ length room.now }
        ensures room { end ≤ result + PLACE_ROOM }
        ensures before { result ≤ end }
        ensures text { drop result room.new ≡ drop self.now.start self.now.room ++ drop end room.old }
    {
        // A copy of its own, which overlaps nothing, is written at once.
        let lines = self.room;
        room[end - PLACE_ROOM..end].copy_from_slice(&lines);
        end - PLACE_ROOM + self.start
    }
}
