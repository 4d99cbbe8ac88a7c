//! Rows of the machine and its parts, of blocks and of runs. A row of a part is a line: its first word says what is
//! asked, as the file of its kind tells. A row of a machine, of a block or of a run is some lines:
//!
//! | A line | says |
//! |---|---|
//! | `machine 1: start 2, side_set 1 opt` | a machine, and its keys by their names in a configuration; side-set is as in pioasm, with `side_count` where other than its bits |
//! | `e101  set pins, 1 [1]` | the word at the next address, and its mnemonic under the machine's side-set rule |
//! | `high 0 3` | pins that the outside drives high; so `level`, `out` and `bypass` |
//! | `5 pin 0 1` | a line of the stimulus |
//! | `4 see 0x20` | a lone machine sees these pins from clock 4 on; `4 lower 1`: another machine lowers these flags; `4 levels 2`: another machine left these levels in the clock before |
//! | `after 5: p 1, t0 3` | what is seen after clock 5, named as in a trace; `p`, `d` and `f` are all pins or flags together |
//! | `after 5: pads 1, sm0.pc 2` | what is inside the block after clock 5, all pads together, and of machine 0, named as in a trace |
//! | `after 5: only p 1` | the same, and that all else of the sample is 0 |
//! | `after 5: stir 31` | how many clocks go by before the next one that stirs, if the system does nothing; or `none` |
//! | `second` | what comes after is of the second block, whose values have a tilde, as `~p` |
//! | `own 3 4` | the pins that the second block owns |
//! | `clocks 100` | for how many clocks a run goes on |
//! | `worked 0 7 8` | the clocks of which alone a trace is told; or `none` |
//! | `stirs 31, then 0` | when a block next stirs after its first clock, and after the leap to there |
//! | `room 5` | for how many samples a list has room |
//! | `ends`, `fails` | that a run ends, or its trace fails |
//! | `told none` | that no sample is kept |
//!
//! The words of a row stand in memory from address 0 on, and a program wraps after the last one where no key says
//! another address. Words come after the line of their machine.

use crate::alone::tell_alone;
use crate::blocks::tell_block;
use crate::dividers::tell_divider;
use crate::fifos::tell_fifos;
use crate::flags::tell_flags;
use crate::idling::tell_idling;
use crate::leaps::{tell_leaps, tell_pair_leaps};
use crate::limits::tell_limit;
use crate::lists::tell_told;
use crate::pairs::tell_pair;
use crate::pin_calls::tell_pins;
use crate::rests::tell_rest;
use crate::shifts::tell_shift;
use row_tables::{RowKind, Shape, Telling, found};
use std::alloc::Global;
use std::rt::Files;

/// What the rows of a table are of.
#[derive(Clone, Copy)]
pub enum Kind {
    /// A row is a line on a part.
    Part(PartKind),
    /// A row is the lines of a machine, of a block or of a run.
    Machine(MachineKind),
}

impl RowKind for Kind {
    fn named(name: &str) -> Option<Kind> {
        if let Some(kind) = found(&PART_KINDS, name) {
            return Some(Kind::Part(kind));
        }
        Some(Kind::Machine(found(&MACHINE_KINDS, name)?))
    }

    fn shape(self) -> Shape {
        match self {
            Kind::Part(_) => Shape::Line,
            Kind::Machine(_) => Shape::Block,
        }
    }

    fn tell<R: Files>(self, _: &R, alloc: Global, row: &[u8], told: &mut Telling) -> Option<()> {
        let row = str::from_utf8(row).ok()?;
        match self {
            Kind::Part(kind) => tell_part(alloc, kind, row, &mut told.seen),
            Kind::Machine(kind) => tell_machine(alloc, kind, row, told),
        }
    }
}

/// What a line asks of.
#[derive(Clone, Copy)]
pub enum PartKind {
    /// Shifts and reversals.
    Shifts,
    /// IRQ flags.
    Flags,
    /// Clock dividers.
    Dividers,
    /// A pair of FIFOs.
    Fifos,
    /// Mappings, merged writes, pads and synchronisers.
    Pins,
    /// The limits of a setup's types.
    Limits,
    /// A lone machine that idles, and reserved words.
    Idling,
}

/// The kinds with their names.
static PART_KINDS: [(&str, PartKind); 7] = [
    ("shifts", PartKind::Shifts),
    ("flags", PartKind::Flags),
    ("dividers", PartKind::Dividers),
    ("pairs of FIFOs", PartKind::Fifos),
    ("pins", PartKind::Pins),
    ("limits of setups", PartKind::Limits),
    ("idling", PartKind::Idling),
];

/// What the lines of a row are of.
#[derive(Clone, Copy)]
pub enum MachineKind {
    /// A lone machine.
    Alone,
    /// A block.
    Block,
    /// Two blocks on one set of pins.
    Pair,
    /// The leap of a block.
    Rest,
    /// The clocks that a run tells of.
    Leaps,
    /// The same of two blocks.
    PairLeaps,
    /// A run that is told to a list.
    Told,
}

/// The kinds with their names.
static MACHINE_KINDS: [(&str, MachineKind); 7] = [
    ("machines", MachineKind::Alone),
    ("blocks", MachineKind::Block),
    ("pairs of blocks", MachineKind::Pair),
    ("blocks that leap", MachineKind::Rest),
    ("leaps of runs", MachineKind::Leaps),
    ("leaps of pairs", MachineKind::PairLeaps),
    ("runs told to lists", MachineKind::Told),
];

/// Adds what a part gives; none where memory runs out, or the line is none of its table's kind.
fn tell_part(alloc: Global, kind: PartKind, asked: &str, text: &mut String) -> Option<()> {
    match kind {
        PartKind::Shifts => tell_shift(asked, text),
        PartKind::Flags => tell_flags(asked, text),
        PartKind::Dividers => tell_divider(asked, text),
        PartKind::Fifos => tell_fifos(alloc, asked, text),
        PartKind::Pins => tell_pins(alloc, asked, text),
        PartKind::Limits => tell_limit(alloc, asked, text),
        PartKind::Idling => tell_idling(alloc, asked, text),
    }
}

/// Adds what the lines of a row say, and what is seen; none where memory runs out, or a line isn't well written.
fn tell_machine(alloc: Global, kind: MachineKind, lines: &str, told: &mut Telling) -> Option<()> {
    match kind {
        MachineKind::Alone => tell_alone(alloc, lines, &mut told.expected, &mut told.seen),
        MachineKind::Block => tell_block(alloc, lines, &mut told.expected, &mut told.seen),
        MachineKind::Pair => tell_pair(alloc, lines, &mut told.expected, &mut told.seen),
        MachineKind::Rest => tell_rest(alloc, lines, &mut told.expected, &mut told.seen),
        MachineKind::Leaps => tell_leaps(alloc, lines, &mut told.expected, &mut told.seen),
        MachineKind::PairLeaps => tell_pair_leaps(alloc, lines, &mut told.expected, &mut told.seen),
        MachineKind::Told => tell_told(alloc, lines, &mut told.expected, &mut told.seen),
    }
}
