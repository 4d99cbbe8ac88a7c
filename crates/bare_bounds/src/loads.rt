//! The programs that are timed, each on machine 0 with a span between a rise and a fall.
ghost use Rattle.std.specs.Prelude.{◌≡◌};

use pin_matrix::{MachineSetup, Mapping};
use pio_encode::SideRule;

const NO_SIDE_SET: SideRule = SideRule {
    bits: 0,
    opt: false,
    pindirs: false,
};

/// What lies in memory after the words that a program begins with.
#[derive(Clone, Copy)]
pub enum Body {
    /// Nothing: zeros, which are `jmp 0`.
    Nothing,
    /// This word, as often as there is room up to the program's end.
    Filled(u16),
    /// Two counters nested in one another, each from this number down to 0, around 24 times this word.
    Counted(u16, u16),
}

/// A program: what it begins with, its body, its wrap, and the start of X and Y.
pub struct TimedProgram {
    pub name: &'static str,
    words: &'static [u16],
    body: Body,
    bottom: u8,
    top: u8,
    start: u32,
    /// The to-pin; the from-pin is pin 0.
    pub to_pin: u8,
}

/// The programs in order. `set pins, 1` opens the span, unless OUT writes both pins.
pub static LOADS: [TimedProgram; 9] = [
    // `l: jmp l`
    TimedProgram {
        name: "loop",
        words: &[0xe001, 0x0001],
        body: Body::Nothing,
        bottom: 0,
        top: 1,
        start: 0,
        to_pin: 0,
    },
    // a loop of 31 words
    TimedProgram {
        name: "long",
        words: &[0xe001],
        body: Body::Filled(0xa042),
        bottom: 1,
        top: 31,
        start: 0,
        to_pin: 0,
    },
    // two loops, of 1 and of 30 words: `l: jmp pin l`
    TimedProgram {
        name: "two",
        words: &[0xe001, 0x00c1],
        body: Body::Filled(0xa042),
        bottom: 1,
        top: 30,
        start: 0,
        to_pin: 0,
    },
    // 30 words that may each go back
    TimedProgram {
        name: "back",
        words: &[0xe001],
        body: Body::Filled(0x00c1),
        bottom: 1,
        top: 31,
        start: 0,
        to_pin: 0,
    },
    // nearly all contexts: X and Y count down in any mixture, OUT writes both pins, and each word may go back
    TimedProgram {
        name: "most",
        words: &[0x00c2, 0x0042, 0x00c4, 0x0084, 0x6002],
        body: Body::Filled(0x00c0),
        bottom: 0,
        top: 31,
        start: 31,
        to_pin: 1,
    },
    // 32 by 32 turns of 24 words of delay 31: `nop [31]`
    TimedProgram {
        name: "delays",
        words: &[0xe001],
        body: Body::Counted(31, 0xbf42),
        bottom: 0,
        top: 29,
        start: 0,
        to_pin: 0,
    },
    // 8 by 8, 16 by 16 and 32 by 32 turns of 24 words that may each go to the body's end: `jmp pin, 27`
    TimedProgram {
        name: "exits 8",
        words: &[0xe001],
        body: Body::Counted(7, 0x00db),
        bottom: 0,
        top: 29,
        start: 0,
        to_pin: 0,
    },
    TimedProgram {
        name: "exits 16",
        words: &[0xe001],
        body: Body::Counted(15, 0x00db),
        bottom: 0,
        top: 29,
        start: 0,
        to_pin: 0,
    },
    TimedProgram {
        name: "exits 32",
        words: &[0xe001],
        body: Body::Counted(31, 0x00db),
        bottom: 0,
        top: 29,
        start: 0,
        to_pin: 0,
    },
];

/// The word at an address of a program.
fn word_at(load: &TimedProgram, address: usize) -> u16 {
    match load.words.get(address) {
        Some(word) => *word,
        None => body_word(load.body, address),
    }
}

/// The word at an address of a body.
fn body_word(body: Body, address: usize) -> u16 {
    match (body, address) {
        (Body::Nothing, _) => 0,
        (Body::Filled(word), _) => word,
        // `set x, N`, `set y, N`
        (Body::Counted(from, _), 1) => 0xe020 | (from & 31),
        (Body::Counted(from, _), 2) => 0xe040 | (from & 31),
        // `jmp y-- 3`, `jmp x-- 2`, `set pins, 0`
        (Body::Counted(..), 27) => 0x0083,
        (Body::Counted(..), 28) => 0x0042,
        (Body::Counted(..), 29) => 0xe000,
        (Body::Counted(_, word), _) => word,
    }
}

/// The memory of a program.
pub fn memory_of(load: &TimedProgram) -> [u16; 32] {
    let mut memory = [0u16; 32];
    for (address, word) in memory.iter_mut().enumerate() {
        *word = word_at(load, address);
    }
    memory
}

/// Machine 0 with a program's wrap and counters. SET holds pin 0, OUT pins 0 and 1.
pub fn machine_of(load: &TimedProgram) -> MachineSetup
    ensures { result.id ≡ 0 }
{
    let mut machine = MachineSetup::of(0, NO_SIDE_SET);
    machine.wrap_bottom = load.bottom.min(31);
    machine.wrap_top = load.top.min(31);
    machine.x = load.start;
    machine.y = load.start;
    machine.out = Mapping { base: 0, count: 2 };
    machine.set = Mapping { base: 0, count: 1 };
    machine
}
