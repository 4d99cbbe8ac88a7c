//! What a machine has read: the word at each address, and the pending one. It is decoded only where another word was read
//! at its place before.
ghost use Rattle.std.specs.Prelude.{◌≡◌, ◌≤◌, ◌==◌, slice_index};
ghost use Rattle.pio_encode.specs.Ranges.{IsInRange};
ghost use Rattle.pio_encode.specs.Word.{reading_of};
ghost use Rattle.sm_registers.specs.Decoding.{IsReading, all_zero};

use crate::plan::{Plan, Side, next_after};
use pin_matrix::MachineSetup;
use pio_encode::{Act, Op, decode};
use std::marker::Model;

/// A word, what it means under the machine's setup, and what is known of its ticks.
#[derive(Clone, Copy)]
pub(crate) struct Reading {
    pub word: u16,
    pub op: Op,
    /// What is to be done in a simple tick of it.
    pub plan: Plan,
    /// What side-set writes in its first tick.
    pub side: Side,
    /// The address after its own.
    pub next: u8,
}

/// The place of the pending word, after those of the 32 addresses.
pub(crate) const PENDING: u8 = 32;

/// The last word read at each place, with its meaning.
#[derive(Drop)]
pub(crate) struct Decoded {
    setup: MachineSetup,
    readings: [Reading; 33],
}

impl Model for Decoded {
    ghost use Rattle.std.specs.Prelude.{map};
    ghost use Rattle.sm_registers.specs.Decoding.{AreReadings, Decoding};

    ghost Value = { Decoding };

    ghost view = { λ d. record { setup = d.setup; words = map (λ r. r.word) d.readings } };

    ghost invariant = { λ d. AreReadings d.setup 0 d.readings };
}

impl Decoded {
    /// Nothing read so far: the word 0 at each place.
    pub fn new(setup: &MachineSetup) -> Decoded
        ensures { result ≡ record { setup = setup.now; words = all_zero } }
    {
        let mut readings = [read_word(0, 0, setup); 33];
        for place in 1..33 {
            readings[usize::from(place)] = read_word(place, 0, setup);
        }
        Decoded {
            setup: *setup,
            readings,
        }
    }

    /// Reads a word at a place, and decodes it where another one was read there before.
    #[inline(always)]
    pub fn read(&mut self, place: u8, word: u16)
        requires { place ≤ 32 }
        ensures word { slice_index self.new.words place ≡ word }
        ensures setup { self.new.setup ≡ self.old.setup }
    {
        if self.readings[usize::from(place)].word != word {
            self.decode(place, word);
        }
    }

    /// The word that was last read at a place, with what it means.
    #[inline(always)]
    pub fn reading(&self, place: u8) -> &Reading
        requires { place ≤ 32 }
        ensures word { result.now.word ≡ slice_index self.now.words place }
        ensures reading { IsReading self.now.setup place result.now }
    {
        &self.readings[usize::from(place)]
    }

    /// What a word at a place does. It is decoded only where another one was last read there.
    #[inline(always)]
    pub fn act(&self, place: u8, word: u16) -> Act
        requires { place ≤ 32 }
        ensures value { result ≡ (reading_of word self.now.setup.side_rule).act }
        ensures act { IsInRange result }
    {
        let reading = &self.readings[usize::from(place)];
        if reading.word == word {
            reading.op.act
        } else {
            decode(word, &self.setup.side_rule).act
        }
    }

    /// Decodes a word at a place.
    #[cold]
    #[inline(never)]
    #[tactic(auto, using(crate::proofs::Decoding::word_set))]
    fn decode(&mut self, place: u8, word: u16)
        requires { place ≤ 32 }
        ensures word { slice_index self.new.words place ≡ word }
        ensures setup { self.new.setup ≡ self.old.setup }
    {
        self.readings[usize::from(place)] = read_word(place, word, &self.setup);
    }
}

/// The reading of a word at a place.
fn read_word(place: u8, word: u16, setup: &MachineSetup) -> Reading
    requires { place ≤ 32 }
    ensures word { result.word ≡ word }
    ensures reading { IsReading setup.now place result }
{
    let op = decode(word, &setup.side_rule);
    Reading {
        word,
        op,
        plan: Plan::of(&op.act, setup),
        side: Side::of(op.side, setup),
        next: next_after(setup, place),
    }
}
