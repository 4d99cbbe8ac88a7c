//! The input synchronisers: a machine sees a pad two clocks late (RP2040 Datasheet, section 3.5.6.3).
ghost use Rattle.std.specs.Prelude.{◌≡◌, ◌↔◌, IsTrue};
ghost use Rattle.pin_matrix.specs.Pads as spec;

use std::marker::Model;

/// The two flip-flops of each pin, and the pins that bypass them.
#[derive(Drop)]
pub struct Sync {
    // The pads one clock ago.
    pad_1: u32,
    // The pads two clocks ago.
    pad_2: u32,
    bypass: u32,
}

impl Model for Sync {
    ghost use Rattle.pin_matrix.specs.Pads.{Synchroniser};

    ghost Value = { Synchroniser };

    ghost view = { λ s. record { pad_1 = s.pad_1; pad_2 = s.pad_2; bypass = s.bypass } };
}

impl Sync {
    /// The synchronisers in clock 0, before which these were always the pads.
    pub fn new(pad: u32, bypass: u32) -> Sync
        ensures { result ≡ spec.first_synchroniser pad bypass }
    {
        Sync {
            pad_1: pad,
            pad_2: pad,
            bypass,
        }
    }

    /// What a machine sees in this clock, whose pads are given: of each pin the pad of two clocks ago, or of now where it
    /// bypasses its synchroniser.
    pub fn seen(&self, pad: u32) -> u32
        ensures { result ≡ spec.seen_of self.now.bypass pad self.now.pad_2 }
    {
        if self.bypass == 0 {
            self.pad_2
        } else {
            (self.pad_2 & !self.bypass) | (pad & self.bypass)
        }
    }

    /// One clock on, in which these were the pads.
    pub fn step(&mut self, pad: u32)
        ensures { self.new ≡ spec.stepped pad self.old }
    {
        self.pad_2 = self.pad_1;
        self.pad_1 = pad;
    }

    /// The pads of the clock before this one.
    #[inline(always)]
    pub fn last_pad(&self) -> u32
        ensures { result ≡ self.now.pad_1 }
    {
        self.pad_1
    }

    /// Whether the pads are those of both clocks before, so that a machine sees what is there.
    pub fn settled(&self, pad: u32) -> bool
        ensures { IsTrue result ↔ ((pad ≡ self.now.pad_1) × (pad ≡ self.now.pad_2)) }
    {
        pad == self.pad_1 && pad == self.pad_2
    }
}
