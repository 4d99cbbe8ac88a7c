//! All that a tick reads besides the machine's own setup, registers and FIFOs, as it is at the clock's start.
ghost use Rattle.std.specs.Prelude.{◌≡◌, ◌<◌, slice_index};
ghost use Rattle.sm_registers.specs.View.{view_of};

use irq_flags::Flags;
use pin_matrix::Sync;
use std::marker::Model;

/// What the four machines of a block share: all that they see of it, but for the pads of the clock.
#[derive(Drop)]
pub struct Shared {
    /// The instruction memory.
    pub memory: [u16; 32],
    /// The interrupt flags.
    pub flags: Flags,
    /// The input synchronisers.
    pub sync: Sync,
}

/// What a machine sees of its block in a clock: the instruction memory, the interrupt flags, and the pins after their
/// input synchronisers. The pins are worked out only where an act looks at them, as few do.
#[derive(Drop)]
pub struct View<'a> {
    shared: &'a Shared,
    pad: u32,
}

impl<'a> Model for View<'a> {
    ghost use Rattle.sm_registers.specs.View as spec;

    ghost Value = { spec.View };

    ghost view = { λ v. spec.view_of v.shared.now v.pad };
}

impl<'a> View<'a> {
    /// What the machines see in a clock with these pads.
    #[inline(always)]
    pub fn new(shared: &'a Shared, pad: u32) -> View<'a>
        ensures { result ≡ view_of shared.now pad }
    {
        View { shared, pad }
    }

    /// The word at an address of the memory.
    #[inline(always)]
    pub fn word(&self, address: u8) -> u16
        requires { address < 32 }
        ensures { result ≡ slice_index self.now.memory address }
    {
        self.shared.memory[usize::from(address)]
    }

    /// The pins after their input synchronisers. Bit i is that of pin i.
    #[inline(always)]
    pub fn seen(&self) -> u32
        ensures { result ≡ self.now.seen }
    {
        self.shared.sync.seen(self.pad)
    }

    /// The interrupt flags. Bit i is that of flag i.
    #[inline(always)]
    pub fn flags(&self) -> u8
        ensures { result ≡ self.now.flags.up }
    {
        self.shared.flags.up
    }
}
