//! What is inside a block after a clock: its sample, the pads of the clock, and the registers of each machine.
ghost use Rattle.std.specs.Prelude.{◌≡◌, ◌<◌};
ghost use Rattle.sm_registers.specs.Tick.{current_word};
ghost use Rattle.block_core.specs.Kept.{memory_alone};

use crate::sample::Sample;
use sm_registers::Registers;

/// What is inside one machine after one clock (RP2040 Datasheet, section 3.2; which values are shown is a choice of
/// this profile).
#[derive(Clone, Copy, Debug, PartialEq, Eq)]
pub struct MachineInside {
    /// The address of the instruction that it is at, 0 to 31: that which its next tick begins or goes on with, or which
    /// it begins once its delay is over.
    pub pc: u8,
    /// The word that it is at: the pending one, else that of the memory at its PC.
    pub instruction: u16,
    pub x: u32,
    pub y: u32,
    /// The input shift register.
    pub isr: u32,
    /// The output shift register.
    pub osr: u32,
    /// How many bits were shifted into the ISR: 0 to 32.
    pub isr_count: u8,
    /// How many bits were shifted out of the OSR: 0 to 32.
    pub osr_count: u8,
    /// Whether the instruction has begun and not finished: it stalled in the last tick. In a delay it is false.
    pub waits: bool,
    pub enabled: bool,
}

/// What is inside a block after one clock. In `pads` bit i is pin i.
#[derive(Clone, Copy, Debug, PartialEq, Eq)]
pub struct Inside {
    pub sample: Sample,
    /// What was at each pad in the clock, before the input synchronisers: the block's level at the clock's start where
    /// its direction was out, else the outside's.
    pub pads: u32,
    /// Each configured machine at its place.
    pub machines: [Option<MachineInside>; 4],
}

/// The word that a machine is at: the pending one, else that of the memory at its PC.
#[inline(always)]
pub(crate) fn word_at(registers: &Registers, memory: &[u16; 32]) -> u16
    requires { registers.now.pc < 32 }
    ensures { result ≡ current_word (memory_alone memory.now) registers.now }
{
    match registers.pending {
        Some(word) => word,
        None => memory[usize::from(registers.pc)],
    }
}
