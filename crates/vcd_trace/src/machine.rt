//! The values of a machine by their kind: eight words, and two values of one bit.
ghost use Rattle.std.specs.Prelude.{◌≡◌, ◌<◌, length};
ghost use Rattle.vcd_trace.specs.InsideGroups.{same_registers};
ghost use Rattle.vcd_trace.specs.InsideGroups as spec;

use block_core::MachineInside;

/// The values of more than one bit, in the order of their identifiers.
#[inline(always)]
pub(crate) fn words_of(machine: &MachineInside) -> [u32; 8]
    ensures { result ≡ spec.words_of machine.now }
{
    [
        u32::from(machine.pc),
        u32::from(machine.instruction),
        machine.x,
        machine.y,
        machine.isr,
        machine.osr,
        u32::from(machine.isr_count),
        u32::from(machine.osr_count),
    ]
}

/// Those of one bit, the first in bit 0.
#[inline(always)]
pub(crate) fn bits_of(machine: &MachineInside) -> u32
    ensures value { result ≡ spec.flags_of machine.now }
    ensures low { result < 4 }
{
    u32::from(machine.waits) + 2 * u32::from(machine.enabled)
}

/// Whether two machines agree in all but the address and the word.
#[inline(always)]
pub(crate) fn has_same_registers(before: &MachineInside, now: &MachineInside) -> bool
    ensures { result ≡ same_registers before.now now.now }
{
    long_of(before) == long_of(now) && short_of(before) == short_of(now)
}

// The registers of 32 bits. Side by side, they are compared at once.
#[inline(always)]
fn long_of(machine: &MachineInside) -> [u32; 4]
    ensures { result ≡ spec.long_of machine.now }
{
    [machine.x, machine.y, machine.isr, machine.osr]
}

// The counts, and whether it waits and is enabled.
#[inline(always)]
fn short_of(machine: &MachineInside) -> [u8; 4]
    ensures { result ≡ spec.short_of machine.now }
{
    [
        machine.isr_count,
        machine.osr_count,
        u8::from(machine.waits),
        u8::from(machine.enabled),
    ]
}
