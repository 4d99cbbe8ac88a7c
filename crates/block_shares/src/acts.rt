//! What one instruction reads, waits for and changes, and where it goes on (RP2040 Datasheet, section 3.4).
ghost use Rattle.std.specs.Prelude.{◌≡◌, ◌<◌, ◌≤◌, ◌^◌};
ghost use Rattle.pio_encode.specs.Ranges.{IsInRange};
ghost use Rattle.irq_flags.specs.Flags as flags;
ghost use Rattle.block_shares.specs.Acts as spec;

use irq_flags::resolve;
use pin_matrix::{MachineSetup, Mapping, writes_of};
use pio_encode::{Act, Condition, InSource, MovDestination, MovSource, OutDestination, WaitSource};

/// The number whose bits are this place alone.
pub(crate) fn bit(place: u8) -> u32
    requires { place < 32 }
    ensures { result ≡ 2 ^ place }
{
    1 << place
}

/// Whether a place is among these.
pub(crate) fn has(set: u32, place: u8) -> bool
    requires { place < 32 }
    ensures { result ≡ spec.has set place }
{
    (set >> place) % 2 == 1
}

/// The pins of a mapping.
pub(crate) fn pins_of(mapping: &Mapping) -> u32
    ensures { result ≡ spec.pins_in mapping.now.base mapping.now.count }
{
    writes_of(mapping, 0).0
}

/// The addresses that may come after an instruction which this address follows on.
pub(crate) fn leads_to(act: &Act, next: u8) -> u32
    requires range { IsInRange act.now }
    requires next { next < 32 }
    ensures { result ≡ spec.leads_to act.now next }
{
    match act {
        Act::Jmp { condition, address } => jump_leads_to(*condition, *address, next),
        _ => bit(next),
    }
}

/// The same of a JMP: one without a condition is always taken.
fn jump_leads_to(condition: Condition, address: u8, next: u8) -> u32
    requires address { address < 32 }
    requires next { next < 32 }
    ensures { result ≡ spec.jump_leads_to condition address next }
{
    match condition {
        Condition::Always => bit(address),
        _ => bit(next) | bit(address),
    }
}

/// Whether it sets PC, or the next instruction, from data.
pub(crate) fn is_wild(act: &Act) -> bool
    ensures { result ≡ spec.is_wild act.now }
{
    match act {
        Act::Out { destination, .. } => {
            matches!(destination, OutDestination::Pc | OutDestination::Exec)
        }
        Act::Mov { destination, .. } => {
            matches!(destination, MovDestination::Pc | MovDestination::Exec)
        }
        _ => false,
    }
}

/// The pins that it reads.
pub(crate) fn reads_of(act: &Act, setup: &MachineSetup) -> u32
    requires { IsInRange act.now }
    ensures { result ≡ spec.reads_of act.now setup.now }
{
    match act {
        Act::Jmp { condition, .. } => jump_reads(*condition, setup),
        Act::Wait { source, index, .. } => wait_reads(*source, *index, setup),
        Act::In { source, count } => in_reads(*source, *count, setup),
        Act::Mov { source, .. } => mov_reads(*source),
        _ => 0,
    }
}

/// The pin that a JMP reads.
fn jump_reads(condition: Condition, setup: &MachineSetup) -> u32
    ensures { result ≡ spec.jump_reads condition setup.now }
{
    match condition {
        Condition::Pin => bit(setup.jmp_pin),
        _ => 0,
    }
}

/// The pin that a WAIT reads.
fn wait_reads(source: WaitSource, index: u8, setup: &MachineSetup) -> u32
    requires { index < 32 }
    ensures { result ≡ spec.wait_reads source index setup.now }
{
    match source {
        WaitSource::Gpio => bit(index),
        WaitSource::Pin => bit((setup.in_base + index) % 32),
        WaitSource::Irq => 0,
    }
}

/// The pins that an IN reads.
fn in_reads(source: InSource, count: u8, setup: &MachineSetup) -> u32
    requires { count ≤ 32 }
    ensures { result ≡ spec.in_reads source count setup.now }
{
    match source {
        InSource::Pins => {
            pins_of(&Mapping {
                base: setup.in_base,
                count,
            })
        }
        _ => 0,
    }
}

/// The pins that a MOV reads.
fn mov_reads(source: MovSource) -> u32
    ensures { result ≡ spec.mov_reads source }
{
    match source {
        MovSource::Pins => u32::MAX,
        _ => 0,
    }
}

/// The flags that it waits for.
pub(crate) fn sees_of(act: &Act, setup: &MachineSetup) -> u8
    requires { IsInRange act.now }
    ensures { result ≡ spec.sees_of act.now setup.now }
{
    match act {
        Act::Wait {
            source: WaitSource::Irq,
            index,
            ..
        } => flag_of(*index, setup),
        Act::Irq {
            clear: false,
            wait: true,
            index,
        } => flag_of(*index, setup),
        _ => 0,
    }
}

/// The flags that it raises or lowers.
pub(crate) fn changes_of(act: &Act, setup: &MachineSetup) -> u8
    requires { IsInRange act.now }
    ensures { result ≡ spec.changes_of act.now setup.now }
{
    match act {
        Act::Wait {
            polarity,
            source,
            index,
        } => wait_changes(*polarity, *source, *index, setup),
        Act::Irq { index, .. } => flag_of(*index, setup),
        _ => 0,
    }
}

/// The flag that a WAIT lowers.
fn wait_changes(polarity: bool, source: WaitSource, index: u8, setup: &MachineSetup) -> u8
    requires { index < 32 }
    ensures { result ≡ spec.wait_changes polarity source index setup.now }
{
    match source {
        WaitSource::Irq if polarity => flag_of(index, setup),
        _ => 0,
    }
}

/// The flag that an index means on a machine, as a bit.
fn flag_of(index: u8, setup: &MachineSetup) -> u8
    requires { index < 32 }
    ensures { result ≡ 2 ^ flags.flag_of index setup.now.id }
{
    1 << resolve(index, setup.id)
}
