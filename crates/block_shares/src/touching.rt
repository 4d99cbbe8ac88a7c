//! All that a machine can feel or change of its block.
ghost use Rattle.std.specs.Prelude.{◌≡◌, ◌<◌, None, is_some, slice_index_or, if◌then◌else◌};
ghost use Rattle.block_shares.specs.Acts as acts;
ghost use Rattle.block_shares.specs.Reach as reach;
ghost use Rattle.block_shares.specs.Shares as spec;

use crate::acts::{changes_of, has, pins_of, reads_of, sees_of};
use crate::reach::{act_at, act_of, reach_of, runs_wild};
use crate::touched::Touches;
use pin_matrix::{MachineSetup, Setup};

/// What the machine with this number, 0 to 3, touches: nothing, where it isn't configured. It takes no memory.
pub fn touches(setup: &Setup, machine: u8) -> Touches
    requires { machine < 4 }
    ensures { result ≡ spec.touches_of setup.now machine }
{
    touched_at(&setup.memory, &setup.machines, machine)
}

/// The same of these machines.
fn touched_at(memory: &[u16; 32], machines: &[Option<MachineSetup>; 4], machine: u8) -> Touches
    requires { machine < 4 }
    ensures { result ≡ spec.touched_at memory.now (slice_index_or machines.now machine None) }
{
    match &machines[usize::from(machine)] {
        Some(setup) => touched_by(memory, setup),
        None => Touches {
            reach: 0,
            reads: 0,
            writes: 0,
            sees: 0,
            changes: 0,
        },
    }
}

/// Whether the machine with this number, 0 to 3, is configured.
pub(crate) fn is_configured(machines: &[Option<MachineSetup>; 4], machine: u8) -> bool
    requires { machine < 4 }
    ensures { result ≡ is_some (slice_index_or machines.now machine None) }
{
    match &machines[usize::from(machine)] {
        Some(_) => true,
        None => false,
    }
}

/// What a machine touches.
#[tactic(auto, unfolding(crate::specs::Shares::touched_by))]
fn touched_by(memory: &[u16; 32], setup: &MachineSetup) -> Touches
    ensures { result ≡ spec.touched_by memory.now setup.now }
{
    let reach = reach_of(memory, setup);
    if runs_wild(memory, setup, reach) {
        return Touches {
            reach: u32::MAX,
            reads: u32::MAX,
            writes: writes_by(setup),
            sees: u8::MAX,
            changes: u8::MAX,
        };
    }
    touched_within(memory, setup, reach)
}

/// What the instructions at these addresses touch, none of which is wild, and the word that the machine executes first.
fn touched_within(memory: &[u16; 32], setup: &MachineSetup, set: u32) -> Touches
    ensures { result ≡ spec.touched_within memory.now setup.now set }
{
    Touches {
        reach: set,
        reads: first_reads(setup) | reads_in(memory, setup, set),
        writes: writes_by(setup),
        sees: first_sees(setup) | sees_in(memory, setup, set),
        changes: first_changes(setup) | changes_in(memory, setup, set),
    }
}

/// The pins that the word reads which the machine executes first.
fn first_reads(setup: &MachineSetup) -> u32
    ensures { result ≡ reach.of_first (λ act. acts.reads_of act setup.now) setup.now.pending }
{
    match setup.pending {
        Some(word) => reads_of(&act_of(word, setup), setup),
        None => 0,
    }
}

/// The flags that it waits for.
fn first_sees(setup: &MachineSetup) -> u8
    ensures { result ≡ reach.of_first (λ act. acts.sees_of act setup.now) setup.now.pending }
{
    match setup.pending {
        Some(word) => sees_of(&act_of(word, setup), setup),
        None => 0,
    }
}

/// The flags that it raises or lowers.
fn first_changes(setup: &MachineSetup) -> u8
    ensures { result ≡ reach.of_first (λ act. acts.changes_of act setup.now) setup.now.pending }
{
    match setup.pending {
        Some(word) => changes_of(&act_of(word, setup), setup),
        None => 0,
    }
}

/// The pins that the instructions at these addresses read.
#[tactic(auto, unfolding(crate::specs::Reach::gathered))]
fn reads_in(memory: &[u16; 32], setup: &MachineSetup, set: u32) -> u32
    ensures { result ≡ spec.reads_in memory.now setup.now set 32 }
{
    let mut reads = 0;
    for address in 0..32u8 {
        reads |= reads_at(memory, setup, set, address);
    }
    reads
}

/// The pins that the instruction at an address reads, where it is one of these.
fn reads_at(memory: &[u16; 32], setup: &MachineSetup, set: u32, address: u8) -> u32
    requires { address < 32 }
    ensures { result ≡ (if acts.has set address then acts.reads_of (reach.act_at memory.now address) setup.now else 0) }
{
    if has(set, address) {
        reads_of(&act_at(memory, setup, address), setup)
    } else {
        0
    }
}

/// The flags that the instructions at these addresses wait for.
#[tactic(auto, unfolding(crate::specs::Reach::gathered))]
fn sees_in(memory: &[u16; 32], setup: &MachineSetup, set: u32) -> u8
    ensures { result ≡ spec.sees_in memory.now setup.now set 32 }
{
    let mut sees = 0;
    for address in 0..32u8 {
        sees |= sees_at(memory, setup, set, address);
    }
    sees
}

/// The flags that the instruction at an address waits for, where it is one of these.
fn sees_at(memory: &[u16; 32], setup: &MachineSetup, set: u32, address: u8) -> u8
    requires { address < 32 }
    ensures { result ≡ (if acts.has set address then acts.sees_of (reach.act_at memory.now address) setup.now else 0) }
{
    if has(set, address) {
        sees_of(&act_at(memory, setup, address), setup)
    } else {
        0
    }
}

/// The flags that the instructions at these addresses raise or lower.
#[tactic(auto, unfolding(crate::specs::Reach::gathered))]
fn changes_in(memory: &[u16; 32], setup: &MachineSetup, set: u32) -> u8
    ensures { result ≡ spec.changes_in memory.now setup.now set 32 }
{
    let mut changes = 0;
    for address in 0..32u8 {
        changes |= changes_at(memory, setup, set, address);
    }
    changes
}

/// The flags that the instruction at an address raises or lowers, where it is one of these.
fn changes_at(memory: &[u16; 32], setup: &MachineSetup, set: u32, address: u8) -> u8
    requires { address < 32 }
    ensures { result ≡ (if acts.has set address then acts.changes_of (reach.act_at memory.now address) setup.now else 0) }
{
    if has(set, address) {
        changes_of(&act_at(memory, setup, address), setup)
    } else {
        0
    }
}

/// The pins of its mappings.
fn writes_by(setup: &MachineSetup) -> u32
    ensures { result ≡ spec.writes_by setup.now }
{
    pins_of(&setup.side) | (pins_of(&setup.out) | pins_of(&setup.set))
}
