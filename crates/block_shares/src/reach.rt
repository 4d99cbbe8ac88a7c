//! The addresses that a machine's program can come to.
ghost use Rattle.std.specs.Prelude.{◌≡◌, ◌<◌, ◌&&◌, if◌then◌else◌};
ghost use Rattle.pio_encode.specs.Ranges.{IsInRange};
ghost use Rattle.pio_encode.specs.Word as words;
ghost use Rattle.block_shares.specs.Acts as acts;
ghost use Rattle.block_shares.specs.Reach as spec;

use crate::acts::{bit, has, is_wild, leads_to};
use pin_matrix::MachineSetup;
use pio_encode::{Act, decode};

/// The instruction of a word.
pub(crate) fn act_of(word: u16, setup: &MachineSetup) -> Act
    ensures value { result ≡ words.act_of word }
    ensures range { IsInRange result }
{
    decode(word, &setup.side_rule).act
}

/// The instruction at an address of the memory.
pub(crate) fn act_at(memory: &[u16; 32], setup: &MachineSetup, address: u8) -> Act
    requires { address < 32 }
    ensures value { result ≡ spec.act_at memory.now address }
    ensures range { IsInRange result }
{
    act_of(memory[usize::from(address)], setup)
}

/// The address that follows one.
fn next_after(setup: &MachineSetup, address: u8) -> u8
    requires { address < 32 }
    ensures value { result ≡ spec.next_after setup.now address }
    ensures below { result < 32 }
{
    if address == setup.wrap_top {
        setup.wrap_bottom
    } else {
        (address + 1) % 32
    }
}

/// The addresses that may come after the instruction at an address, where it is one of these.
fn leads_from(memory: &[u16; 32], setup: &MachineSetup, set: u32, address: u8) -> u32
    requires { address < 32 }
    ensures { result ≡ (if acts.has set address then spec.leads_from setup.now address (spec.act_at memory.now address) else 0) }
{
    if has(set, address) {
        leads_to(&act_at(memory, setup, address), next_after(setup, address))
    } else {
        0
    }
}

/// The addresses that may come after these.
#[tactic(auto, unfolding(crate::specs::Reach::gathered))]
fn after_these(memory: &[u16; 32], setup: &MachineSetup, set: u32) -> u32
    ensures { result ≡ spec.after_these memory.now setup.now set }
{
    let mut after = 0;
    for address in 0..32u8 {
        after |= leads_from(memory, setup, set, address);
    }
    after
}

/// The addresses that the machine's first instruction from memory may have.
fn first_in(setup: &MachineSetup) -> u32
    ensures { result ≡ spec.first_in setup.now.pending setup.now.start }
{
    match setup.pending {
        Some(word) => leads_to(&act_of(word, setup), setup.start),
        None => bit(setup.start),
    }
}

/// All addresses that the machine's program can come to, data aside.
#[tactic(auto, unfolding(crate::specs::Reach::reach_in))]
pub(crate) fn reach_of(memory: &[u16; 32], setup: &MachineSetup) -> u32
    ensures { result ≡ spec.reach_of memory.now setup.now }
{
    let mut set = first_in(setup);
    for round in 0..32u8 {
        set |= after_these(memory, setup, set);
    }
    set
}

/// Whether the instruction at an address sets PC, or the next instruction, from data, where it is one of these.
fn is_wild_at(memory: &[u16; 32], setup: &MachineSetup, set: u32, address: u8) -> bool
    requires { address < 32 }
    ensures { result ≡ (acts.has set address && acts.is_wild (spec.act_at memory.now address)) }
{
    has(set, address) && is_wild(&act_at(memory, setup, address))
}

/// Whether an instruction at one of these addresses sets PC, or the next instruction, from data.
#[tactic(auto, unfolding(crate::specs::Reach::any_wild))]
fn any_wild(memory: &[u16; 32], setup: &MachineSetup, set: u32) -> bool
    ensures { result ≡ spec.any_wild memory.now set 32 }
{
    let mut wild = false;
    for address in 0..32u8 {
        wild = wild || is_wild_at(memory, setup, set, address);
    }
    wild
}

/// Whether the word that the machine executes first sets PC, or the next instruction, from data.
fn begins_wild(setup: &MachineSetup) -> bool
    ensures { result ≡ spec.begins_wild setup.now.pending }
{
    match setup.pending {
        Some(word) => is_wild(&act_of(word, setup)),
        None => false,
    }
}

/// Whether that word does so, or an instruction at one of these addresses.
pub(crate) fn runs_wild(memory: &[u16; 32], setup: &MachineSetup, set: u32) -> bool
    ensures { result ≡ spec.runs_wild memory.now setup.now set }
{
    begins_wild(setup) || any_wild(memory, setup, set)
}
