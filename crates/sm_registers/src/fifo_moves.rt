//! PUSH and PULL: words between the shift registers and the FIFOs (RP2040 Datasheet, sections 3.4.6 and 3.4.7).
ghost use Rattle.std.specs.Prelude.{◌≡◌};
ghost use Rattle.sm_registers.specs.Effects as spec;
ghost use Rattle.sm_registers.specs.Ends.{effect_by};
ghost use Rattle.sm_registers.specs.Intents.{no_intent};
ghost use Rattle.sm_registers.specs.State.{queues_of};

use crate::end::End;
use crate::intent::Intent;
use crate::registers::Registers;
use crate::shifting::{empty_isr, give_isr};
use crate::sticky::{RX_STALL, TX_STALL};
use fifo_pair::{Fifo, Pair};
use pin_matrix::MachineSetup;

/// Gives the ISR to RX. A full RX makes it stall, or without Block lose its word.
#[inline(always)]
#[tactic(auto, unfolding(crate::specs::Effects::push_effect))]
pub(crate) fn push_effect<F: Fifo>(
    if_full: bool,
    block: bool,
    setup: &MachineSetup,
    fifos: &Pair<F>,
    registers: &mut Registers,
    intent: &mut Intent,
) -> End
    requires { intent.old ≡ no_intent }
    ensures { effect_by registers.new intent.new result
        ≡ spec.push_effect if_full block setup.now (queues_of fifos.now) registers.old }
{
    if if_full && registers.in_count < setup.push_threshold {
        return End::GoesOn;
    }
    if !fifos.rx_full() {
        give_isr(registers, intent);
        return End::GoesOn;
    }
    intent.sticky = RX_STALL;
    if block {
        End::Stalls
    } else {
        empty_isr(registers);
        End::GoesOn
    }
}

/// Takes a word from TX into the OSR. An empty TX makes it stall, or without Block copy X.
#[inline(always)]
#[tactic(auto, unfolding(crate::specs::Effects::pull_effect))]
pub(crate) fn pull_effect<F: Fifo>(
    if_empty: bool,
    block: bool,
    setup: &MachineSetup,
    fifos: &Pair<F>,
    registers: &mut Registers,
    intent: &mut Intent,
) -> End
    requires { intent.old ≡ no_intent }
    ensures { effect_by registers.new intent.new result
        ≡ spec.pull_effect if_empty block setup.now (queues_of fifos.now) registers.old }
{
    if pulls_nothing(if_empty, setup, registers) {
        End::GoesOn
    } else {
        pulled(fifos.tx_front(), block, registers, intent)
    }
}

/// Whether the rule of IfEmpty, or that of autopull, makes a PULL do nothing.
fn pulls_nothing(if_empty: bool, setup: &MachineSetup, registers: &Registers) -> bool
    ensures { result ≡ spec.pulls_nothing if_empty setup.now registers.now }
{
    (if_empty && registers.out_count < setup.pull_threshold)
        || (setup.autopull && registers.out_count == 0)
}

/// What a PULL that isn't kept from it does with the oldest word of TX, or with none.
fn pulled(front: Option<u32>, block: bool, registers: &mut Registers, intent: &mut Intent) -> End
    requires { intent.old ≡ no_intent }
    ensures { effect_by registers.new intent.new result ≡ spec.pulled front block registers.old }
{
    match front {
        Some(word) => {
            fill_osr(word, registers);
            intent.take = true;
            End::GoesOn
        }
        None if block => {
            intent.sticky = TX_STALL;
            End::Stalls
        }
        None => {
            fill_osr(registers.x, registers);
            End::GoesOn
        }
    }
}

/// Fills the OSR with a new word.
pub(crate) fn fill_osr(word: u32, registers: &mut Registers)
    ensures { registers.new ≡ spec.osr_filled word registers.old }
{
    registers.osr = word;
    registers.out_count = 0;
}
