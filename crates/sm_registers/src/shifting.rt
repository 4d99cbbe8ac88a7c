//! IN and OUT: bits into the ISR and out of the OSR (RP2040 Datasheet, sections 3.4.4, 3.4.5 and 3.5.4).
ghost use Rattle.std.specs.Prelude.{◌≡◌, ◌≤◌, Some};
ghost use Rattle.sm_registers.specs.Effects as spec;
ghost use Rattle.sm_registers.specs.Ends.{effect_by};
ghost use Rattle.sm_registers.specs.Intents.{no_intent};
ghost use Rattle.sm_registers.specs.State.{queues_of};

use crate::end::End;
use crate::intent::Intent;
use crate::registers::Registers;
use crate::sticky::{RX_STALL, TX_STALL};
use crate::view::View;
use fifo_pair::{Fifo, Pair};
use pin_matrix::{MachineSetup, pins_from, writes_of};
use pio_encode::{InSource, OutDestination};
use shift_engine::{shift_in, shift_out};

/// Shifts bits in, in its first tick alone; with autopush it then pushes at the threshold, and stalls while RX is full.
#[inline(always)]
#[tactic(auto, unfolding(crate::specs::Effects::in_effect))]
pub(crate) fn in_effect<F: Fifo>(
    source: InSource,
    count: u8,
    setup: &MachineSetup,
    view: &View,
    fifos: &Pair<F>,
    registers: &mut Registers,
    intent: &mut Intent,
) -> End
    requires count { count ≤ 32 }
    requires placed { registers.old.in_count ≤ 32 }
    requires fresh { intent.old ≡ no_intent }
    ensures { effect_by registers.new intent.new result
        ≡ spec.in_effect source count setup.now view.now (queues_of fifos.now) registers.old }
{
    if !registers.begun {
        let word = in_word(source, setup, view, registers);
        put_bits_in(word, count, setup, registers);
    }
    autopush(setup, fifos, registers, intent)
}

/// The word that an IN takes bits of.
fn in_word(source: InSource, setup: &MachineSetup, view: &View, registers: &Registers) -> u32
    ensures { result ≡ spec.in_word source setup.now view.now registers.now }
{
    match source {
        InSource::Pins => pins_from(view.seen(), setup.in_base),
        InSource::X => registers.x,
        InSource::Y => registers.y,
        InSource::Null => 0,
        InSource::Isr => registers.isr,
        InSource::Osr => registers.osr,
    }
}

/// Shifts bits of a word into the ISR.
fn put_bits_in(word: u32, count: u8, setup: &MachineSetup, registers: &mut Registers)
    requires count { count ≤ 32 }
    requires placed { registers.old.in_count ≤ 32 }
    ensures { registers.new ≡ spec.with_bits_in word count setup.now registers.old }
{
    registers.isr = shift_in(registers.isr, word, count, setup.in_right);
    registers.in_count = (registers.in_count + count).min(32);
}

/// With autopush, pushes an ISR whose count has reached the threshold.
fn autopush<F: Fifo>(
    setup: &MachineSetup,
    fifos: &Pair<F>,
    registers: &mut Registers,
    intent: &mut Intent,
) -> End
    requires { intent.old ≡ no_intent }
    ensures { effect_by registers.new intent.new result
        ≡ spec.autopushed setup.now (queues_of fifos.now) registers.old }
{
    if setup.autopush && setup.push_threshold <= registers.in_count {
        if fifos.rx_full() {
            intent.sticky = RX_STALL;
            return End::Stalls;
        }
        give_isr(registers, intent);
    }
    End::GoesOn
}

/// Gives the ISR to RX, which leaves it empty.
pub(crate) fn give_isr(registers: &mut Registers, intent: &mut Intent)
    ensures isr { registers.new ≡ spec.isr_emptied registers.old }
    ensures word { intent.new ≡ record intent.old { word = Some registers.old.isr } }
{
    intent.word = Some(registers.isr);
    empty_isr(registers);
}

/// Empties the ISR.
pub(crate) fn empty_isr(registers: &mut Registers)
    ensures { registers.new ≡ spec.isr_emptied registers.old }
{
    registers.isr = 0;
    registers.in_count = 0;
}

/// Whether autopull is due: the OSR's count has reached the threshold.
#[inline(always)]
pub(crate) fn is_due(setup: &MachineSetup, registers: &Registers) -> bool
    ensures { result ≡ spec.is_due setup.now registers.now }
{
    setup.autopull && setup.pull_threshold <= registers.out_count
}

/// Shifts bits out; where autopull is due, it stalls.
#[inline(always)]
#[tactic(auto, unfolding(crate::specs::Effects::out_effect))]
pub(crate) fn out_effect<F: Fifo>(
    destination: OutDestination,
    count: u8,
    setup: &MachineSetup,
    fifos: &Pair<F>,
    registers: &mut Registers,
    intent: &mut Intent,
) -> End
    requires count { count ≤ 32 }
    requires placed { registers.old.out_count ≤ 32 }
    requires fresh { intent.old ≡ no_intent }
    ensures { effect_by registers.new intent.new result
        ≡ spec.out_effect destination count setup.now (queues_of fifos.now) registers.old }
{
    if is_due(setup, registers) {
        intent.sticky = if fifos.tx_level() == 0 { TX_STALL } else { 0 };
        return End::Stalls;
    }
    put_bits_out(destination, count, setup, registers)
}

/// Shifts bits out of the OSR, and puts them where they go.
#[inline(always)]
pub(crate) fn put_bits_out(
    destination: OutDestination,
    count: u8,
    setup: &MachineSetup,
    registers: &mut Registers,
) -> End
    requires count { count ≤ 32 }
    requires placed { registers.old.out_count ≤ 32 }
    ensures { effect_by registers.new no_intent result
        ≡ spec.bits_out_to destination count setup.now registers.old }
{
    let (value, osr) = shift_out(registers.osr, count, setup.out_right);
    registers.osr = osr;
    registers.out_count = (registers.out_count + count).min(32);
    out_to(destination, value, count, setup, registers)
}

/// Puts an OUT's bits where they go.
#[inline(always)]
fn out_to(
    destination: OutDestination,
    value: u32,
    count: u8,
    setup: &MachineSetup,
    registers: &mut Registers,
) -> End
    ensures { effect_by registers.new no_intent result
        ≡ spec.out_to destination value count setup.now registers.old }
{
    match destination {
        OutDestination::Pins => return End::Levels(writes_of(&setup.out, value)),
        OutDestination::X => registers.x = value,
        OutDestination::Y => registers.y = value,
        OutDestination::Null => {}
        OutDestination::Pindirs => return End::Directions(writes_of(&setup.out, value)),
        OutDestination::Pc => return End::Jumps((value % 32) as u8),
        OutDestination::Isr => {
            registers.isr = value;
            registers.in_count = count;
        }
        OutDestination::Exec => return End::Executes((value % 65_536) as u16),
    }
    End::GoesOn
}
