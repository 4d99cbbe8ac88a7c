//! MOV and SET, which put a word or a number where it belongs (RP2040 Datasheet, sections 3.4.8 and 3.4.10).
ghost use Rattle.std.specs.Prelude.{◌≡◌};
ghost use Rattle.sm_registers.specs.Effects as spec;
ghost use Rattle.sm_registers.specs.Ends.{effect_by};
ghost use Rattle.sm_registers.specs.Intents.{no_intent};
ghost use Rattle.sm_registers.specs.State.{queues_of};

use crate::end::End;
use crate::fifo_moves::fill_osr;
use crate::registers::Registers;
use crate::view::View;
use fifo_pair::{Fifo, Pair};
use pin_matrix::{MachineSetup, pins_from, writes_of};
use pio_encode::{MovDestination, MovOperation, MovSource, SetDestination};
use shift_engine::reverse_bits;

/// Copies a word, inverted or with its bits reversed where that is asked.
#[inline(always)]
#[tactic(auto, unfolding(crate::specs::Effects::mov_effect))]
pub(crate) fn mov_effect<F: Fifo>(
    destination: MovDestination,
    operation: MovOperation,
    source: MovSource,
    setup: &MachineSetup,
    view: &View,
    fifos: &Pair<F>,
    registers: &mut Registers,
) -> End
    ensures { effect_by registers.new no_intent result
        ≡ spec.mov_effect destination operation source setup.now view.now (queues_of fifos.now) registers.old }
{
    let word = mov_word(source, setup, view, fifos, registers);
    mov_to(destination, operated(operation, word), setup, registers)
}

/// The word that a MOV takes.
#[inline(always)]
fn mov_word<F: Fifo>(
    source: MovSource,
    setup: &MachineSetup,
    view: &View,
    fifos: &Pair<F>,
    registers: &Registers,
) -> u32
    ensures { result ≡ spec.mov_word source setup.now view.now (queues_of fifos.now) registers.now }
{
    match source {
        MovSource::Pins => pins_from(view.seen(), setup.in_base),
        MovSource::X => registers.x,
        MovSource::Y => registers.y,
        MovSource::Null => 0,
        MovSource::Status => status(setup, fifos),
        MovSource::Isr => registers.isr,
        MovSource::Osr => registers.osr,
    }
}

/// All ones where the chosen FIFO's level is below N, else 0.
fn status<F: Fifo>(setup: &MachineSetup, fifos: &Pair<F>) -> u32
    ensures { result ≡ spec.status setup.now (queues_of fifos.now) }
{
    let level = if setup.status_rx {
        fifos.rx_level()
    } else {
        fifos.tx_level()
    };
    if level < usize::from(setup.status_n) {
        u32::MAX
    } else {
        0
    }
}

/// What a MOV makes of its word.
fn operated(operation: MovOperation, word: u32) -> u32
    ensures { result ≡ spec.operated operation word }
{
    match operation {
        MovOperation::Plain => word,
        MovOperation::Invert => !word,
        MovOperation::Reverse => reverse_bits(word),
    }
}

/// Puts a MOV's word where it goes.
#[inline(always)]
fn mov_to(
    destination: MovDestination,
    value: u32,
    setup: &MachineSetup,
    registers: &mut Registers,
) -> End
    ensures { effect_by registers.new no_intent result
        ≡ spec.mov_to destination value setup.now registers.old }
{
    match destination {
        MovDestination::Pins => return End::Levels(writes_of(&setup.out, value)),
        MovDestination::X => registers.x = value,
        MovDestination::Y => registers.y = value,
        MovDestination::Exec => return End::Executes((value % 65_536) as u16),
        MovDestination::Pc => return End::Jumps((value % 32) as u8),
        MovDestination::Isr => {
            registers.isr = value;
            registers.in_count = 0;
        }
        MovDestination::Osr => fill_osr(value, registers),
    }
    End::GoesOn
}

/// Sets pins, directions, X or Y to a number of five bits.
#[inline(always)]
#[tactic(auto, unfolding(crate::specs::Effects::set_effect))]
pub(crate) fn set_effect(
    destination: SetDestination,
    value: u8,
    setup: &MachineSetup,
    registers: &mut Registers,
) -> End
    ensures { effect_by registers.new no_intent result
        ≡ spec.set_effect destination value setup.now registers.old }
{
    let value = u32::from(value);
    match destination {
        SetDestination::Pins => return End::Levels(writes_of(&setup.set, value)),
        SetDestination::X => registers.x = value,
        SetDestination::Y => registers.y = value,
        SetDestination::Pindirs => return End::Directions(writes_of(&setup.set, value)),
    }
    End::GoesOn
}
