//! One tick: the current word's effect, and what each tick does besides (RP2040 Datasheet, sections 3.2.4 and 3.5).
ghost use Rattle.std.specs.Prelude.{◌≡◌, ◌<◌, ◌≤◌, ℕ, None, is_some, false};
ghost use Rattle.pin_matrix.specs.declared.machine.MachineSetup as spec_setup;
ghost use Rattle.sm_registers.specs.Decoding.{IsReading};
ghost use Rattle.sm_registers.specs.Ends.{effect_by};
ghost use Rattle.sm_registers.specs.Ranges.{IsPlaced};
ghost use Rattle.sm_registers.specs.Simple.{begins_anew};
ghost use Rattle.sm_registers.specs.State.{queues_of};
ghost use Rattle.sm_registers.specs.Tick as spec;
ghost use Rattle.sm_registers.specs.declared.intent.Intent as spec_intent;
ghost use Rattle.sm_registers.specs.declared.registers.Registers as spec_registers;

use crate::decoded::{Decoded, PENDING, Reading};
use crate::end::End;
use crate::fifo_moves::fill_osr;
use crate::instruction::effect_of;
use crate::intent::{Intent, Kind};
use crate::registers::Registers;
use crate::shifting::is_due;
use crate::view::View;
use fifo_pair::{Fifo, Pair};
use pin_matrix::MachineSetup;

/// A tick: changes the registers, and returns what it does outside them.
#[inline(always)]
#[tactic(auto, unfolding(crate::specs::Tick::tick_of, crate::specs::Tick::tick_delay))]
pub(crate) fn tick_of<F: Fifo>(
    setup: &MachineSetup,
    view: &View,
    fifos: &Pair<F>,
    decoded: &mut Decoded,
    registers: &mut Registers,
) -> Intent
    requires placed { IsPlaced registers.old }
    requires setup { decoded.old.setup ≡ setup.now }
    ensures registers { registers.new
        ≡ (spec.tick_of setup.now view.now (queues_of fifos.now) registers.old).0 }
    ensures intent { result ≡ (spec.tick_of setup.now view.now (queues_of fifos.now) registers.old).1 }
    ensures same { decoded.new.setup ≡ decoded.old.setup }
{
    if registers.delay > 0 {
        registers.delay -= 1;
        return Intent {
            take: refill(setup, fifos, registers),
            kind: Kind::Delay,
            ..Intent::none()
        };
    }
    let (place, word) = current_word(view, registers);
    decoded.read(place, word);
    tick_word(decoded.reading(place), setup, view, fifos, registers)
}

/// The word that a tick runs, with its place among those that are decoded: the pending word, else that of memory at PC.
#[inline(always)]
pub(crate) fn current_word(view: &View, registers: &Registers) -> (u8, u16)
    requires { registers.now.pc < 32 }
    ensures place { result.0 ≤ 32 }
    ensures pc { registers.now.pending ≡ None → result.0 ≡ registers.now.pc }
    ensures word { result.1 ≡ spec.current_word view.now registers.now }
{
    match registers.pending {
        Some(word) => (PENDING, word),
        None => (registers.pc, view.word(registers.pc)),
    }
}

/// A tick of an instruction.
#[inline(always)]
#[tactic(auto, unfolding(crate::specs::Tick::tick_word, crate::specs::Tick::tick_by, crate::specs::Tick::after_effect))]
fn tick_word<F: Fifo>(
    reading: &Reading,
    setup: &MachineSetup,
    view: &View,
    fifos: &Pair<F>,
    registers: &mut Registers,
) -> Intent
    requires placed { IsPlaced registers.old }
    requires reading { (place : ℕ) × IsReading setup.now place reading.now }
    requires next { registers.old.pending ≡ None
        → reading.now.next ≡ spec.next_after setup.now registers.old.pc }
    ensures registers { registers.new
        ≡ (spec.tick_word reading.now.op setup.now view.now (queues_of fifos.now) registers.old).0 }
    ensures intent { result
        ≡ (spec.tick_word reading.now.op setup.now view.now (queues_of fifos.now) registers.old).1 }
{
    let begun = registers.begun;
    let next = next_pc(reading.next, registers);
    let mut wants = Intent::none();
    let end = effect_of(reading.op.act, setup, view, fifos, registers, &mut wants);
    let _begins = conclude(end, next, reading.op.delay, registers);
    let refilled = refill(setup, fifos, registers);
    // Never both: a PULL that takes a word has filled the OSR.
    wants.take = wants.take | refilled;
    Intent::of(Kind::of(begun), end, reading.side.in_tick(begun), wants)
}

/// PC after an instruction that doesn't jump, by the address after its own: a pending word leaves it.
#[inline(always)]
fn next_pc(next: u8, registers: &Registers) -> u8
    ensures { (s : spec_setup.MachineSetup)
        → (registers.now.pending ≡ None → next ≡ spec.next_after s registers.now.pc)
        → result ≡ spec.pc_after None (is_some registers.now.pending) s registers.now }
{
    if registers.pending.is_some() {
        registers.pc
    } else {
        next
    }
}

/// The registers at the end of an instruction's tick: whether it has begun, else PC, pending word and delay. True where
/// the next tick begins an instruction from memory.
#[inline(always)]
#[tactic(auto, unfolding(crate::specs::Tick::after_effect))]
pub(crate) fn conclude(end: End, next: u8, delay: u8, registers: &mut Registers) -> bool
    ensures after { (s : spec_setup.MachineSetup) (before : spec_registers.Registers) (i : spec_intent.Intent)
        → next ≡ spec.pc_after None (is_some before.pending) s before
        → registers.new ≡ spec.after_effect delay s before (effect_by registers.old i end) }
    ensures begins { result ≡ begins_anew registers.new }
{
    match end {
        End::Stalls => {
            registers.begun = true;
            false
        }
        End::Executes(word) => {
            finish(next, Some(word), 0, registers);
            false
        }
        End::Jumps(address) => {
            finish(address, None, delay, registers);
            delay == 0
        }
        End::GoesOn | End::Levels(_) | End::Directions(_) => {
            finish(next, None, delay, registers);
            delay == 0
        }
    }
}

/// Ends an instruction that is finished.
#[inline(always)]
fn finish(pc: u8, pending: Option<u16>, delay: u8, registers: &mut Registers)
    ensures { registers.new
        ≡ record registers.old { pc = pc; pending = pending; delay = delay; begun = false } }
{
    registers.pc = pc;
    registers.pending = pending;
    registers.delay = delay;
    registers.begun = false;
}

/// Autopull: fills the OSR where it is due and TX has a word, and returns whether it took one.
fn refill<F: Fifo>(setup: &MachineSetup, fifos: &Pair<F>, registers: &mut Registers) -> bool
    ensures registers { registers.new ≡ spec.refilled setup.now (queues_of fifos.now) registers.old }
    ensures taken { result ≡ spec.refills setup.now (queues_of fifos.now) registers.old }
{
    if is_due(setup, registers) {
        if let Some(word) = fifos.tx_front() {
            fill_osr(word, registers);
            return true;
        }
    }
    false
}
