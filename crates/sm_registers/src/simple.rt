//! Simple ticks, which are most of what a busy machine does: they want nothing of FIFOs and flags.
ghost use Rattle.std.specs.Prelude.{◌≡◌, ℕ, true, false, is_some, if◌then◌else◌, IfSome};
ghost use Rattle.sm_registers.specs.Decoding.{IsReading};
ghost use Rattle.sm_registers.specs.Effects as spec_effects;
ghost use Rattle.sm_registers.specs.Ends.{effect_by};
ghost use Rattle.sm_registers.specs.Intents.{no_intent};
ghost use Rattle.sm_registers.specs.Ranges.{IsPlaced};
ghost use Rattle.sm_registers.specs.Simple.{begins_anew, is_done, never_waits, leaves_ready};
ghost use Rattle.sm_registers.specs.State.{queues_of};
ghost use Rattle.sm_registers.specs.declared.simple.Tried.TheVariants.{Done, DoneReady};

use crate::decoded::Reading;
use crate::end::End;
use crate::instruction::effect_without_wish;
use crate::jump::{count_x, count_y};
use crate::plan::Plan;
use crate::registers::Registers;
use crate::shifting::put_bits_out;
use crate::view::View;
use fifo_pair::{Fifo, Pair};
use pin_matrix::MachineSetup;

/// What came of a tick, or of a clock, that is done where it is simple.
#[derive(Clone, Copy)]
pub enum Tried {
    /// It isn't simple, and nothing was done.
    NotSimple,
    /// It was done.
    Done,
    /// It was done, and the next one is ready.
    DoneReady,
}

impl Tried {
    /// It was done, by whether the next one is ready.
    #[inline(always)]
    pub(crate) fn done(ready: bool) -> Tried
        ensures { result ≡ if ready then DoneReady else Done }
    {
        if ready { Tried::DoneReady } else { Tried::Done }
    }

    /// Whether it was done.
    #[inline(always)]
    pub fn is_done(self) -> bool
        ensures { result ≡ is_done self }
    {
        !matches!(self, Tried::NotSimple)
    }

    /// Whether it was done, and the next one is ready.
    #[inline(always)]
    pub fn is_ready(self) -> bool
        ensures { result ≡ leaves_ready self }
    {
        matches!(self, Tried::DoneReady)
    }
}

/// Whether the next tick begins an instruction from memory.
#[inline(always)]
pub(crate) fn begins_anew(registers: &Registers) -> bool
    ensures { result ≡ begins_anew registers.now }
{
    registers.delay == 0 && !(registers.begun | registers.pending.is_some())
}

/// The effect of an instruction that never waits, without autopull; none of another one, and then nothing changes.
#[inline(always)]
pub(crate) fn planned_effect<F: Fifo>(
    reading: &Reading,
    setup: &MachineSetup,
    view: &View,
    fifos: &Pair<F>,
    registers: &mut Registers,
) -> Option<End>
    requires reading { (place : ℕ) × IsReading setup.now place reading.now }
    requires placed { IsPlaced registers.old }
    requires autopull { setup.now.autopull ≡ false }
    ensures made { is_some result ≡ never_waits reading.now.op.act }
    ensures effect { IfSome result (λ end. effect_by registers.new no_intent end
        ≡ spec_effects.effect_of reading.now.op.act setup.now view.now (queues_of fifos.now) registers.old) }
    ensures kept { is_some result ≡ false → registers.new ≡ registers.old }
{
    match reading.plan {
        Plan::Jump { target } => Some(End::Jumps(target)),
        Plan::CountX { target } => Some(count_x(target, registers)),
        Plan::CountY { target } => Some(count_y(target, registers)),
        Plan::Set { pins, bits } => Some(End::Levels((pins, bits))),
        Plan::Out { destination, count } => {
            Some(put_bits_out(destination, count, setup, registers))
        }
        Plan::Other => Some(effect_without_wish(reading.op.act, setup, view, fifos, registers)),
        Plan::Whole => None,
    }
}
