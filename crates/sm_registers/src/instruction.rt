//! Which effect each act has (RP2040 Datasheet, section 3.4).
ghost use Rattle.std.specs.Prelude.{◌≡◌, true};
ghost use Rattle.pio_encode.specs.Ranges.{IsInRange};
ghost use Rattle.sm_registers.specs.Effects as spec;
ghost use Rattle.sm_registers.specs.Ends.{effect_by};
ghost use Rattle.sm_registers.specs.Intents.{no_intent};
ghost use Rattle.sm_registers.specs.Ranges.{IsPlaced};
ghost use Rattle.sm_registers.specs.Simple.{has_no_wish};
ghost use Rattle.sm_registers.specs.State.{queues_of};

use crate::end::End;
use crate::fifo_moves::{pull_effect, push_effect};
use crate::intent::Intent;
use crate::jump::jmp_effect;
use crate::moving::{mov_effect, set_effect};
use crate::registers::Registers;
use crate::shifting::{in_effect, out_effect};
use crate::view::View;
use crate::waiting::{irq_effect, wait_effect};
use fifo_pair::{Fifo, Pair};
use pin_matrix::MachineSetup;
use pio_encode::Act;

/// Does to registers what an act does to them, and returns what it wants of FIFOs and flags, and how it ends.
// One piece of code, in which each act goes straight to what it does.
#[inline(always)]
#[tactic(auto, unfolding(crate::specs::Effects::effect_of))]
pub(crate) fn effect_of<F: Fifo>(
    act: Act,
    setup: &MachineSetup,
    view: &View,
    fifos: &Pair<F>,
    registers: &mut Registers,
    intent: &mut Intent,
) -> End
    requires act { IsInRange act }
    requires placed { IsPlaced registers.old }
    requires fresh { intent.old ≡ no_intent }
    ensures { effect_by registers.new intent.new result
        ≡ spec.effect_of act setup.now view.now (queues_of fifos.now) registers.old }
{
    match act {
        Act::Wait {
            polarity,
            source,
            index,
        } => wait_effect(polarity, source, index, setup, view, registers, intent),
        Act::In { source, count } => {
            in_effect(source, count, setup, view, fifos, registers, intent)
        }
        Act::Out { destination, count } => {
            out_effect(destination, count, setup, fifos, registers, intent)
        }
        Act::Push { if_full, block } => {
            push_effect(if_full, block, setup, fifos, registers, intent)
        }
        Act::Pull { if_empty, block } => {
            pull_effect(if_empty, block, setup, fifos, registers, intent)
        }
        Act::Irq { clear, wait, index } => {
            irq_effect(clear, wait, index, setup, view, registers, intent)
        }
        _ => effect_without_wish(act, setup, view, fifos, registers),
    }
}

/// The same of JMP, MOV, SET and an act that does nothing. They never wait, and want nothing of FIFOs and flags.
#[inline(always)]
#[tactic(auto, unfolding(crate::specs::Effects::effect_of))]
pub(crate) fn effect_without_wish<F: Fifo>(
    act: Act,
    setup: &MachineSetup,
    view: &View,
    fifos: &Pair<F>,
    registers: &mut Registers,
) -> End
    requires act { has_no_wish act ≡ true }
    ensures { effect_by registers.new no_intent result
        ≡ spec.effect_of act setup.now view.now (queues_of fifos.now) registers.old }
{
    match act {
        Act::Jmp { condition, address } => {
            jmp_effect(condition, address, setup, view, registers)
        }
        Act::Mov {
            destination,
            operation,
            source,
        } => {
            mov_effect(
                destination,
                operation,
                source,
                setup,
                view,
                fifos,
                registers,
            )
        }
        Act::Set { destination, value } => set_effect(destination, value, setup, registers),
        Act::Nothing => End::GoesOn,
        _ => unreachable!(),
    }
}
