//! How long a machine idles: the ticks before the next one that stirs, found without making any of them.
ghost use Rattle.std.specs.Prelude.{◌≡◌};
ghost use Rattle.pio_encode.specs.Ranges.{IsInRange};
ghost use Rattle.sm_registers.specs.Idling as spec;
ghost use Rattle.sm_registers.specs.Ranges.{IsPlaced};
ghost use Rattle.sm_registers.specs.Rules as spec_rules;
ghost use Rattle.sm_registers.specs.State.{queues_of};
ghost use Rattle.sm_registers.specs.Tick as spec_tick;

use crate::decoded::Decoded;
use crate::end::End;
use crate::idle::Idle;
use crate::instruction::effect_of;
use crate::intent::Intent;
use crate::registers::Registers;
use crate::shifting::is_due;
use crate::tick::current_word;
use crate::view::View;
use crate::waiting::waited_bit;
use fifo_pair::{Fifo, Pair};
use pin_matrix::MachineSetup;
use pio_encode::Act;

/// The ticks before the next one that stirs, of a machine that sees the same in each.
pub(crate) fn idle_of<F: Fifo>(
    setup: &MachineSetup,
    view: &View,
    fifos: &Pair<F>,
    decoded: &Decoded,
    registers: &Registers,
) -> Idle
    requires placed { IsPlaced registers.now }
    requires setup { decoded.now.setup ≡ setup.now }
    ensures value { result ≡ spec.idle_of setup.now view.now (queues_of fifos.now) registers.now }
{
    if refills(setup, fifos, registers) {
        Idle::Ticks(0)
    } else if waits_again(setup, view, decoded, registers) {
        Idle::Never
    } else if registers.begun && stalls_again(setup, view, fifos, decoded, registers) {
        Idle::Never
    } else {
        Idle::Ticks(u64::from(registers.delay))
    }
}

/// Whether the next tick only waits once more: a WAIT stalled before, and its bit hasn't the polarity yet. Autopull is
/// off.
#[inline(always)]
#[tactic(auto, unfolding(pio_encode::specs::Word::reading_of))]
pub(crate) fn waits_again(
    setup: &MachineSetup,
    view: &View,
    decoded: &Decoded,
    registers: &Registers,
) -> bool
    requires placed { IsPlaced registers.now }
    requires setup { decoded.now.setup ≡ setup.now }
    ensures { result ≡ spec.waits_again setup.now view.now registers.now }
{
    if !registers.begun || setup.autopull || registers.delay > 0 {
        return false;
    }
    is_unmet(&current_act(view, decoded, registers), setup, view)
}

/// The instruction that a tick runs, where no delay is left.
#[inline(always)]
#[tactic(auto, unfolding(pio_encode::specs::Word::reading_of))]
fn current_act(view: &View, decoded: &Decoded, registers: &Registers) -> Act
    requires { IsPlaced registers.now }
    ensures value { result ≡ spec_rules.current_act view.now registers.now }
    ensures act { IsInRange result }
{
    let (place, word) = current_word(view, registers);
    decoded.act(place, word)
}

/// Whether an act is a WAIT whose bit hasn't the polarity.
#[inline(always)]
pub(crate) fn is_unmet(act: &Act, setup: &MachineSetup, view: &View) -> bool
    requires { IsInRange act.now }
    ensures { result ≡ spec.is_unmet act.now setup.now view.now }
{
    match *act {
        Act::Wait {
            polarity,
            source,
            index,
        } => waited_bit(source, index, setup, view) != polarity,
        _ => false,
    }
}

/// Whether autopull is due and TX has a word.
pub(crate) fn refills<F: Fifo>(setup: &MachineSetup, fifos: &Pair<F>, registers: &Registers) -> bool
    ensures { result ≡ spec_tick.refills setup.now (queues_of fifos.now) registers.now }
{
    is_due(setup, registers) && fifos.tx_front().is_some()
}

/// Whether the current instruction stalls as soon as no delay is left. Nothing of what it does is kept.
#[inline(never)]
#[tactic(auto, unfolding(pio_encode::specs::Word::reading_of))]
fn stalls_again<F: Fifo>(
    setup: &MachineSetup,
    view: &View,
    fifos: &Pair<F>,
    decoded: &Decoded,
    registers: &Registers,
) -> bool
    requires placed { IsPlaced registers.now }
    requires setup { decoded.now.setup ≡ setup.now }
    ensures { result ≡ (spec.undelayed setup.now view.now (queues_of fifos.now) registers.now).stalled }
{
    let act = current_act(view, decoded, registers);
    let mut undelayed = Registers {
        delay: 0,
        ..*registers
    };
    let mut intent = Intent::none();
    let end = effect_of(act, setup, view, fifos, &mut undelayed, &mut intent);
    matches!(end, End::Stalls)
}
