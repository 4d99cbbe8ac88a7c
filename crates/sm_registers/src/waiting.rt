//! WAIT and IRQ, the instructions that wait for a pin or a flag (RP2040 Datasheet, sections 3.4.3 and 3.4.9).
ghost use Rattle.std.specs.Prelude.{◌≡◌, ◌<◌, ◌^◌};
ghost use Rattle.irq_flags.specs.Flags.{flag_of};
ghost use Rattle.sm_registers.specs.Effects as spec;
ghost use Rattle.sm_registers.specs.Ends.{effect_by};
ghost use Rattle.sm_registers.specs.Intents.{no_intent};

use crate::end::End;
use crate::intent::Intent;
use crate::jump::is_up;
use crate::registers::Registers;
use crate::view::View;
use irq_flags::resolve;
use pin_matrix::MachineSetup;
use pio_encode::WaitSource;

/// Stalls until the source has the polarity; `wait 1 irq` then lowers its flag.
#[inline(always)]
#[tactic(auto, unfolding(crate::specs::Effects::wait_effect))]
pub(crate) fn wait_effect(
    polarity: bool,
    source: WaitSource,
    index: u8,
    setup: &MachineSetup,
    view: &View,
    registers: &Registers,
    intent: &mut Intent,
) -> End
    requires index { index < 32 }
    requires fresh { intent.old ≡ no_intent }
    ensures { effect_by registers.now intent.new result
        ≡ spec.wait_effect polarity source index setup.now view.now registers.now }
{
    if waited_bit(source, index, setup, view) == polarity {
        intent.clears = waited_flag(polarity, source, index, setup);
        End::GoesOn
    } else {
        End::Stalls
    }
}

/// What it looks at; a pin is counted from the input base.
#[inline(always)]
pub(crate) fn waited_bit(source: WaitSource, index: u8, setup: &MachineSetup, view: &View) -> bool
    requires { index < 32 }
    ensures { result ≡ spec.waited_bit source index setup.now view.now }
{
    match source {
        WaitSource::Gpio => is_up(view.seen(), index),
        WaitSource::Pin => is_up(view.seen(), (setup.in_base + index) % 32),
        WaitSource::Irq => is_up(u32::from(view.flags()), resolve(index, setup.id)),
    }
}

/// The flag that it lowers as it finishes, if any.
fn waited_flag(polarity: bool, source: WaitSource, index: u8, setup: &MachineSetup) -> u8
    requires { index < 32 }
    ensures { result ≡ spec.waited_flag polarity source index setup.now }
{
    match source {
        WaitSource::Irq if polarity => flag_bit(index, setup),
        _ => 0,
    }
}

/// Raises or lowers a flag. One that is raised with Wait stalls in that tick, and until the flag is down.
#[inline(always)]
#[tactic(auto, unfolding(crate::specs::Effects::irq_effect))]
pub(crate) fn irq_effect(
    clear: bool,
    waits: bool,
    index: u8,
    setup: &MachineSetup,
    view: &View,
    registers: &Registers,
    intent: &mut Intent,
) -> End
    requires index { index < 32 }
    requires fresh { intent.old ≡ no_intent }
    ensures { effect_by registers.now intent.new result
        ≡ spec.irq_effect clear waits index setup.now view.now registers.now }
{
    let flag = flag_bit(index, setup);
    if clear {
        intent.clears = flag;
        End::GoesOn
    } else if !waits {
        intent.sets = flag;
        End::GoesOn
    } else if !registers.begun {
        intent.sets = flag;
        End::Stalls
    } else if is_up(u32::from(view.flags()), resolve(index, setup.id)) {
        End::Stalls
    } else {
        End::GoesOn
    }
}

/// The flag that an index means on this machine, as a bit of the flags.
fn flag_bit(index: u8, setup: &MachineSetup) -> u8
    requires { index < 32 }
    ensures { result ≡ 2 ^ flag_of index setup.now.id }
{
    1 << resolve(index, setup.id)
}
