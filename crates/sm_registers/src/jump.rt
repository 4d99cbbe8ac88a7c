//! JMP (RP2040 Datasheet, section 3.4.2).
ghost use Rattle.std.specs.Prelude.{◌≡◌, ◌<◌, Some, None, if◌then◌else◌};
ghost use Rattle.pin_matrix.specs.declared.machine.MachineSetup as spec_setup;
ghost use Rattle.pio_encode.specs.declared.act.Condition.TheVariants as condition;
ghost use Rattle.sm_registers.specs.Effects as spec;
ghost use Rattle.sm_registers.specs.Ends.{effect_by};
ghost use Rattle.sm_registers.specs.Intents.{no_intent};
ghost use Rattle.sm_registers.specs.declared.registers.Registers as spec_registers;
ghost use Rattle.sm_registers.specs.View as spec_view;

use crate::end::End;
use crate::registers::Registers;
use crate::view::View;
use pin_matrix::MachineSetup;
use pio_encode::Condition;

/// Goes to the address where the condition holds, by X and Y before the count. X or Y counts down in any case.
#[inline(always)]
#[tactic(auto, unfolding(crate::specs::Effects::jmp_effect))]
pub(crate) fn jmp_effect(
    condition: Condition,
    address: u8,
    setup: &MachineSetup,
    view: &View,
    registers: &mut Registers,
) -> End
    ensures { effect_by registers.new no_intent result
        ≡ spec.jmp_effect condition address setup.now view.now registers.old }
{
    match condition {
        Condition::Always => End::Jumps(address),
        Condition::XZero => jump_where(registers.x == 0, address),
        Condition::XDecrement => count_x(address, registers),
        Condition::YZero => jump_where(registers.y == 0, address),
        Condition::YDecrement => count_y(address, registers),
        Condition::XNotY => jump_where(registers.x != registers.y, address),
        Condition::Pin => jump_where(is_up(view.seen(), setup.jmp_pin), address),
        Condition::OsrNotEmpty => jump_where(registers.out_count < setup.pull_threshold, address),
    }
}

/// JMP `x--`.
#[inline(always)]
#[tactic(auto, unfolding(crate::specs::Effects::jmp_effect))]
pub(crate) fn count_x(address: u8, registers: &mut Registers) -> End
    ensures { (s : spec_setup.MachineSetup) (v : spec_view.View) → effect_by registers.new no_intent result
        ≡ spec.jmp_effect condition.XDecrement address s v registers.old }
{
    let is_taken = registers.x != 0;
    registers.x = registers.x.wrapping_sub(1);
    jump_where(is_taken, address)
}

/// JMP `y--`.
#[inline(always)]
#[tactic(auto, unfolding(crate::specs::Effects::jmp_effect))]
pub(crate) fn count_y(address: u8, registers: &mut Registers) -> End
    ensures { (s : spec_setup.MachineSetup) (v : spec_view.View) → effect_by registers.new no_intent result
        ≡ spec.jmp_effect condition.YDecrement address s v registers.old }
{
    let is_taken = registers.y != 0;
    registers.y = registers.y.wrapping_sub(1);
    jump_where(is_taken, address)
}

/// How a JMP ends, by whether it is taken.
#[inline(always)]
fn jump_where(is_taken: bool, address: u8) -> End
    ensures { (r : spec_registers.Registers) → effect_by r no_intent result
        ≡ record (spec.finished r) { jump = if is_taken then Some address else None } }
{
    if is_taken {
        End::Jumps(address)
    } else {
        End::GoesOn
    }
}

/// Whether a bit (0 to 31) of a word is 1.
pub(crate) fn is_up(word: u32, bit: u8) -> bool
    requires { bit < 32 }
    ensures { result ≡ spec.is_up word bit }
{
    (word >> bit) % 2 == 1
}
