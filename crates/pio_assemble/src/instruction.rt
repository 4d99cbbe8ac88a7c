//! The word of code: an instruction with its side-set and its delay, or a number.
ghost use Rattle.std.specs.Prelude.{◌≡◌, ◌-◌, ◌^◌, ◌<◌, ◌≤◌, IfOk};
ghost use Rattle.pio_encode.specs.Ranges.{OpFits, SideFits, delay_bits};
ghost use Rattle.pio_assemble.specs.Answers.{Answers};
ghost use Rattle.pio_assemble.specs.Operands as spec;

use crate::act::act;
use crate::operands::{byte_in, number_in};
use crate::{LineFault, Quantity};
use pio_encode::{Op, SideRule, encode};
use pio_expr::{Expr, Scope};
use pio_statement::{Code, Instruction, Suffix};

/// A side-set value, where one is said, and a delay.
#[derive(Clone, Copy)]
pub struct Extras {
    pub side: Option<u8>,
    pub delay: u8,
}

/// The word of code under its program's rule.
pub fn word(scope: &mut Scope, rule: &SideRule, code: &Code) -> Result<u16, LineFault>
    ensures value { Answers (λ w. w) result (spec.word_of_code scope.old rule.now code.now) }
    ensures same { scope.new ≡ scope.old }
{
    match code {
        Code::Word(value) => number_in(scope, Quantity::Word, 0, 65535, value),
        Code::Instruction(instruction) => instruction_word(scope, rule, instruction),
    }
}

#[tactic(auto, unfolding(crate::specs::Operands::word_of_instruction))]
fn instruction_word(
    scope: &mut Scope,
    rule: &SideRule,
    instruction: &Instruction,
) -> Result<u16, LineFault>
    ensures value { Answers (λ w. w) result
        (spec.word_of_instruction scope.old rule.now instruction.now) }
    ensures same { scope.new ≡ scope.old }
{
    let act = act(scope, &instruction.form)?;
    let extras = suffix_extras(scope, rule, &instruction.suffix)?;
    let op = Op {
        side: side_kept(rule, extras.side),
        delay: extras.delay,
        act,
    };
    Ok(encode(&op, rule))
}

/// The side-set value and the delay, worked out in the order of the text.
#[tactic(auto, unfolding(crate::specs::Operands::suffix_of))]
fn suffix_extras(scope: &mut Scope, rule: &SideRule, suffix: &Suffix) -> Result<Extras, LineFault>
    ensures value { Answers (λ e. e) result (spec.suffix_of scope.old rule.now suffix.now) }
    ensures same { scope.new ≡ scope.old }
    ensures side { IfOk result (λ e. spec.SideIsWithin rule.now e.side) }
    ensures delay { IfOk result (λ e. e.delay < 2 ^ delay_bits rule.now) }
{
    match suffix {
        Suffix::None => Ok(Extras {
            side: None,
            delay: 0,
        }),
        Suffix::Side(side) => {
            let side = side_in(scope, rule, side)?;
            Ok(Extras {
                side: Some(side),
                delay: 0,
            })
        }
        Suffix::Delay(delay) => {
            let delay = delay_in(scope, rule, delay)?;
            Ok(Extras { side: None, delay })
        }
        Suffix::SideDelay { side, delay } => {
            let side = side_in(scope, rule, side)?;
            let delay = delay_in(scope, rule, delay)?;
            Ok(Extras {
                side: Some(side),
                delay,
            })
        }
        Suffix::DelaySide { delay, side } => {
            let delay = delay_in(scope, rule, delay)?;
            let side = side_in(scope, rule, side)?;
            Ok(Extras {
                side: Some(side),
                delay,
            })
        }
    }
}

/// A side-set value, which has the rule's bits.
fn side_in(scope: &mut Scope, rule: &SideRule, side: &Expr) -> Result<u8, LineFault>
    ensures value { Answers (λ n. n) result (spec.side_in scope.old rule.now side.now) }
    ensures same { scope.new ≡ scope.old }
    ensures within { IfOk result (λ n. n < 2 ^ rule.now.bits) }
{
    byte_in(scope, Quantity::Side, 0, most(rule.bits), side)
}

/// A delay, which has the bits that the rule leaves of five.
fn delay_in(scope: &mut Scope, rule: &SideRule, delay: &Expr) -> Result<u8, LineFault>
    ensures value { Answers (λ n. n) result (spec.delay_in scope.old rule.now delay.now) }
    ensures same { scope.new ≡ scope.old }
    ensures within { IfOk result (λ n. n < 2 ^ delay_bits rule.now) }
{
    let bits = 5 - (rule.bits + u8::from(rule.opt));
    byte_in(scope, Quantity::Delay, 0, most(bits), delay)
}

/// The greatest number of so many bits.
fn most(bits: u8) -> u8
    requires { bits ≤ 5 }
    ensures value { result ≡ 2 ^ bits - 1 }
    ensures below { result < 2 ^ bits }
{
    (1 << bits) - 1
}

/// The side-set value as the rule has room for it.
fn side_kept(rule: &SideRule, side: Option<u8>) -> Option<u8>
    requires { spec.SideIsWithin rule.now side }
    ensures value { result ≡ spec.side_kept rule.now side }
    ensures fits { SideFits rule.now result }
{
    if rule.opt {
        side
    } else if rule.bits == 0 {
        None
    } else {
        Some(side.unwrap_or(0))
    }
}
