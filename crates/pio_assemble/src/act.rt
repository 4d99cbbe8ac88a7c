//! What an instruction does: its numbers are worked out from left to right.
ghost use Rattle.std.specs.Prelude.{◌≡◌, ◌<◌, ◌≤◌, IfOk};
ghost use Rattle.pio_encode.specs.Ranges.{IsInRange, IsInstruction};
ghost use Rattle.pio_assemble.specs.Answers.{Answers};
ghost use Rattle.pio_assemble.specs.Operands as spec;

use crate::operands::byte_in;
use crate::{LineFault, Quantity};
use pio_encode::{Act, MovDestination, MovOperation, MovSource, WaitSource};
use pio_expr::{Expr, Scope};
use pio_statement::{Form, IrqMode};

/// What an instruction does, without its side-set and its delay.
#[tactic(auto, unfolding(crate::specs::Operands::act_of))]
pub fn act(scope: &mut Scope, form: &Form) -> Result<Act, LineFault>
    ensures value { Answers (λ a. a) result (spec.act_of scope.old form.now) }
    ensures same { scope.new ≡ scope.old }
    ensures instruction { IfOk result IsInstruction }
    ensures operands { IfOk result IsInRange }
{
    match form {
        Form::Nop => Ok(NOP),
        Form::Jmp { condition, target } => Ok(Act::Jmp {
            condition: *condition,
            address: byte_in(scope, Quantity::Jmp, 0, 31, target)?,
        }),
        Form::Wait {
            polarity,
            source,
            index,
            relative,
        } => wait(scope, polarity, *source, index, *relative),
        Form::In { source, count } => Ok(Act::In {
            source: *source,
            count: byte_in(scope, Quantity::Count, 1, 32, count)?,
        }),
        Form::Out { destination, count } => Ok(Act::Out {
            destination: *destination,
            count: byte_in(scope, Quantity::Count, 1, 32, count)?,
        }),
        Form::Push { if_full, block } => Ok(Act::Push {
            if_full: *if_full,
            block: *block,
        }),
        Form::Pull { if_empty, block } => Ok(Act::Pull {
            if_empty: *if_empty,
            block: *block,
        }),
        Form::Mov {
            destination,
            operation,
            source,
        } => Ok(Act::Mov {
            destination: *destination,
            operation: *operation,
            source: *source,
        }),
        Form::Irq {
            mode,
            index,
            relative,
        } => {
            let flag = byte_in(scope, Quantity::Index, 0, 7, index)?;
            Ok(irq(*mode, with_rel(*relative, flag)))
        }
        Form::Set { destination, value } => Ok(Act::Set {
            destination: *destination,
            value: byte_in(scope, Quantity::Data, 0, 31, value)?,
        }),
    }
}

/// `nop` is `mov y, y`.
const NOP: Act = Act::Mov {
    destination: MovDestination::Y,
    operation: MovOperation::Plain,
    source: MovSource::Y,
};

#[tactic(auto, unfolding(crate::specs::Operands::act_of))]
fn wait(
    scope: &mut Scope,
    polarity: &Expr,
    source: WaitSource,
    index: &Expr,
    relative: bool,
) -> Result<Act, LineFault>
    ensures value { Answers (λ a. a) result
        (spec.wait_of scope.old polarity.now source index.now relative) }
    ensures same { scope.new ≡ scope.old }
    ensures instruction { IfOk result IsInstruction }
    ensures operands { IfOk result IsInRange }
{
    let level = byte_in(scope, Quantity::Polarity, 0, 1, polarity)?;
    let place = byte_in(scope, Quantity::Index, 0, most_index(source), index)?;
    Ok(Act::Wait {
        polarity: level == 1,
        source,
        index: wait_index(source, relative, place),
    })
}

/// The index of a WAIT: `rel` is a flag's alone.
fn wait_index(source: WaitSource, relative: bool, index: u8) -> u8
    requires { index ≤ spec.most_index source }
    ensures value { result ≡ spec.wait_index source relative index }
    ensures range { result < 32 }
{
    match source {
        WaitSource::Irq => with_rel(relative, index),
        _ => index,
    }
}

/// A pin's index has five bits, a flag's three.
fn most_index(source: WaitSource) -> u8
    ensures { result ≡ spec.most_index source }
{
    match source {
        WaitSource::Irq => 7,
        _ => 31,
    }
}

/// An index with `rel`, which is bit 4.
fn with_rel(relative: bool, index: u8) -> u8
    requires { index < 16 }
    ensures value { result ≡ spec.with_rel relative index }
    ensures range { result < 32 }
{
    if relative { index + 16 } else { index }
}

/// Raises the flag, and perhaps waits, or lowers it.
fn irq(mode: IrqMode, index: u8) -> Act
    ensures { result ≡ spec.irq_of mode index }
{
    match mode {
        IrqMode::Raise => Act::Irq {
            clear: false,
            wait: false,
            index,
        },
        IrqMode::RaiseAndWait => Act::Irq {
            clear: false,
            wait: true,
            index,
        },
        IrqMode::Lower => Act::Irq {
            clear: true,
            wait: false,
            index,
        },
    }
}
