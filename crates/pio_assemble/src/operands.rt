//! The numbers of statements: the values of expressions, each in its range.
ghost use Rattle.std.specs.Prelude.{◌≡◌, ◌≤◌, IfOk, None};
ghost use Rattle.pio_expr.specs.Values.{value_of};
ghost use Rattle.pio_assemble.specs.Answers.{Answers};
ghost use Rattle.pio_assemble.specs.Operands as spec;

use crate::{LineFault, Quantity, SourceKind};
use pio_expr::{Expr, Scope};

/// The value of an expression, if it is in the range, which goes up to `high`.
pub fn number_in(
    scope: &mut Scope,
    what: Quantity,
    low: u16,
    high: u16,
    expr: &Expr,
) -> Result<u16, LineFault>
    ensures value { Answers (λ n. n) result (spec.number_in scope.old what low high expr.now) }
    ensures within { IfOk result (λ n. (low ≤ n) × (n ≤ high)) }
    ensures same { scope.new ≡ scope.old }
{
    let value = value(scope, expr)?;
    in_range(what, low, high, value)
}

/// The same in a range of bytes.
pub fn byte_in(
    scope: &mut Scope,
    what: Quantity,
    low: u8,
    high: u8,
    expr: &Expr,
) -> Result<u8, LineFault>
    ensures value { Answers (λ n. n) result (spec.number_in scope.old what low high expr.now) }
    ensures within { IfOk result (λ n. (low ≤ n) × (n ≤ high)) }
    ensures same { scope.new ≡ scope.old }
{
    let number = number_in(scope, what, u16::from(low), u16::from(high), expr)?;
    Ok(number as u8)
}

/// The value of an expression that no define has.
fn value(scope: &mut Scope, expr: &Expr) -> Result<i32, LineFault>
    ensures value { Answers (λ n. n) result (spec.valued (value_of scope.old None expr.now)) }
    ensures same { scope.new ≡ scope.old }
{
    Ok(scope.value(expr, None)?)
}

fn in_range(what: Quantity, low: u16, high: u16, value: i32) -> Result<u16, LineFault>
    ensures value { Answers (λ n. n) result (spec.in_range what low high value) }
    ensures within { IfOk result (λ n. (low ≤ n) × (n ≤ high)) }
{
    if value < i32::from(low) || i32::from(high) < value {
        return Err(LineFault::Found(SourceKind::Range { what, value }));
    }
    Ok(value as u16)
}
