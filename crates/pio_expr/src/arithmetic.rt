//! The operations of expressions, on signed numbers of 32 bits.
ghost use Rattle.std.specs.Prelude.{◌≡◌};
ghost use Rattle.pio_expr.specs.Arithmetic.{sum_of, difference_of, product_of, quotient_of, negated, reversed};

use crate::ValueKind;
use shift_engine::reverse_bits_signed;

/// The sum; `Overflow` where it is no signed number of 32 bits.
pub fn add(left: i32, right: i32) -> Result<i32, ValueKind>
    ensures { result ≡ sum_of left right }
{
    left.checked_add(right).ok_or(ValueKind::Overflow)
}

/// The difference, `left - right`; `Overflow` where it is no signed number of 32 bits.
pub fn subtract(left: i32, right: i32) -> Result<i32, ValueKind>
    ensures { result ≡ difference_of left right }
{
    left.checked_sub(right).ok_or(ValueKind::Overflow)
}

/// The product; `Overflow` where it is no signed number of 32 bits.
pub fn multiply(left: i32, right: i32) -> Result<i32, ValueKind>
    ensures { result ≡ product_of left right }
{
    left.checked_mul(right).ok_or(ValueKind::Overflow)
}

/// The quotient, cut off toward zero; `DivZero` where `right` is 0, `Overflow` at -2147483648 / -1 alone.
pub fn divide(left: i32, right: i32) -> Result<i32, ValueKind>
    ensures { result ≡ quotient_of left right }
{
    if right == 0 {
        return Err(ValueKind::DivZero);
    }
    left.checked_div(right).ok_or(ValueKind::Overflow)
}

/// The number with the other sign; `Overflow` at -2147483648 alone.
pub fn negate(number: i32) -> Result<i32, ValueKind>
    ensures { result ≡ negated number }
{
    number.checked_neg().ok_or(ValueKind::Overflow)
}

/// The 32 bits in the opposite order. Nothing is refused.
pub fn reverse(number: i32) -> i32
    ensures { result ≡ reversed number }
{
    reverse_bits_signed(number)
}
