//! Numbers of a stimulus: decimal digits, or `0x` and hexadecimal digits of either case, as many as there are
//! (choice of this profile).
ghost use Rattle.std.specs.Prelude.{◌≡◌, ◌≤◌, IfSome, is_some, length, option_map};
ghost use Rattle.byte_lines.specs.Bytes.{digit_of};
ghost use Rattle.dreq_pacing.specs.Number as spec;

use byte_lines::digit_of;

/// Past every range: a number from here on counts as this.
const PAST: u64 = 1_000_000_000_001;

/// So many decimal digits make a number that fits in 64 bits.
const MOST_DIGITS: usize = 18;

/// Whether a field is a number.
#[tactic(auto, using(crate::proofs::Numbers::is_some_map))]
pub fn is_number(field: &[u8]) -> bool
    ensures { result ≡ spec.is_number field.now }
{
    number_of(field).is_some()
}

/// The number of a field, where it is one from `low` to `high`, at most 10^12.
#[tactic(auto, using(crate::proofs::Numbers::within_capped))]
pub fn in_range(field: &[u8], low: u64, high: u64) -> Option<u64>
    requires { high ≤ 1000000000000 }
    ensures value { result ≡ spec.in_range low high field.now }
    ensures range { IfSome result (λ n. (low ≤ n) × (n ≤ high)) }
{
    within(number_of(field), low, high)
}

/// The number, where it is one from `low` to `high`.
pub fn within(number: Option<u64>, low: u64, high: u64) -> Option<u64>
    ensures value { result ≡ spec.within low high number }
    ensures range { IfSome result (λ n. (low ≤ n) × (n ≤ high)) }
{
    match number {
        Some(number) if low <= number && number <= high => Some(number),
        _ => None,
    }
}

/// The number of a field, or `PAST` where it is more.
pub fn number_of(field: &[u8]) -> Option<u64>
    ensures { result ≡ option_map spec.capped (spec.number_of field.now) }
{
    match field {
        [first, second, digits @ ..] => {
            if *first == b'0' && *second == b'x' {
                hexadecimal(digits)
            } else {
                decimal(field)
            }
        }
        _ => decimal(field),
    }
}

/// The number of some hexadecimal digits, at least one, or `PAST` where it is more.
fn hexadecimal(digits: &[u8]) -> Option<u64>
    ensures { result ≡ option_map spec.capped (spec.number_in 16 digits.now) }
{
    match digits {
        [] => None,
        [_, ..] => value_of(16, digits),
    }
}

/// The number of some decimal digits, at least one, or `PAST` where it is more.
fn decimal(digits: &[u8]) -> Option<u64>
    ensures { result ≡ option_map spec.capped (spec.number_in 10 digits.now) }
{
    match digits {
        [] => None,
        [_, ..] => {
            if digits.len() <= MOST_DIGITS {
                Some(short_decimal(digits)?.min(PAST))
            } else {
                value_of(10, digits)
            }
        }
    }
}

/// The number of decimal digits that are few enough for it to be cut off only at the end.
fn short_decimal(digits: &[u8]) -> Option<u64>
    requires { length digits.now ≤ 18 }
    ensures { result ≡ spec.number_from 10 0 digits.now }
{
    let mut number = 0;
    for byte in digits {
        number = number * 10 + decimal_digit(*byte)?;
    }
    Some(number)
}

/// The value of a decimal digit.
fn decimal_digit(byte: u8) -> Option<u64>
    ensures value { result ≡ digit_of 10 byte }
    ensures range { IfSome result (λ d. d ≤ 9) }
{
    if b'0' <= byte && byte <= b'9' {
        Some(u64::from(byte - b'0'))
    } else {
        None
    }
}

/// The number that digits make, or `PAST` where it is more.
fn value_of(base: u64, digits: &[u8]) -> Option<u64>
    requires { (1 ≤ base) × (base ≤ 16) }
    ensures { result ≡ option_map spec.capped (spec.number_from base 0 digits.now) }
{
    let mut value = 0;
    for byte in digits {
        value = (value * base + digit_of(base, *byte)?).min(PAST);
    }
    Some(value)
}
