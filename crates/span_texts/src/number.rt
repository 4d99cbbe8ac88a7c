//! Numbers of a table file: decimal digits without a leading zero, as many as there are.
ghost use Rattle.std.specs.Prelude.{◌≡◌, option_map};
ghost use Rattle.span_texts.specs.Numbers as spec;

use byte_lines::digit_of;

/// Past every range: a number from here on counts as this.
const PAST: u64 = 16_777_217;

/// The number of a field, or `PAST` where it is more.
pub(crate) fn number_in(field: &[u8]) -> Option<u32>
    ensures { result ≡ option_map spec.capped (spec.number_in field.now) }
{
    match field {
        [] => None,
        [first, _, ..] if *first == b'0' => None,
        _ => value_of(field),
    }
}

/// The number that digits make, or `PAST` where it is more.
fn value_of(digits: &[u8]) -> Option<u32>
    ensures { result ≡ option_map spec.capped (spec.number_from 0 digits.now) }
{
    let mut value = 0;
    for byte in digits {
        value = (value * 10 + digit_of(10, *byte)?).min(PAST);
    }
    Some(value as u32)
}
