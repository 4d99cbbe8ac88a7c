//! Blanks and digits, byte by byte.
ghost use Rattle.std.specs.Prelude.{◌≡◌, ◌≤◌, ◌<◌, IfSome};
ghost use Rattle.byte_lines.specs.Bytes as spec;

/// Space, tab or carriage return, which parts words and ends no line.
pub fn is_blank(byte: u8) -> bool
    ensures { result ≡ spec.is_blank byte }
{
    byte == b' ' || byte == b'\t' || byte == b'\r'
}

/// The value of a digit of either case, where it is one to the base, which is at most 16.
pub fn digit_of(base: u64, byte: u8) -> Option<u64>
    requires { base ≤ 16 }
    ensures value { result ≡ spec.digit_of base byte }
    ensures range { IfSome result (λ d. d < 16) }
{
    match byte {
        b'0'..=b'9' => below(base, u64::from(byte - b'0')),
        b'a'..=b'f' => below(base, u64::from(byte - b'a') + 10),
        b'A'..=b'F' => below(base, u64::from(byte - b'A') + 10),
        _ => None,
    }
}

/// The digit, where it is one to the base.
fn below(base: u64, digit: u64) -> Option<u64>
    requires { base ≤ 16 }
    ensures value { result ≡ spec.below base digit }
    ensures range { IfSome result (λ d. d < 16) }
{
    if digit < base { Some(digit) } else { None }
}
