//! Numbers: decimal, or hexadecimal after `0x`, or binary after `0b`.
ghost use Rattle.std.specs.Prelude.{◌≡◌, ◌≤◌, ◌+◌, ◌*◌, IsTrue, length};
ghost use Rattle.pio_lex.specs.Numbers as spec;

/// The greatest number that a source may write.
const MOST: u32 = 0x7fff_ffff;

/// The number that letters, digits and `_` write, if they are of one of the forms and it is not too large.
#[tactic(auto, unfolding(crate::specs::Numbers::word_number))]
pub fn number(word: &[u8]) -> Option<u32>
    ensures { result ≡ spec.word_number word.now }
{
    if is_hexadecimal(word) {
        return numeral(&word[2..], 16);
    }
    if is_binary(word) {
        return numeral(&word[2..], 2);
    }
    numeral(word, 10)
}

fn is_hexadecimal(word: &[u8]) -> bool
    ensures value { result ≡ spec.is_hexadecimal word.now }
    ensures long { IsTrue result → 2 ≤ length word.now }
{
    word.starts_with(b"0x") || word.starts_with(b"0X")
}

fn is_binary(word: &[u8]) -> bool
    ensures value { result ≡ spec.is_binary word.now }
    ensures long { IsTrue result → 2 ≤ length word.now }
{
    word.starts_with(b"0b") || word.starts_with(b"0B")
}

/// The number that digits of the radix write, of any length.
fn numeral(digits: &[u8], radix: u32) -> Option<u32>
    requires low { 2 ≤ radix }
    requires high { radix ≤ 16 }
    ensures { result ≡ spec.numeral radix digits.now }
{
    if digits.is_empty() {
        return None;
    }
    let mut value = 0u32;
    for byte in digits {
        let digit = char::from(*byte).to_digit(radix)?;
        value = extended(value, radix, digit)?;
    }
    Some(value)
}

/// The value with one digit more after it, if it is not too large.
fn extended(value: u32, radix: u32, digit: u32) -> Option<u32>
    requires value { value ≤ 0x7fff_ffff }
    requires radix { radix ≤ 16 }
    requires digit { digit ≤ 16 }
    ensures { result ≡ spec.within (value * radix + digit) }
{
    let value = u64::from(value) * u64::from(radix) + u64::from(digit);
    if value > u64::from(MOST) {
        return None;
    }
    Some(value as u32)
}
