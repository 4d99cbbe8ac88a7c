//! Numbers in the text of a word: decimal, and a hexadecimal digit.
ghost use Rattle.std.specs.Prelude.{◌≡◌, ◌+◌, ◌<◌, ◌≤◌, [], ◌∷◌, ◌++◌, decimal, false};
ghost use Rattle.std.specs.Fmt.{digit_glyph};
ghost use Rattle.arrayvec.specs.ArrayString.{array_string_len};

use arrayvec::ArrayString;

/// Appends a number below 100.
#[tactic(auto, using(crate::proofs::TwoDigits::one_digit))]
pub(crate) fn push_number(text: &mut ArrayString<48>, number: u8)
    requires size { number < 100 }
    requires room { array_string_len text.old + 2 ≤ 48 }
    ensures bytes { text.new.bytes ≡ text.old.bytes ++ decimal number }
    ensures len { array_string_len text.new ≤ array_string_len text.old + 2 }
{
    if number < 10 {
        push_digit(text, number);
    } else {
        push_digit(text, number / 10);
        push_digit(text, number % 10);
    }
}

/// Appends a digit, of a decimal or a hexadecimal number.
pub(crate) fn push_digit(text: &mut ArrayString<48>, digit: u8)
    requires size { digit < 16 }
    requires room { array_string_len text.old + 1 ≤ 48 }
    ensures bytes { text.new.bytes ≡ text.old.bytes ++ digit_glyph false digit ∷ [] }
    ensures len { array_string_len text.new ≡ array_string_len text.old + 1 }
{
    let glyph = if digit < 10 {
        b'0' + digit
    } else {
        b'a' - 10 + digit
    };
    text.push(char::from(glyph));
}
