//! The first line of a text, and what comes after it.
ghost use Rattle.std.specs.Prelude.{◌≡◌, ◌∷◌, ◌<◌, IfSome, length, option_copied};
ghost use Rattle.byte_lines.specs.Lines.{lines_of, lines_left};

/// The first line of a text without its newline, and what comes after the newline, where there is one.
///
/// A text that ends with a newline has an empty line after it.
pub fn first_line(text: &[u8]) -> (&[u8], Option<&[u8]>)
    ensures line { lines_of text.now ≡ result.0.now ∷ lines_left (option_copied result.1) }
    ensures shorter { IfSome result.1 (λ rest. length rest.now < length text.now) }
{
    for (at, byte) in text.iter().enumerate() {
        if *byte == b'\n' {
            return (&text[..at], Some(&text[at + 1..]));
        }
    }
    (text, None)
}
