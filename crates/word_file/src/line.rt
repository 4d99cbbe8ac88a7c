//! One line of a file of words: four hexadecimal digits with blanks around them, or blanks alone.
ghost use Rattle.std.specs.Prelude.{◌≡◌};
ghost use Rattle.std.specs.List.{list_all};
ghost use Rattle.byte_lines.specs.Bytes.{is_blank};
ghost use Rattle.word_file.specs.Line as spec;

use byte_lines::{digit_of, is_blank};

/// What a line says.
#[derive(Clone, Copy)]
pub enum WordLine {
    /// Nothing.
    Blank,
    /// A word.
    Word(u16),
    /// Neither.
    Bad,
}

/// What a line says.
pub fn read_line(line: &[u8]) -> WordLine
    ensures { result ≡ spec.line_says line.now }
{
    said(after_blanks(line))
}

/// A line from its first byte on that is no blank.
fn after_blanks(line: &[u8]) -> &[u8]
    ensures { result.now ≡ spec.after_blanks line.now }
{
    let mut rest = line;
    while let [first, after @ ..] = rest {
        if !is_blank(*first) {
            return rest;
        }
        rest = after;
    }
    rest
}

/// What a line says that begins with no blank.
fn said(line: &[u8]) -> WordLine
    ensures { result ≡ spec.said line.now }
{
    match line {
        [] => WordLine::Blank,
        [a, b, c, d, rest @ ..] if are_blank(rest) => match word_of(*a, *b, *c, *d) {
            Some(word) => WordLine::Word(word),
            None => WordLine::Bad,
        },
        _ => WordLine::Bad,
    }
}

fn are_blank(bytes: &[u8]) -> bool
    ensures { result ≡ list_all is_blank bytes.now }
{
    bytes.iter().all(|b| is_blank(*b))
}

/// The word of four hexadecimal digits, the highest first.
fn word_of(a: u8, b: u8, c: u8, d: u8) -> Option<u16>
    ensures { result ≡ spec.word_of a b c d }
{
    let high = digit_of(16, a)?;
    let second = digit_of(16, b)?;
    let third = digit_of(16, c)?;
    let low = digit_of(16, d)?;
    Some((4096 * high + 256 * second + 16 * third + low) as u16)
}
