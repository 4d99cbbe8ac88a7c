//! What kinds of bytes a source has; all but blanks and newlines are ASCII.
ghost use Rattle.std.specs.Prelude.{◌≡◌, ◌≤◌, length, map};
ghost use Rattle.std.specs.List.{prefix_len, count_by};
ghost use Rattle.std.specs.Str.{bytes_eq};
ghost use Rattle.std.specs.Char.{to_ascii_lowercase};
ghost use Rattle.byte_lines.specs.Bytes as byte;
ghost use Rattle.pio_lex.specs.Bytes as spec;

use byte_lines::is_blank;

/// A letter or `_`.
pub fn is_letter(byte: u8) -> bool
    ensures { result ≡ spec.is_letter byte }
{
    byte.is_ascii_alphabetic() || byte == b'_'
}

/// A letter, a digit or `_`.
fn is_name_byte(byte: u8) -> bool
    ensures { result ≡ spec.is_name_byte byte }
{
    is_letter(byte) || byte.is_ascii_digit()
}

/// A byte of the language's name at a foreign block.
fn is_block_byte(byte: u8) -> bool
    ensures { result ≡ spec.is_block_byte byte }
{
    is_name_byte(byte) || byte == b'-'
}

/// How many blanks the text begins with.
pub fn blanks(text: &[u8]) -> usize
    ensures value { result ≡ prefix_len byte.is_blank text.now }
    ensures within { result ≤ length text.now }
{
    text.iter()
        .position(|b| !is_blank(*b))
        .unwrap_or(text.len())
}

/// How many letters, digits and `_` the text begins with.
pub fn name_length(text: &[u8]) -> usize
    ensures value { result ≡ prefix_len spec.is_name_byte text.now }
    ensures within { result ≤ length text.now }
{
    text.iter()
        .position(|b| !is_name_byte(*b))
        .unwrap_or(text.len())
}

/// How many bytes of a block's name the text begins with.
pub fn block_name_length(text: &[u8]) -> usize
    ensures value { result ≡ prefix_len spec.is_block_byte text.now }
    ensures within { result ≤ length text.now }
{
    text.iter()
        .position(|b| !is_block_byte(*b))
        .unwrap_or(text.len())
}

/// How long the text's first line is, without its newline.
pub fn line_length(text: &[u8]) -> usize
    ensures value { result ≡ spec.line_length text.now }
    ensures within { result ≤ length text.now }
{
    text.iter().position(|b| *b == b'\n').unwrap_or(text.len())
}

/// How many newlines the text has.
pub fn newlines(text: &[u8]) -> usize
    ensures value { result ≡ count_by spec.is_newline text.now }
    ensures within { result ≤ length text.now }
{
    let mut count = 0;
    for byte in text {
        if *byte == b'\n' {
            count += 1;
        }
    }
    count
}

/// Whether the texts differ in the case of letters alone.
pub fn is_same_but_case(a: &str, b: &[u8]) -> bool
    ensures { result ≡ bytes_eq (map to_ascii_lowercase a.now) (map to_ascii_lowercase b.now) }
{
    a.as_bytes().eq_ignore_ascii_case(b)
}
