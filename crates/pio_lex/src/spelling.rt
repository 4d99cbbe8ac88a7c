//! How tokens are spelled, each as long as it can be.
ghost use Rattle.std.specs.Prelude.{◌≡◌, ◌<◌, length};
ghost use Rattle.pio_lex.specs.Spellings as spec;

use crate::bytes::{is_letter, name_length};
use crate::number::number;
use crate::{Directive, Keyword, LexKind, TokenKind};

/// The token that the text begins with, and its length.
#[tactic(auto, unfolding(crate::specs::Spellings::token_at))]
pub fn token(text: &[u8]) -> Result<(TokenKind, usize), LexKind>
    requires { 0 < length text.now }
    ensures { result ≡ spec.token_at text.now }
{
    let byte = text[0];
    if byte == b'\n' {
        return Ok((TokenKind::Newline, 1));
    }
    if is_letter(byte) {
        return Ok(name(text));
    }
    if byte == b'.' {
        return directive(text);
    }
    if byte.is_ascii_digit() {
        return literal(text);
    }
    mark(text).ok_or(LexKind::BadByte)
}

/// A symbol or a keyword.
fn name(text: &[u8]) -> (TokenKind, usize)
    ensures { result ≡ spec.name_at text.now }
{
    let length = name_length(text);
    let kind = match Keyword::of(&text[..length]) {
        Some(keyword) => TokenKind::Keyword(keyword),
        None => TokenKind::Name,
    };
    (kind, length)
}

#[tactic(auto, unfolding(crate::specs::Spellings::directive_at))]
fn directive(text: &[u8]) -> Result<(TokenKind, usize), LexKind>
    requires { 0 < length text.now }
    ensures { result ≡ spec.directive_at text.now }
{
    let name = &text[1..];
    if !begins_name(name) {
        return Err(LexKind::BadByte);
    }
    let length = name_length(name);
    let directive = Directive::of(&name[..length]);
    Ok((TokenKind::Directive(directive), 1 + length))
}

fn begins_name(text: &[u8]) -> bool
    ensures { result ≡ spec.begins_name text.now }
{
    match text {
        [] => false,
        [first, ..] => is_letter(*first),
    }
}

fn literal(text: &[u8]) -> Result<(TokenKind, usize), LexKind>
    ensures { result ≡ spec.number_at text.now }
{
    let length = name_length(text);
    match number(&text[..length]) {
        Some(value) => Ok((TokenKind::Number(value), length)),
        None => Err(LexKind::BadNumber),
    }
}

/// A mark of two bytes, else one of one.
#[tactic(auto, unfolding(crate::specs::Spellings::mark_at))]
fn mark(text: &[u8]) -> Option<(TokenKind, usize)>
    requires { 0 < length text.now }
    ensures { result ≡ spec.mark_at text.now }
{
    if text.starts_with(b"::") {
        return Some((TokenKind::DoubleColon, 2));
    }
    if text.starts_with(b"--") {
        return Some((TokenKind::MinusMinus, 2));
    }
    if text.starts_with(b"!=") {
        return Some((TokenKind::NotEqual, 2));
    }
    byte_mark(text[0]).map(|kind| (kind, 1))
}

fn byte_mark(byte: u8) -> Option<TokenKind>
    ensures { result ≡ spec.byte_mark byte }
{
    match byte {
        b',' => Some(TokenKind::Comma),
        b':' => Some(TokenKind::Colon),
        b'[' => Some(TokenKind::OpenBracket),
        b']' => Some(TokenKind::CloseBracket),
        b'(' => Some(TokenKind::OpenParen),
        b')' => Some(TokenKind::CloseParen),
        b'+' => Some(TokenKind::Plus),
        b'-' => Some(TokenKind::Minus),
        b'*' => Some(TokenKind::Star),
        b'/' => Some(TokenKind::Slash),
        b'!' => Some(TokenKind::Bang),
        b'~' => Some(TokenKind::Tilde),
        _ => None,
    }
}
