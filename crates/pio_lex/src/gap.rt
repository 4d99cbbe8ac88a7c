//! What is between tokens: blanks, comments, foreign blocks, and what follows `.lang_opt` on its line.
ghost use Rattle.std.specs.Prelude.{◌≡◌, ◌<◌, length};
ghost use Rattle.pio_lex.specs.Gaps as spec;

use crate::bytes::{blanks, block_name_length, line_length};
use crate::{Directive, LexKind, TokenKind};
use byte_lines::is_blank;

/// How many bytes of a gap the text begins with, after a token of the kind `last`; `None` where a token begins.
#[tactic(auto, unfolding(crate::specs::Gaps::gap_at))]
pub fn gap(text: &[u8], last: Option<TokenKind>) -> Result<Option<usize>, LexKind>
    requires { 0 < length text.now }
    ensures { result ≡ spec.gap_at last text.now }
{
    let byte = text[0];
    if is_lang_opt(last) && byte != b'\n' {
        return Ok(Some(line_length(text)));
    }
    if is_blank(byte) {
        return Ok(Some(blanks(text)));
    }
    if byte == b';' || text.starts_with(b"//") {
        return Ok(Some(line_length(text)));
    }
    if text.starts_with(b"/*") {
        return ended(comment_length(text), LexKind::OpenComment);
    }
    if begins_line(last) && opens_block(text) {
        return ended(block_length(text), LexKind::OpenBlock);
    }
    Ok(None)
}

fn is_lang_opt(last: Option<TokenKind>) -> bool
    ensures { result ≡ spec.is_lang_opt last }
{
    matches!(last, Some(TokenKind::Directive(Directive::LangOpt)))
}

fn begins_line(last: Option<TokenKind>) -> bool
    ensures { result ≡ spec.begins_line last }
{
    matches!(last, None | Some(TokenKind::Newline))
}

fn ended(length: Option<usize>, fault: LexKind) -> Result<Option<usize>, LexKind>
    ensures { result ≡ spec.ended fault length }
{
    match length {
        Some(length) => Ok(Some(length)),
        None => Err(fault),
    }
}

/// How long the comment is that the text begins with, if it ends.
#[tactic(auto, unfolding(crate::specs::Gaps::comment_length))]
fn comment_length(text: &[u8]) -> Option<usize>
    requires { 1 < length text.now }
    ensures { result ≡ spec.comment_length text.now }
{
    for at in 2..text.len() {
        if text[at..].starts_with(b"*/") {
            return Some(at + 2);
        }
    }
    None
}

/// Whether the text begins with the opening line of a foreign block: `%`, a name and `{`.
#[tactic(auto, unfolding(crate::specs::Gaps::opens_block))]
fn opens_block(text: &[u8]) -> bool
    ensures { result ≡ spec.opens_block text.now }
{
    if !text.starts_with(b"%") {
        return false;
    }
    let name = after_blanks(&text[1..]);
    let length = block_name_length(name);
    length > 0 && after_blanks(&name[length..]).starts_with(b"{")
}

fn after_blanks(text: &[u8]) -> &[u8]
    ensures { result.now ≡ spec.after_blanks text.now }
{
    &text[blanks(text)..]
}

/// How long the foreign block is that the text begins with, if a later line closes it.
#[tactic(auto, unfolding(crate::specs::Gaps::block_length))]
fn block_length(text: &[u8]) -> Option<usize>
    ensures { result ≡ spec.block_length text.now }
{
    for (at, byte) in text.iter().enumerate() {
        let rest = &text[at + 1..];
        if *byte == b'\n' && after_blanks(rest).starts_with(b"%}") {
            return Some(at + 1 + line_length(rest));
        }
    }
    None
}
