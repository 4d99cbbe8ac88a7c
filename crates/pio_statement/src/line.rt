//! A line of a source, and its statement.
ghost use Rattle.std.specs.Prelude.{◌≡◌, ◌<◌, ◌≤◌, length, position, IfOk, IfSome};
ghost use Rattle.std.specs.List.{All};
ghost use Rattle.pio_lex.specs.Tokens.{IsTokenOf};
ghost use Rattle.pio_statement.specs.Answer.{Answers};
ghost use Rattle.pio_statement.specs.Lines as spec;

use crate::cursor::Cursor;
use crate::{Statement, StatementFault, StatementKind};
use pio_lex::{Directive, Token, TokenKind};
use std::alloc::Global;

/// The statement of the line that begins at the token `from`, and the place after the line; or the line's fault.
///
/// An unknown directive anywhere on the line is told before any other fault. Memory is taken for names and expressions
/// alone, and time in proportion to the line.
#[tactic(auto, unfolding(crate::specs::Lines::statement_at))]
pub fn read_statement(
    alloc: Global,
    source: &[u8],
    tokens: &[Token],
    from: usize,
) -> Result<(Statement, usize), StatementFault>
    requires tokens { All (IsTokenOf source.now) tokens.now }
    requires from { from ≤ length tokens.now }
    // The statement or the fault is the language's, unless memory runs out.
    ensures value { Answers result (spec.statement_at source.now tokens.now from) }
    ensures onward { IfOk result (λ read. from < length tokens.now → from < read.1) }
    ensures within { IfOk result (λ read. read.1 ≤ length tokens.now) }
{
    if has_unknown(tokens, from) {
        return Err(StatementFault::Found(StatementKind::Directive));
    }
    known(alloc, source, tokens, from)
}

/// The place after the line that begins at the token `from`: after its `Newline`, or the number of tokens.
#[tactic(auto, unfolding(crate::specs::Lines::line_end))]
pub fn line_end(tokens: &[Token], from: usize) -> usize
    requires { from ≤ length tokens.now }
    ensures value { result ≡ spec.line_end tokens.now from }
    ensures onward { from < length tokens.now → from < result }
    ensures order { from ≤ result }
    ensures within { result ≤ length tokens.now }
{
    match newline(&tokens[from..]) {
        Some(place) => from + place + 1,
        None => tokens.len(),
    }
}

/// The number of tokens before a line's `Newline`, if one ends the line.
fn newline(tokens: &[Token]) -> Option<usize>
    ensures value { result ≡ position (λ token. spec.is_newline token.kind) tokens.now }
    ensures within { IfSome result (λ place. place < length tokens.now) }
{
    tokens.iter().position(|token| is_newline(token.kind))
}

fn is_newline(kind: TokenKind) -> bool
    ensures { result ≡ spec.is_newline kind }
{
    matches!(kind, TokenKind::Newline)
}

/// Whether an unknown directive is on the line.
#[tactic(auto, unfolding(crate::specs::Lines::has_unknown))]
fn has_unknown(tokens: &[Token], from: usize) -> bool
    requires { from ≤ length tokens.now }
    ensures { result ≡ spec.has_unknown tokens.now from }
{
    let line = &tokens[from..line_end(tokens, from)];
    line.iter().any(|token| is_unknown(token.kind))
}

fn is_unknown(kind: TokenKind) -> bool
    ensures { result ≡ spec.is_unknown kind }
{
    matches!(kind, TokenKind::Directive(Directive::Other))
}

/// The statement of a line without an unknown directive, which takes the whole line.
#[tactic(auto, unfolding(crate::specs::Lines::known_at))]
fn known(
    alloc: Global,
    source: &[u8],
    tokens: &[Token],
    from: usize,
) -> Result<(Statement, usize), StatementFault>
    requires tokens { All (IsTokenOf source.now) tokens.now }
    requires from { from ≤ length tokens.now }
    ensures value { Answers result (spec.known_at source.now tokens.now from) }
    ensures onward { IfOk result (λ read. from < length tokens.now → from < read.1) }
    ensures within { IfOk result (λ read. read.1 ≤ length tokens.now) }
{
    let mut cursor = Cursor::new(alloc, source, tokens, from);
    let statement = cursor.statement()?;
    if cursor.is_at_end() {
        Ok((statement, line_end(tokens, from)))
    } else {
        drop(statement);
        Err(StatementFault::SYNTAX)
    }
}
