//! The statements of a source, line by line.
ghost use Rattle.std.specs.Prelude.{◌≤◌, length};
ghost use Rattle.std.specs.List.{All};
ghost use Rattle.pio_lex.specs.Tokens.{IsTokenOf};

use crate::statement_texts::tell_statement;
use pio_lex::{Token, tokens};
use pio_statement::{Statement, StatementFault, line_end, read_statement};
use std::alloc::Global;

/// Adds the source's lines, each its statement or what is wrong with it.
pub fn tell_lines(alloc: Global, source: &[u8], text: &mut String) -> Option<()> {
    let tokens = tokens(alloc, source).ok()?;
    tell_all(alloc, source, &tokens, text)
}

fn tell_all(alloc: Global, source: &[u8], tokens: &[Token], text: &mut String) -> Option<()>
    requires { All (IsTokenOf source.now) tokens.now }
{
    let mut from = 0;
    for line in 0..=tokens.len() {
        if line > 0 {
            text.push_str("\n").ok()?;
        }
        tell_line(alloc, source, tokens, from, text)?;
        from = line_end(tokens, from);
        if from == tokens.len() {
            return Some(());
        }
    }
    None
}

/// Adds the line from a token on: its statement, which ends where the line does, or what is wrong with it.
fn tell_line(
    alloc: Global,
    source: &[u8],
    tokens: &[Token],
    from: usize,
    text: &mut String,
) -> Option<()>
    requires tokens { All (IsTokenOf source.now) tokens.now }
    requires from { from ≤ length tokens.now }
{
    let end = line_end(tokens, from);
    tell_read(&read_statement(alloc, source, tokens, from), end, text)
}

fn tell_read(
    read: &Result<(Statement, usize), StatementFault>,
    end: usize,
    text: &mut String,
) -> Option<()> {
    match read {
        Ok((statement, after)) if *after == end => tell_statement(statement, text).ok(),
        Ok(_) => text.push_str("another end").ok(),
        Err(StatementFault::Found(kind)) => write!(text, "{kind:?}").ok(),
        Err(StatementFault::Memory) => None,
    }
}
