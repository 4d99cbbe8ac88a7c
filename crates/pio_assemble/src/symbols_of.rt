//! The symbols of a program, from its lines.
ghost use Rattle.std.specs.Prelude.{◌≡◌, ◌≤◌, IfOk, OnOk, is_some, option_copied};
ghost use Rattle.pio_assemble.specs.Source as spec;

use crate::before::word_count;
use crate::line::SourceLine;
use pio_encode::Name;
use pio_expr::{Scope, Symbol};
use pio_statement::{Statement, StatementKind};
use std::alloc::{AllocError, Global};

/// Adds the symbols of lines, up to where the next program begins. Gives the lines after that one.
pub fn add_symbols<'a>(
    alloc: Global,
    scope: &mut Scope,
    lines: &'a [SourceLine],
) -> Result<&'a [SourceLine], AllocError>
    ensures symbols { OnOk result (scope.new ≡ spec.scope_from lines.now scope.old 0) }
    ensures rest { IfOk result (λ rest. rest.now ≡ spec.after_program lines.now) }
{
    let mut rest = lines;
    let mut words = 0;
    while let Some((line, after)) = rest.split_first() {
        rest = after;
        if program_on(&line.reading).is_some() {
            return Ok(rest);
        }
        add_symbol(alloc, scope, words, &line.reading)?;
        words = words_on(words, &line.reading);
    }
    Ok(rest)
}

/// The program that begins on a line, if one does.
pub fn program_on(reading: &Result<Statement, StatementKind>) -> Option<&Name>
    ensures name { option_copied result ≡ spec.program_on reading.now }
    ensures variant { is_some result ≡ is_some (spec.program_on reading.now) }
{
    match reading {
        Ok(Statement::Program(name)) => Some(name),
        _ => None,
    }
}

/// Adds the symbol of a line with so many words before it, if it has one, and it is new.
fn add_symbol(
    alloc: Global,
    scope: &mut Scope,
    words: u8,
    reading: &Result<Statement, StatementKind>,
) -> Result<(), AllocError>
    ensures { OnOk result (scope.new ≡ spec.scope_on scope.old words reading.now) }
{
    match reading {
        Ok(Statement::Define { name, value, .. }) => {
            if scope.is_new(name) {
                scope.set(name, Symbol::Define(value.copy(alloc)?))?;
            }
        }
        Ok(Statement::Label { name, .. }) => {
            if scope.is_new(name) {
                scope.set(name, Symbol::Label(words))?;
            }
        }
        _ => {}
    }
    Ok(())
}

/// How many words there are after a line with so many before it.
fn words_on(words: u8, reading: &Result<Statement, StatementKind>) -> u8
    ensures { result ≡ spec.words_on words reading.now }
{
    match reading {
        Ok(Statement::Label { code, .. }) => more_words(words, word_count(code)),
        Ok(Statement::Code(_)) => more_words(words, 1),
        _ => words,
    }
}

/// More words of a program, which has at most 32.
fn more_words(words: u8, count: usize) -> u8
    requires { count ≤ 1 }
    ensures { result ≡ spec.more_words words count }
{
    (usize::from(words) + count).min(32) as u8
}
