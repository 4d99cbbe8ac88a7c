//! The faults of statements that need no value, in the order of the lines.
ghost use Rattle.std.specs.Prelude.{◌≡◌, ◌+◌, ◌<◌, ◌^◌, Bool, unwrap_or};
ghost use Rattle.pio_assemble.specs.Answers.{Finds, Checks};
ghost use Rattle.pio_assemble.specs.Lines.{has_word, word_on};
ghost use Rattle.pio_assemble.specs.Checks as spec;

use crate::before::Before;
use crate::fault::at_line;
use crate::line::SourceLine;
use crate::names::Names;
use crate::{LineFault, SourceFault, SourceKind};
use pio_encode::Name;
use pio_statement::{Code, Statement, StatementKind, Suffix};
use std::alloc::Global;

/// The most programs of a file.
const MOST_PROGRAMS: usize = 64;

/// The most symbols of a file.
const MOST_SYMBOLS: usize = 1024;

/// The most words of a program.
const MOST_WORDS: usize = 32;

/// Tells the first line whose statement has a fault.
///
/// It takes time in proportion to the lines, but for the look-ups of names.
pub fn first_fault(alloc: Global, lines: &[SourceLine]) -> Result<(), SourceFault>
    ensures { Checks result (spec.first_fault spec.nothing_before lines.now) }
{
    let mut before = Before::nothing(alloc);
    let checked = check_lines(alloc, &mut before, lines);
    drop(before);
    checked
}

/// The same after what comes before the lines, which goes on to what comes after them.
fn check_lines(alloc: Global, before: &mut Before, lines: &[SourceLine]) -> Result<(), SourceFault>
    requires symbols { before.old.symbols ≡ 0 }
    requires words { before.old.words ≡ 0 }
    ensures { Checks result (spec.first_fault before.old lines.now) }
{
    for (index, line) in lines.iter().enumerate() {
        match line_fault(alloc, before, &lines[index + 1..], &line.reading) {
            Ok(statement) => before.pass(alloc, statement)?,
            Err(fault) => return Err(at_line(line.number, fault)),
        }
    }
    Ok(())
}

/// What is wrong with a line before these ones; else its statement.
fn line_fault<'a>(
    alloc: Global,
    before: &Before,
    rest: &[SourceLine],
    reading: &'a Result<Statement, StatementKind>,
) -> Result<&'a Statement, LineFault>
    ensures value { Finds result
        (spec.line_fault before.now (has_word rest.now) reading.now) }
    ensures statement { spec.IsStatement result reading.now }
{
    match reading {
        Ok(statement) => {
            statement_fault(alloc, before, rest, statement)?;
            Ok(statement)
        }
        Err(kind) => Err(LineFault::Found(kind_of(*kind))),
    }
}

/// The fault of a line that is no statement.
fn kind_of(kind: StatementKind) -> SourceKind
    ensures { result ≡ spec.kind_of kind }
{
    match kind {
        StatementKind::Directive => SourceKind::Directive,
        StatementKind::Syntax => SourceKind::Syntax,
        StatementKind::TooDeep => SourceKind::TooDeep,
        StatementKind::Ambiguous => SourceKind::Ambiguous,
    }
}

/// What is wrong with a statement before these lines.
#[tactic(auto, unfolding(crate::specs::Checks::statement_fault))]
fn statement_fault(
    alloc: Global,
    before: &Before,
    rest: &[SourceLine],
    statement: &Statement,
) -> Result<(), LineFault>
    ensures { Finds result
        (spec.statement_fault before.now (has_word rest.now) statement.now) }
{
    match statement {
        Statement::Nothing | Statement::LangOpt | Statement::PioVersion(_) => Ok(()),
        Statement::Program(name) => program_fault(alloc, before, rest, name),
        Statement::Define { name, .. } => symbol_fault(alloc, before, name),
        Statement::Origin(_) => {
            outside(before)?;
            fault_if(before.origin, SourceKind::Twice)
        }
        Statement::SideSet { .. } => {
            outside(before)?;
            fault_if(before.side_set.is_some(), SourceKind::Twice)?;
            fault_if(before.words >= 1, SourceKind::Late)
        }
        Statement::WrapTarget => {
            outside(before)?;
            fault_if(before.wrap_target, SourceKind::Twice)?;
            fault_if(!has_word(rest), SourceKind::WrapPlace)
        }
        Statement::Wrap => {
            outside(before)?;
            fault_if(before.wrap, SourceKind::Twice)?;
            fault_if(before.words == 0, SourceKind::WrapPlace)
        }
        Statement::Label { name, code, .. } => {
            outside(before)?;
            symbol_fault(alloc, before, name)?;
            some_code_fault(before, code)
        }
        Statement::Code(code) => {
            outside(before)?;
            code_fault(before, code)
        }
    }
}

/// A program that begins has a new name, and a word after it.
fn program_fault(
    alloc: Global,
    before: &Before,
    rest: &[SourceLine],
    name: &Name,
) -> Result<(), LineFault>
    ensures { Finds result (spec.program_fault before.now (has_word rest.now) name.now) }
{
    duplicate(alloc, &before.programs, name)?;
    fault_if(before.programs.len() >= MOST_PROGRAMS, SourceKind::Many)?;
    fault_if(!has_word(rest), SourceKind::EmptyProgram)
}

/// No program has begun.
fn outside(before: &Before) -> Result<(), LineFault>
    ensures { Finds result (spec.outside before.now) }
{
    fault_if(before.programs.len() == 0, SourceKind::Outside)
}

/// A fault, where there is cause.
fn fault_if(cause: bool, kind: SourceKind) -> Result<(), LineFault>
    ensures { Finds result (spec.fault_if cause kind) }
{
    if cause {
        Err(LineFault::Found(kind))
    } else {
        Ok(())
    }
}

/// One of these has the name already.
fn duplicate(alloc: Global, names: &Names, name: &Name) -> Result<(), LineFault>
    ensures { Finds result (spec.duplicate names.now name.now) }
{
    if names.has(name) {
        let name = name.copy(alloc)?;
        return Err(LineFault::Found(SourceKind::Duplicate(name)));
    }
    Ok(())
}

/// A symbol has a new name in its program.
fn symbol_fault(alloc: Global, before: &Before, name: &Name) -> Result<(), LineFault>
    ensures { Finds result (spec.symbol_fault before.now name.now) }
{
    duplicate(alloc, &before.names, name)?;
    fault_if(before.symbols >= MOST_SYMBOLS, SourceKind::Many)
}

fn some_code_fault(before: &Before, code: &Option<Code>) -> Result<(), LineFault>
    ensures { Finds result (spec.some_code_fault before.now code.now) }
{
    match code {
        None => Ok(()),
        Some(code) => code_fault(before, code),
    }
}

/// A word has room, and an instruction the side-set that is asked for.
fn code_fault(before: &Before, code: &Code) -> Result<(), LineFault>
    ensures { Finds result (spec.code_fault before.now code.now) }
{
    fault_if(before.words >= MOST_WORDS, SourceKind::TooLong)?;
    match code {
        Code::Word(_) => Ok(()),
        Code::Instruction(instruction) => {
            side_fault(before.side_set, has_side(&instruction.suffix))
        }
    }
}

/// `side` is asked for by a `.side_set` without `opt`, and is right under one alone.
fn side_fault(side_set: Option<bool>, said: bool) -> Result<(), LineFault>
    ensures { Finds result (spec.side_fault side_set said) }
{
    match (side_set, said) {
        (None, true) => Err(LineFault::Found(SourceKind::SideUnasked)),
        (Some(false), false) => Err(LineFault::Found(SourceKind::SideMissing)),
        _ => Ok(()),
    }
}

fn has_side(suffix: &Suffix) -> bool
    ensures { result ≡ spec.has_side suffix.now }
{
    match suffix {
        Suffix::None | Suffix::Delay(_) => false,
        Suffix::Side(_) | Suffix::SideDelay { .. } | Suffix::DelaySide { .. } => true,
    }
}

/// A word is on these lines, before the next program begins.
fn has_word(lines: &[SourceLine]) -> bool
    ensures { result ≡ has_word lines.now }
{
    for line in lines {
        if let Some(answer) = word_on(&line.reading) {
            return answer;
        }
    }
    false
}

/// A line gives a word, or none, because it begins a program; `None` where it leaves this open.
fn word_on(reading: &Result<Statement, StatementKind>) -> Option<bool>
    ensures { (more : Bool) → word_on reading.now more ≡ unwrap_or result more }
{
    match reading {
        Ok(Statement::Program(_)) => Some(false),
        Ok(Statement::Code(_) | Statement::Label { code: Some(_), .. }) | Err(_) => Some(true),
        Ok(_) => None,
    }
}
