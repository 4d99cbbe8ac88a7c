//! From the bytes of a source to its programs, or its first fault.
ghost use Rattle.std.specs.Prelude.{◌≡◌, map, IfOk};
ghost use Rattle.std.specs.List.{All};
ghost use Rattle.pio_lex.specs.Tokens.{IsTokenOf};
ghost use Rattle.pio_assemble.specs.Answers.{Gives};
ghost use Rattle.pio_assemble.specs.Lines.{lines_of};
ghost use Rattle.pio_assemble.specs.Program.{assembled_of};
ghost use Rattle.pio_assemble.specs.Source as spec;

use crate::assembly::Assembly;
use crate::checks::first_fault;
use crate::fault::of_tokens;
use crate::line::SourceLine;
use crate::lines::read_lines;
use crate::{Program, SourceFault};
use pio_lex::{Token, tokens};
use std::alloc::Global;

/// The programs of a source, which may be any bytes, or its first fault.
///
/// A fault of the tokens comes before any fault of a statement, and that before any fault of a value; among those of one
/// kind the least line comes first. It takes time in proportion to the source's length, but for the look-ups of names.
pub fn assemble(alloc: Global, source: &[u8]) -> Result<Vec<Program>, SourceFault>
    // The programs or the fault are those that the source means, unless memory runs out.
    ensures exact { Gives (λ v. map assembled_of v.items) result (spec.reads_source source.now) }
    // No two programs have one name.
    ensures distinct { IfOk result (λ v. spec.AreDistinct (map (λ p. p.name) v.items)) }
{
    match tokens(alloc, source) {
        Ok(tokens) => read(alloc, source, &tokens),
        Err(fault) => Err(of_tokens(fault)),
    }
}

/// The programs of a source with these tokens.
fn read(alloc: Global, source: &[u8], tokens: &[Token]) -> Result<Vec<Program>, SourceFault>
    requires { All (IsTokenOf source.now) tokens.now }
    ensures { Gives (λ v. map assembled_of v.items) result
        (spec.reads_lines (lines_of source.now tokens.now)) }
{
    let lines = read_lines(alloc, source, tokens)?;
    first_fault(alloc, &lines)?;
    programs(alloc, &lines)
}

/// The programs of lines whose statements have no fault.
fn programs(alloc: Global, lines: &[SourceLine]) -> Result<Vec<Program>, SourceFault>
    ensures { Gives (λ v. map assembled_of v.items) result (spec.programs_of lines.now) }
{
    let mut assembly = Assembly::begun(alloc, lines)?;
    match assembly.read(alloc, lines) {
        Ok(()) => Ok(assembly.finish()?),
        Err(fault) => {
            drop(assembly);
            Err(fault)
        }
    }
}
