//! Programs as text: for each its line, those of its public symbols, those of its words (choice of this profile).
ghost use Rattle.std.specs.Prelude.{◌≡◌, ℕ, map};
ghost use Rattle.pio_edge.specs.Edge.{Takes, PutCounts};
ghost use Rattle.pio_assemble.specs.Program.{assembled_of};
ghost use Rattle.program_listing.specs.Listing as spec;

use crate::heading::put_program_line;
use crate::symbol::put_publics;
use pio_assemble::Program;
use pio_edge::{Sink, SinkFailed};
use word_file::put_words;

/// Puts the text of programs, one after the other, piece by piece. It takes no memory.
///
/// A word's line has its address in the program, from 0 on, and its text under the program's own side-set rule.
pub fn put_listing<S: Sink>(sink: &mut S, programs: &[Program]) -> Result<(), SinkFailed>
    ensures bytes { Takes (S.taken sink.old) (spec.listing_text (map assembled_of programs.now))
        (S.taken sink.new) result }
    ensures cause { PutCounts (S.faults sink.old) (S.faults sink.new) result }
{
    for program in programs {
        put_program(sink, program)?;
    }
    Ok(())
}

/// Puts the text of one program.
fn put_program<S: Sink>(sink: &mut S, program: &Program) -> Result<(), SinkFailed>
    ensures bytes { Takes (S.taken sink.old) (spec.program_text (assembled_of program.now))
        (S.taken sink.new) result }
    ensures cause { PutCounts (S.faults sink.old) (S.faults sink.new) result }
{
    put_program_line(sink, program)?;
    put_publics(sink, program.symbols.as_slice())?;
    put_words(sink, program.words.as_slice(), &program.side)
}
