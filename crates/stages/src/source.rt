//! From a source's name to the programs in it.
ghost use Rattle.std.specs.Prelude.{map};
ghost use Rattle.pio_assemble.specs.Program.{assembled_of};
ghost use Rattle.stages.specs.Stages.{KeepsPlan, source_plan};

use crate::fetch::fetch_file;
use fault_lines::{Fault, File};
use pio_assemble::{Program, SourceFault, assemble};
use pio_edge::Shelf;
use std::alloc::Global;

/// The programs of a source.
#[tactic(auto, unfolding(crate::specs::Judged::source_at))]
pub fn read_source<F: Shelf>(
    alloc: Global,
    shelf: &mut F,
    name: &str,
) -> Result<Vec<Program>, Fault>
    ensures { KeepsPlan F.Shelf (source_plan name.now)
        (λ programs. map assembled_of programs.items) shelf.old shelf.new result }
{
    let bytes = fetch_file(alloc, shelf, File::Source, name)?;
    match assemble(alloc, &bytes) {
        Ok(programs) => Ok(programs),
        Err(SourceFault::Memory) => Err(Fault::Memory),
        Err(SourceFault::Found { line, kind }) => Err(Fault::Source(line, kind)),
    }
}
