//! The command `asm`: the words of each program of a source, with what they mean.
ghost use Rattle.command_line.specs.declared.order.Order.TheVariants.{Asm};
ghost use Rattle.commands.specs.Obeys.{ObeysAtRest};

use crate::handing::hand_on;
use fault_lines::Fault;
use pio_edge::{Shelf, Sink};
use program_listing::put_listing;
use stages::read_source;
use std::alloc::Global;

/// Writes the listing of a source's programs. All memory is taken before the first piece is put.
///
/// With status 0, where contracts know the files and the output: `AsmPassed` (`specs/Passed.antt`).
pub fn asm<F: Shelf, O: Sink>(
    alloc: Global,
    file: &str,
    shelf: &mut F,
    out: &mut O,
) -> Result<(), Fault>
    ensures { ObeysAtRest (Asm file.entry) F.Shelf O.Sink
        shelf.old shelf.new out.old out.new result }
{
    let programs = read_source(alloc, shelf, file)?;
    let put = put_listing(out, &programs);
    hand_on(out, put)
}
