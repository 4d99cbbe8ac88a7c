//! The command `dis`: the text of each word of a file.
ghost use Rattle.std.specs.Prelude.{◌+◌, ◌≤◌, if◌then◌else◌};
ghost use Rattle.command_line.specs.declared.order.Order.TheVariants.{Dis};
ghost use Rattle.commands.specs.Obeys.{ObeysAtRest};

use crate::handing::hand_on;
use fault_lines::Fault;
use pio_edge::{Shelf, Sink};
use stages::fetch_words;
use std::alloc::Global;
use word_file::{make_rule, put_words};

/// Writes the lines of a file's words, read under a rule of so many side-set bits. All memory is taken before the
/// first piece is put.
///
/// With status 0, where contracts know the files and the output: `DisPassed` (`specs/Passed.antt`).
pub fn dis<F: Shelf, O: Sink>(
    alloc: Global,
    file: &str,
    side: u8,
    opt: bool,
    shelf: &mut F,
    out: &mut O,
) -> Result<(), Fault>
    requires { side + (if opt then 1 else 0) ≤ 5 }
    ensures { ObeysAtRest (Dis file.entry side opt) F.Shelf O.Sink
        shelf.old shelf.new out.old out.new result }
{
    let words = fetch_words(alloc, shelf, file)?;
    let put = put_words(out, &words, &make_rule(side, opt));
    hand_on(out, put)
}
