//! The command `shares`: the report on the block that a source and a configuration set up.
ghost use Rattle.command_line.specs.declared.order.Order.TheVariants.{Shares};
ghost use Rattle.commands.specs.Obeys.{ObeysAtRest};

use crate::handing::hand_on;
use block_shares::put_shares;
use fault_lines::Fault;
use pio_edge::{Shelf, Sink};
use stages::prepare_setup;
use std::alloc::Global;

/// Writes the report on what the machines of a setup share, by a configuration or by default. No span is required. All
/// memory is taken before the first piece is put.
///
/// With status 0, where contracts know the files and the output: `SharesPassed` (`specs/Passed.antt`).
pub fn shares<F: Shelf, O: Sink>(
    alloc: Global,
    source: &str,
    config: Option<&str>,
    shelf: &mut F,
    out: &mut O,
) -> Result<(), Fault>
    ensures { ObeysAtRest (Shares source.entry config.entry) F.Shelf O.Sink
        shelf.old shelf.new out.old out.new result }
{
    let setup = prepare_setup(alloc, shelf, source, config)?;
    let put = put_shares(out, &setup);
    hand_on(out, put)
}
