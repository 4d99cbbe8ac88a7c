//! The command `gen`: what the load that a seed draws comes to in so many clocks.
ghost use Rattle.std.specs.Prelude.{◌≤◌, ◌^◌};
ghost use Rattle.command_line.specs.declared.order.Order.TheVariants.{Gen};
ghost use Rattle.commands.specs.Obeys.{Obeys};

use crate::handing::hand_on;
use drawn_load::{put_summary, summarise};
use fault_lines::Fault;
use pio_edge::{Shelf, Sink};
use std::alloc::Global;
use std::sync::ledger::Ledger;
use step_count::Steps;

/// Writes the summary of the load of a seed, whatever the seed is, over so many clocks, up to 10^12. It fetches
/// nothing. All memory is taken before the first piece is put.
///
/// With status 0, where contracts know the files and the output: `GenPassed` (`specs/Passed.antt`).
pub fn generate<F: Shelf, O: Sink, L: Ledger>(
    alloc: Global,
    seed: u64,
    clocks: u64,
    shelf: &mut F,
    out: &mut O,
    steps: &mut Steps<L>,
) -> Result<(), Fault>
    requires { clocks ≤ 10 ^ 12 }
    ensures { Obeys (Gen seed clocks) F.Shelf O.Sink shelf.old shelf.new out.old out.new
        steps.old steps.new result }
{
    let summary = summarise(alloc, seed, clocks, steps)?;
    let put = put_summary(out, &summary);
    hand_on(out, put)
}
