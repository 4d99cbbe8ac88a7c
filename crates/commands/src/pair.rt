//! The command `pair`: the trace of the first clocks of two blocks on one set of pins.
ghost use Rattle.std.specs.Prelude.{◌+◌, ◌≤◌, ◌^◌};
ghost use Rattle.command_line.specs.declared.order.Order.TheVariants.{Pair};
ghost use Rattle.commands.specs.Tasks.{twin_start, twin_trace_text};
ghost use Rattle.commands.specs.Obeys.{Obeys};
ghost use Rattle.commands.specs.Written.{SinkWrites};
ghost use Rattle.idle_engine.specs.Worked.{twin_worked_in};

use crate::handing::hand_on;
use block_core::Twin;
use command_line::PairFiles;
use fault_lines::Fault;
use fifo_pair::RingFifo;
use idle_engine::{a_stopped_run_leaves_a_first_part, few_clocks_are_worked_out, simulate_twin};
use pio_edge::{Shelf, Sink};
use stages::{TwoBlocks, prepare_pair, require_both};
use std::alloc::Global;
use std::sync::ledger::Ledger;
use step_count::Steps;
use vcd_trace::{TwinVcd, failing_early_leaves_a_first_part_of_two};

/// Writes the trace of so many clocks of two blocks that a source sets up by two configurations, with a stimulus where
/// one is named. Each span of both has to be provable; the first one that isn't ends the run, and nothing is written.
/// The first block's spans come before the second's. All memory is taken before the first piece is put.
///
/// With status 0, where contracts know the files and the output: `PairPassed` (`specs/Passed.antt`).
pub fn pair<F: Shelf, O: Sink, L: Ledger>(
    alloc: Global,
    files: PairFiles,
    clocks: u64,
    shelf: &mut F,
    out: &mut O,
    steps: &mut Steps<L>,
) -> Result<(), Fault>
    requires { clocks ≤ 10 ^ 12 }
    ensures { Obeys (Pair files.entry clocks) F.Shelf O.Sink shelf.old shelf.new out.old out.new
        steps.old steps.new result }
{
    few_clocks_are_worked_out();
    let blocks = prepare_pair(alloc, shelf, files)?;
    require_both(alloc, &blocks.first, &blocks.second)?;
    write_pair(alloc, &blocks, clocks, out, steps)
}

/// Writes the text of so many clocks of two blocks, or runs out of memory before it has put anything.
fn write_pair<O: Sink, L: Ledger>(
    alloc: Global,
    blocks: &TwoBlocks,
    clocks: u64,
    out: &mut O,
    steps: &mut Steps<L>,
) -> Result<(), Fault>
    requires { clocks ≤ 10 ^ 12 }
    ensures ends { SinkWrites O.Sink out.old out.new
        (twin_trace_text (twin_start blocks.now) blocks.now.first_lines blocks.now.second_lines clocks)
        result }
    ensures steps { steps.new ≤ steps.old
        + twin_worked_in (twin_start blocks.now) blocks.now.first_lines blocks.now.second_lines clocks }
{
    a_stopped_run_leaves_a_first_part();
    failing_early_leaves_a_first_part_of_two();
    let (first, second) = (&blocks.first_lines, &blocks.second_lines);
    let mut twin = Twin::<RingFifo>::new(alloc, &blocks.first, &blocks.second, blocks.own)?;
    let mut trace = TwinVcd::new(out);
    let put = simulate_twin(&mut twin, first, second, clocks, &mut trace, steps);
    hand_on(out, put)
}
