//! The command `run`: the trace of the first clocks of a block that a source and a configuration set up, with a
//! stimulus.
ghost use Rattle.std.specs.Prelude.{◌+◌, ◌≤◌, ◌^◌};
ghost use Rattle.block_core.specs.Block.{first_run};
ghost use Rattle.command_line.specs.declared.order.Order.TheVariants.{Run};
ghost use Rattle.commands.specs.Tasks.{trace_text};
ghost use Rattle.commands.specs.Obeys.{Obeys};
ghost use Rattle.commands.specs.Written.{SinkWrites};
ghost use Rattle.idle_engine.specs.Worked.{worked_in};

use crate::handing::hand_on;
use block_core::Block;
use command_line::RunFiles;
use dreq_pacing::Schedule;
use fault_lines::Fault;
use fifo_pair::RingFifo;
use idle_engine::{a_stopped_run_leaves_a_first_part, few_clocks_are_worked_out, simulate};
use pin_matrix::Setup;
use pio_edge::{Shelf, Sink};
use stages::{prepare, require_spans};
use std::alloc::Global;
use std::sync::ledger::Ledger;
use step_count::Steps;
use vcd_trace::{VcdTrace, failing_early_leaves_a_first_part};

/// Writes the trace of so many clocks of the block that a source sets up, by a configuration or by default, with a
/// stimulus where one is named. Each span of the block has to be provable; the first one that isn't ends the run, and
/// nothing is written. All memory is taken before the first piece is put.
///
/// With status 0, where contracts know the files and the output: `RunPassed` (`specs/Passed.antt`).
pub fn run<F: Shelf, O: Sink, L: Ledger>(
    alloc: Global,
    files: RunFiles,
    clocks: u64,
    shelf: &mut F,
    out: &mut O,
    steps: &mut Steps<L>,
) -> Result<(), Fault>
    requires { clocks ≤ 10 ^ 12 }
    ensures { Obeys (Run files.entry clocks) F.Shelf O.Sink shelf.old shelf.new out.old out.new
        steps.old steps.new result }
{
    few_clocks_are_worked_out();
    let (setup, schedule) = prepare(alloc, shelf, files)?;
    require_spans(alloc, &setup)?;
    write_trace(alloc, &setup, &schedule, clocks, out, steps)
}

/// Writes the text of so many clocks from a setup, or runs out of memory before it has put anything.
// A call of its own: within a greater function its loop costs more a clock.
#[inline(never)]
fn write_trace<O: Sink, L: Ledger>(
    alloc: Global,
    setup: &Setup,
    schedule: &Schedule,
    clocks: u64,
    out: &mut O,
    steps: &mut Steps<L>,
) -> Result<(), Fault>
    requires { clocks ≤ 10 ^ 12 }
    ensures ends { SinkWrites O.Sink out.old out.new
        (trace_text (first_run setup.now) schedule.now clocks) result }
    ensures steps { steps.new ≤ steps.old + worked_in (first_run setup.now) schedule.now clocks }
{
    a_stopped_run_leaves_a_first_part();
    failing_early_leaves_a_first_part();
    let mut block = Block::<RingFifo>::new(alloc, setup)?;
    let mut trace = VcdTrace::new(out);
    let put = simulate(&mut block, schedule, clocks, &mut trace, steps);
    hand_on(out, put)
}
