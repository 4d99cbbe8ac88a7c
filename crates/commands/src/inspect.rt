//! The command `inspect`: the trace of what is inside a block in the first clocks of a run, with the pads and the
//! registers of each machine.
ghost use Rattle.std.specs.Prelude.{◌≡◌, ◌+◌, ◌≤◌, ◌^◌, is_some, map};
ghost use Rattle.block_core.specs.Block.{first_run};
ghost use Rattle.command_line.specs.declared.order.Order.TheVariants.{Inspect};
ghost use Rattle.commands.specs.Tasks.{inspected_text};
ghost use Rattle.commands.specs.Obeys.{Obeys};
ghost use Rattle.commands.specs.Written.{SinkWrites};
ghost use Rattle.idle_engine.specs.Worked.{worked_in};

use crate::handing::hand_on;
use block_core::Block;
use command_line::RunFiles;
use dreq_pacing::Schedule;
use fault_lines::Fault;
use fifo_pair::RingFifo;
use idle_engine::{a_stopped_run_leaves_a_first_part, few_clocks_are_worked_out, simulate_inside};
use pin_matrix::Setup;
use pio_edge::{Shelf, Sink};
use stages::prepare;
use std::alloc::Global;
use std::sync::ledger::Ledger;
use step_count::Steps;
use vcd_trace::{InsideVcd, failing_early_leaves_a_first_part_of_what_is_inside};

/// Writes the trace of what is inside the block that a source sets up, by a configuration or by default, in so many
/// clocks, beside a stimulus where one is named. No span is required. All memory is taken before the first piece is put.
///
/// With status 0, where contracts know the files and the output: `InspectPassed` (`specs/Passed.antt`).
pub fn inspect<F: Shelf, O: Sink, L: Ledger>(
    alloc: Global,
    files: RunFiles,
    clocks: u64,
    shelf: &mut F,
    out: &mut O,
    steps: &mut Steps<L>,
) -> Result<(), Fault>
    requires { clocks ≤ 10 ^ 12 }
    ensures { Obeys (Inspect files.entry clocks) F.Shelf O.Sink shelf.old shelf.new out.old out.new
        steps.old steps.new result }
{
    few_clocks_are_worked_out();
    let (setup, schedule) = prepare(alloc, shelf, files)?;
    write_inspected(alloc, &setup, &schedule, clocks, out, steps)
}

/// Writes the text of so many clocks of a setup, or runs out of memory before it has put anything.
fn write_inspected<O: Sink, L: Ledger>(
    alloc: Global,
    setup: &Setup,
    schedule: &Schedule,
    clocks: u64,
    out: &mut O,
    steps: &mut Steps<L>,
) -> Result<(), Fault>
    requires { clocks ≤ 10 ^ 12 }
    ensures ends { SinkWrites O.Sink out.old out.new
        (inspected_text setup.now schedule.now clocks) result }
    ensures steps { steps.new ≤ steps.old + worked_in (first_run setup.now) schedule.now clocks }
{
    a_stopped_run_leaves_a_first_part();
    failing_early_leaves_a_first_part_of_what_is_inside();
    let mut block = Block::<RingFifo>::new(alloc, setup)?;
    let mut trace = InsideVcd::new(out, configured(setup));
    let put = simulate_inside(&mut block, schedule, clocks, &mut trace, steps);
    hand_on(out, put)
}

/// Which machines a setup configures.
fn configured(setup: &Setup) -> [bool; 4]
    ensures { result ≡ map is_some setup.now.machines }
{
    let [first, second, third, fourth] = &setup.machines;
    [
        first.is_some(),
        second.is_some(),
        third.is_some(),
        fourth.is_some(),
    ]
}
