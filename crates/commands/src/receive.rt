//! The command `receive`: the bytes that one pin sends in the first clocks of a run.
ghost use Rattle.std.specs.Prelude.{◌+◌, ◌<◌, ◌≤◌, ◌^◌};
ghost use Rattle.block_core.specs.Block.{first_run};
ghost use Rattle.command_line.specs.declared.order.Order.TheVariants.{Receive};
ghost use Rattle.commands.specs.Tasks.{received_text};
ghost use Rattle.commands.specs.Obeys.{Obeys};
ghost use Rattle.commands.specs.Written.{SinkWrites};
ghost use Rattle.idle_engine.specs.Worked.{worked_in};

use crate::handing::hand_on;
use block_core::Block;
use command_line::{RunFiles, SerialLine};
use dreq_pacing::Schedule;
use fault_lines::Fault;
use fifo_pair::RingFifo;
use idle_engine::{a_stopped_run_leaves_a_first_part, few_clocks_are_worked_out, simulate};
use pin_matrix::{Setup, is_high};
use pio_edge::{Shelf, Sink};
use serial_receiver::{Receiver, stopping_early_leaves_a_first_part};
use stages::prepare;
use std::alloc::Global;
use std::sync::ledger::Ledger;
use step_count::Steps;

/// Writes a line for each frame that a pin sends in so many clocks of the block that a source sets up, by a
/// configuration or by default, with a stimulus where one is named. No span is required. All memory is taken before the
/// first piece is put.
///
/// With status 0, where contracts know the files and the output: `ReceivePassed` (`specs/Passed.antt`).
pub fn receive<F: Shelf, O: Sink, L: Ledger>(
    alloc: Global,
    files: RunFiles,
    clocks: u64,
    line: SerialLine,
    shelf: &mut F,
    out: &mut O,
    steps: &mut Steps<L>,
) -> Result<(), Fault>
    requires within { clocks ≤ 10 ^ 12 }
    requires pin { line.pin < 32 }
    requires bit { 2 ≤ line.bit }
    ensures { Obeys (Receive files.entry clocks line) F.Shelf O.Sink shelf.old shelf.new out.old out.new
        steps.old steps.new result }
{
    few_clocks_are_worked_out();
    let (setup, schedule) = prepare(alloc, shelf, files)?;
    write_received(alloc, &setup, &schedule, clocks, line, out, steps)
}

/// Writes the lines of the frames in so many clocks of a setup, and hands on what the output still keeps; or answers
/// want of memory before it has put anything.
pub fn write_received<O: Sink, L: Ledger>(
    alloc: Global,
    setup: &Setup,
    schedule: &Schedule,
    clocks: u64,
    line: SerialLine,
    out: &mut O,
    steps: &mut Steps<L>,
) -> Result<(), Fault>
    requires within { clocks ≤ 10 ^ 12 }
    requires pin { line.pin < 32 }
    requires bit { 2 ≤ line.bit }
    ensures ends { SinkWrites O.Sink out.old out.new
        (received_text (first_run setup.now) line.pin line.bit schedule.now clocks) result }
    ensures steps { steps.new ≤ steps.old + worked_in (first_run setup.now) schedule.now clocks }
{
    a_stopped_run_leaves_a_first_part();
    stopping_early_leaves_a_first_part();
    let mut block = Block::<RingFifo>::new(alloc, setup)?;
    let first = is_high(block.view().level, line.pin);
    let mut trace = Receiver::new(out, line.pin, line.bit, first);
    let put = simulate(&mut block, schedule, clocks, &mut trace, steps);
    hand_on(out, put)
}
