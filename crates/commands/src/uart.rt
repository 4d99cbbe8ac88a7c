//! The command `uart`: what the proved transmitter sends of a file's bytes in the first clocks of a run.
ghost use Rattle.std.specs.Prelude.{◌+◌, ◌≤◌, ◌^◌};
ghost use Rattle.block_core.specs.Block.{first_run};
ghost use Rattle.commands.specs.Obeys.{Obeys};
ghost use Rattle.commands.specs.Tasks.{sent_text};
ghost use Rattle.commands.specs.Written.{SinkWrites};
ghost use Rattle.command_line.specs.declared.order.Order.TheVariants.{Uart};
ghost use Rattle.pio_uart.specs.Feeding.{fed};
ghost use Rattle.pio_uart.specs.OneSetup.{transmitter_of};
ghost use Rattle.idle_engine.specs.Worked.{worked_in};

use crate::laws::a_transmitter_sends_this_text;
use crate::receive::write_received;
use command_line::SerialLine;
use fault_lines::{Fault, File};
use idle_engine::few_clocks_are_worked_out;
use pio_edge::{Shelf, Sink};
use pio_uart::{feed, uart_setup};
use stages::fetch_file;
use std::alloc::Global;
use std::sync::ledger::Ledger;
use step_count::Steps;

/// Writes a line for each byte of a file that the transmitter sends in so many clocks, with a tick every `divider`
/// clocks, 1 to 8,191. All memory is taken before the first piece is put.
///
/// With status 0, where contracts know the files and the output: `UartPassed` (`specs/Passed.antt`).
pub fn uart<F: Shelf, O: Sink, L: Ledger>(
    alloc: Global,
    send: &str,
    divider: u16,
    clocks: u64,
    shelf: &mut F,
    out: &mut O,
    steps: &mut Steps<L>,
) -> Result<(), Fault>
    requires within { clocks ≤ 10 ^ 12 }
    requires some { 1 ≤ divider }
    requires most { divider ≤ 8191 }
    ensures { Obeys (Uart send.entry divider clocks) F.Shelf O.Sink shelf.old shelf.new out.old out.new
        steps.old steps.new result }
{
    few_clocks_are_worked_out();
    let bytes = fetch_file(alloc, shelf, File::Send, send)?;
    send_bytes(alloc, &bytes, divider, clocks, out, steps)
}

/// Writes a line for each of some bytes that the transmitter sends, or runs out of memory before it has put anything.
fn send_bytes<O: Sink, L: Ledger>(
    alloc: Global,
    bytes: &[u8],
    divider: u16,
    clocks: u64,
    out: &mut O,
    steps: &mut Steps<L>,
) -> Result<(), Fault>
    requires within { clocks ≤ 10 ^ 12 }
    requires some { 1 ≤ divider }
    requires most { divider ≤ 8191 }
    ensures ends { SinkWrites O.Sink out.old out.new (sent_text divider bytes.now clocks) result }
    ensures steps { steps.new ≤ steps.old
        + worked_in (first_run (transmitter_of divider)) (fed bytes.now) clocks }
{
    a_transmitter_sends_this_text();
    let schedule = feed(alloc, bytes)?;
    let setup = uart_setup(alloc, divider);
    let line = SerialLine {
        pin: 0,
        bit: 8 * divider,
    };
    write_received(alloc, &setup, &schedule, clocks, line, out, steps)
}
