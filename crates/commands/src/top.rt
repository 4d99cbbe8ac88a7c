//! The call: the words, then what they ask for, and the line and status of its end.
ghost use Rattle.std.specs.Prelude.{◌≡◌, ◌≢◌, ◌+◌, ◌≤◌, map, Some, Err, string_bytes};
ghost use Rattle.command_line.specs.Words.{WordsAreTaken, IsWithinRange, asked_by, most_clocks};
ghost use Rattle.commands.specs.Outside.{call_by, output_by};
ghost use Rattle.commands.specs.Obeys.{Obeys};
ghost use Rattle.commands.specs.Complete.{FilesDecide};
ghost use Rattle.commands.specs.Ends.{CallAsks, EndsAs, WorkAsks, WorkEnds};
ghost use Rattle.commands.specs.Steps.{worked_for};
ghost use Rattle.fault_lines.specs.Told as told_spec;
ghost use Rattle.fault_lines.specs.Told.{TellsFault};

use crate::asm::asm;
use crate::check::check;
use crate::dis::dis;
use crate::generate::generate;
use crate::inspect::inspect;
use crate::laws::no_more_clocks_are_worked_out_than_asked;
use crate::measure::measure;
use crate::pair::pair;
use crate::receive::receive;
use crate::recheck::recheck;
use crate::run::run;
use crate::shares::shares;
use crate::table::table;
use crate::uart::uart;
use command_line::{Order, WordsFault, read};
use fault_lines::{Ended, Fault, end_with};
use pio_edge::{Shelf, Sink};
use std::alloc::Global;
use std::sync::ledger::Ledger;
use step_count::Steps;

/// Does all that the program does. The words begin with the program's name.
///
/// With status 0, where contracts know the files and the output: the record of the command that the words ask for,
/// `RunPassed` and its kin (`specs/Passed.antt`), by the laws of `passed.rt`.
pub fn piotool<F: Shelf, O: Sink, E: Sink, L: Ledger>(
    alloc: Global,
    words: &[String],
    shelf: &mut F,
    out: &mut O,
    err: &mut E,
    steps: &mut Steps<L>,
) -> Ended
    ensures ends { EndsAs (map string_bytes words.now)
        (call_by F.Shelf O.Sink shelf.old shelf.new out.old out.new) result.fault }
    ensures asked { CallAsks (map string_bytes words.now) (F.fetched shelf.old) (F.fetched shelf.new)
        result.fault }
    ensures complete { FilesDecide (map string_bytes words.now)
        (call_by F.Shelf O.Sink shelf.old shelf.new out.old out.new) result.fault }
    ensures taken { WordsAreTaken (map string_bytes words.now) → result.fault ≢ Some Fault.Usage }
    ensures status { result.status ≡ told_spec.status_of result.fault }
    ensures told { TellsFault (output_by E.Sink err.old) (output_by E.Sink err.new)
        result.fault }
    ensures same { F.holds shelf.new ≡ F.holds shelf.old }
    ensures steps { steps.new ≤ steps.old + most_clocks (map string_bytes words.now) }
    ensures worked { steps.new ≤ steps.old + worked_for (F.holds shelf.old) (map string_bytes words.now) }
{
    no_more_clocks_are_worked_out_than_asked();
    let fault = work(alloc, words, shelf, out, steps).err();
    end_with(err, fault)
}

/// Reads the words and does what they ask for.
fn work<F: Shelf, O: Sink, L: Ledger>(
    alloc: Global,
    words: &[String],
    shelf: &mut F,
    out: &mut O,
    steps: &mut Steps<L>,
) -> Result<(), Fault>
    ensures ends { WorkEnds (map string_bytes words.now)
        (call_by F.Shelf O.Sink shelf.old shelf.new out.old out.new) result }
    ensures asked { WorkAsks (map string_bytes words.now) (F.fetched shelf.old) (F.fetched shelf.new) result }
    ensures taken { WordsAreTaken (map string_bytes words.now) → result ≢ Err Fault.Usage }
    ensures same { F.holds shelf.new ≡ F.holds shelf.old }
    ensures worked { steps.new ≤ steps.old + worked_for (F.holds shelf.old) (map string_bytes words.now) }
{
    match read(alloc, words) {
        Ok(order) => obey(alloc, order, shelf, out, steps),
        Err(WordsFault::Usage) => Err(Fault::Usage),
        Err(WordsFault::Memory) => Err(Fault::Memory),
    }
}

/// Does what an order asks for.
fn obey<F: Shelf, O: Sink, L: Ledger>(
    alloc: Global,
    order: Order<'_>,
    shelf: &mut F,
    out: &mut O,
    steps: &mut Steps<L>,
) -> Result<(), Fault>
    requires { IsWithinRange (asked_by order) }
    ensures { Obeys order.entry F.Shelf O.Sink shelf.old shelf.new out.old out.new
        steps.old steps.new result }
{
    match order {
        Order::Asm { file } => asm(alloc, file, shelf, out),
        Order::Run { files, clocks } => run(alloc, files, clocks, shelf, out, steps),
        Order::Check { source, config } => check(alloc, source, config, shelf, out),
        Order::Table {
            source,
            config,
            span,
        } => table(alloc, source, config, span, shelf, out),
        Order::Recheck {
            source,
            config,
            span,
            table,
        } => recheck(alloc, source, config, span, table, shelf, out),
        Order::Shares { source, config } => shares(alloc, source, config, shelf, out),
        Order::Gen { seed, clocks } => generate(alloc, seed, clocks, shelf, out, steps),
        Order::Dis { file, side, opt } => dis(alloc, file, side, opt, shelf, out),
        Order::Measure { files, clocks } => measure(alloc, files, clocks, shelf, out, steps),
        Order::Receive {
            files,
            clocks,
            line,
        } => receive(alloc, files, clocks, line, shelf, out, steps),
        Order::Uart {
            send,
            divider,
            clocks,
        } => uart(alloc, send, divider, clocks, shelf, out, steps),
        Order::Pair { files, clocks } => pair(alloc, files, clocks, shelf, out, steps),
        Order::Inspect { files, clocks } => inspect(alloc, files, clocks, shelf, out, steps),
    }
}
