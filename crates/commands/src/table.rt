//! The command `table`: the table that proves a span, as a text that anyone can recheck.
ghost use Rattle.std.specs.Prelude.{IsSome, None, slice_index_or};
ghost use Rattle.command_line.specs.declared.order.Order.TheVariants as order;
ghost use Rattle.span_texts.specs.Rows.{table_text};
ghost use Rattle.commands.specs.Does.{Does};
ghost use Rattle.commands.specs.Needs.{IsNamedAt};
ghost use Rattle.commands.specs.Obeys.{ObeysAtRest};
ghost use Rattle.commands.specs.Outside.{output_by};
ghost use Rattle.commands.specs.Tables.{TellsText};
ghost use Rattle.commands.specs.Tasks.{tabled};

use crate::handing::hand_on;
use crate::span_fault::unproved;
use fault_lines::{Fault, File};
use pin_matrix::{Setup, Span};
use pio_edge::{Shelf, Sink};
use span_bounds::Table;
use span_texts::{Refusal, put_table, text_len};
use span_verdict::Verdict;
use stages::{limit_of, prepare_setup, span_named};
use std::alloc::Global;

/// Writes the table of the first span of this name, the least closed one, where the span is provable and the text is no
/// longer than a table file may be; else nothing. All memory is taken before the first piece is put.
///
/// With status 0, where contracts know the files and the output: `TablePassed` (`specs/Passed.antt`).
pub fn table<F: Shelf, O: Sink>(
    alloc: Global,
    source: &str,
    config: Option<&str>,
    name: &str,
    shelf: &mut F,
    out: &mut O,
) -> Result<(), Fault>
    ensures { ObeysAtRest (order.Table source.entry config.entry name.entry) F.Shelf O.Sink
        shelf.old shelf.new out.old out.new result }
{
    let setup = prepare_setup(alloc, shelf, source, config)?;
    match span_named(&setup, name) {
        Some((place, span)) => tell_table(alloc, &setup, place, span, out),
        None => Err(Fault::NoSpan),
    }
}

/// Writes the table of the span at this place, whose machine is configured, where it is provable and no longer than a
/// table file may be.
fn tell_table<O: Sink>(
    alloc: Global,
    setup: &Setup,
    place: usize,
    span: &Span,
    out: &mut O,
) -> Result<(), Fault>
    requires configured { IsSome (slice_index_or setup.now.machines span.now.machine None) }
    requires named { IsNamedAt setup.now span.now place span.now.name }
    ensures { Does (tabled setup.now span.now) (output_by O.Sink out.old) (output_by O.Sink out.new) result }
{
    let verdict = span_check::check(alloc, setup, span)?;
    match verdict {
        Verdict::Proved { table, .. } => write_table(out, &table),
        Verdict::Unproved(context, cause) => {
            Err(unproved(alloc, place, span, Refusal::Unproved(context, cause)))
        }
        Verdict::Shared(machine) => Err(unproved(alloc, place, span, Refusal::Shared(machine))),
    }
}

/// Writes the text of a table that is no longer than a table file may be.
fn write_table<O: Sink>(out: &mut O, table: &Table) -> Result<(), Fault>
    ensures { TellsText (output_by O.Sink out.old) (output_by O.Sink out.new)
        (table_text table.now.rows) result }
{
    if text_len(table) > limit_of(File::Table) {
        return Err(Fault::TooLong(File::Table));
    }
    let put = put_table(out, table);
    hand_on(out, put)
}
