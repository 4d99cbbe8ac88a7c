//! The command `recheck`: whether the table of a file proves a span, without deriving one.
ghost use Rattle.std.specs.Prelude.{◌≡◌, IsSome, MatchOption, None, slice_index_or};
ghost use Rattle.command_line.specs.declared.order.Order.TheVariants.{Recheck};
ghost use Rattle.pin_matrix.specs.Followed.{followed};
ghost use Rattle.span_check.specs.Proved.{HoldsInEveryRun};
ghost use Rattle.span_verdict.specs.Sharing.{IsUnshared};
ghost use Rattle.commands.specs.Does.{Does};
ghost use Rattle.commands.specs.Needs.{HasFlaw, IsNamedAt, IsProvedBy};
ghost use Rattle.commands.specs.Obeys.{ObeysAtRest};
ghost use Rattle.commands.specs.Outside.{output_by};
ghost use Rattle.commands.specs.Tasks.{rechecked};

use crate::handing::hand_on;
use crate::span_fault::{flawed, unproved};
use fault_lines::Fault;
use pin_matrix::{Setup, Span};
use pio_edge::{Shelf, Sink};
use span_bounds::Table;
use span_check::a_provable_span_holds_in_every_run;
use span_texts::{Refusal, put_rechecked};
use span_verdict::{Flaw, flaw, shared_by};
use stages::{fetch_table, prepare_setup, span_named};
use std::alloc::Global;

/// Writes that the table of a file proves the first span of this name, where it does; else nothing. All memory is taken
/// before the first piece is put.
///
/// With status 0, where contracts know the files and the output: `RecheckPassed` (`specs/Passed.antt`).
pub fn recheck<F: Shelf, O: Sink>(
    alloc: Global,
    source: &str,
    config: Option<&str>,
    name: &str,
    table: &str,
    shelf: &mut F,
    out: &mut O,
) -> Result<(), Fault>
    ensures { ObeysAtRest (Recheck source.entry config.entry name.entry table.entry) F.Shelf O.Sink
        shelf.old shelf.new out.old out.new result }
{
    let setup = prepare_setup(alloc, shelf, source, config)?;
    match span_named(&setup, name) {
        Some((place, span)) => {
            let rows = fetch_table(alloc, shelf, table, span.assume.follow())?;
            tell_recheck(alloc, &setup, place, span, &rows, out)
        }
        None => Err(Fault::NoSpan),
    }
}

/// Writes that a table proves the span at this place, whose machine is configured, where it does and no other machine
/// may write a pin of the span.
fn tell_recheck<O: Sink>(
    alloc: Global,
    setup: &Setup,
    place: usize,
    span: &Span,
    table: &Table,
    out: &mut O,
) -> Result<(), Fault>
    requires configured { IsSome (slice_index_or setup.now.machines span.now.machine None) }
    requires named { IsNamedAt setup.now span.now place span.now.name }
    requires follow { table.now.follow ≡ followed span.now }
    ensures { Does (rechecked setup.now span.now table.now.rows)
        (output_by O.Sink out.old) (output_by O.Sink out.new) result }
{
    if let Some(machine) = shared_by(setup, span) {
        return Err(unproved(alloc, place, span, Refusal::Shared(machine)));
    }
    match first_flaw(setup, span, table) {
        Some(found) => Err(flawed(alloc, place, span, found)),
        None => {
            let put = put_rechecked(out, &span.name);
            hand_on(out, put)
        }
    }
}

/// What is wrong with a table first. Where nothing is, it proves the span, so the span holds in every run.
// The match gives back what it takes, so that each answer is a goal: where there is no flaw, the law's clause is there.
fn first_flaw(setup: &Setup, span: &Span, table: &Table) -> Option<Flaw>
    requires configured { IsSome (slice_index_or setup.now.machines span.now.machine None) }
    requires alone { IsUnshared setup.now span.now }
    requires follow { table.now.follow ≡ followed span.now }
    ensures { MatchOption result
        (IsProvedBy setup.now span.now table.now.rows × HoldsInEveryRun setup.now span.now)
        (λ found. HasFlaw setup.now span.now table.now.rows found) }
{
    a_provable_span_holds_in_every_run();
    match flaw(table, setup, span) {
        Some(found) => Some(found),
        None => None,
    }
}
