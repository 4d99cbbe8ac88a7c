//! What is wrong with a table first.
ghost use Rattle.std.specs.Prelude.{◌≡◌, ◌↔◌, IsSome, None, slice_index_or};
ghost use Rattle.pin_matrix.specs.Followed.{followed};
ghost use Rattle.span_bounds.specs.Tables.{IsTable, IsClosed, IsGood};
ghost use Rattle.span_verdict.specs.Flaws as spec;

use crate::rechecking::{all_lie_in, has_start};
use crate::table_flaw::Flaw;
use pin_matrix::{Setup, Span};
use span_bounds::{Row, Rows, Table, step};

/// What is wrong with the table first: no row for the start, or else the flaw of its least row in context order that has one,
/// where an open row comes before a bad one. `None` exactly where the table is closed and good. The span's machine is
/// configured. It takes no memory.
#[tactic(auto, unfolding(crate::specs::Flaws::first_flaw))]
pub fn flaw(table: &Table, setup: &Setup, span: &Span) -> Option<Flaw>
    requires configured { IsSome (slice_index_or setup.now.machines span.now.machine None) }
    requires follow { table.now.follow ≡ followed span.now }
    ensures first { result ≡ spec.first_flaw setup.now span.now table.now.rows }
    ensures none { (result ≡ None) ↔ (IsClosed setup.now span.now table.now.rows × IsGood setup.now span.now table.now.rows) }
    ensures table { IsTable table.now.follow table.now.rows }
{
    let rows = table.rows();
    if has_start(table, setup, span) {
        rows_flaw(table, setup, span, rows)
    } else {
        Some(Flaw::Start)
    }
}

/// What is wrong first with these rows of the table.
fn rows_flaw(table: &Table, setup: &Setup, span: &Span, rows: Rows<'_>) -> Option<Flaw>
    requires configured { IsSome (slice_index_or setup.now.machines span.now.machine None) }
    requires follow { table.now.follow ≡ followed span.now }
    ensures { result ≡ spec.rows_flaw setup.now span.now table.now.rows rows.entry }
{
    let mut rest = rows;
    while let Some(row) = rest.next() {
        if let Some(flaw) = row_flaw(table, setup, span, &row) {
            return Some(flaw);
        }
    }
    None
}

/// What is wrong with a row of the table.
#[tactic(auto, unfolding(crate::specs::Flaws::row_flaw))]
fn row_flaw(table: &Table, setup: &Setup, span: &Span, row: &Row) -> Option<Flaw>
    requires configured { IsSome (slice_index_or setup.now.machines span.now.machine None) }
    requires follow { table.now.follow ≡ followed span.now }
    ensures { result ≡ spec.row_flaw setup.now span.now table.now.rows row.now }
{
    let stepped = step(setup, span, &row.context, &row.ages);
    if !all_lie_in(table, stepped.nexts()) {
        return Some(Flaw::Open(row.context));
    }
    match stepped.causes.first() {
        Some(cause) => Some(Flaw::Bad(row.context, cause)),
        None => None,
    }
}
