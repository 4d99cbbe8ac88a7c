//! Whether a span opens at all, and whether it closes.
ghost use Rattle.std.specs.Prelude.{◌≡◌, IsSome, None, slice_index_or};
ghost use Rattle.span_verdict.specs.Tables as spec;

use pin_matrix::{Setup, Span};
use span_bounds::{Rows, Table, step};

/// Whether a step of a row of the table has a from-edge, and whether one has a to-edge while a from-edge is open. The span's
/// machine is configured.
pub fn opens_and_closes(table: &Table, setup: &Setup, span: &Span) -> (bool, bool)
    requires { IsSome (slice_index_or setup.now.machines span.now.machine None) }
    ensures opens { result.0 ≡ spec.opens setup.now span.now table.now.rows }
    ensures closes { result.1 ≡ spec.closes setup.now span.now table.now.rows }
{
    edges_of(setup, span, table.rows())
}

/// The same of these rows, of which none is worked out once both are so.
#[tactic(auto, unfolding(crate::specs::Tables::opens, crate::specs::Tables::closes))]
fn edges_of(setup: &Setup, span: &Span, rows: Rows<'_>) -> (bool, bool)
    requires { IsSome (slice_index_or setup.now.machines span.now.machine None) }
    ensures opens { result.0 ≡ spec.opens setup.now span.now rows.entry }
    ensures closes { result.1 ≡ spec.closes setup.now span.now rows.entry }
{
    let mut opens = false;
    let mut closes = false;
    let mut rest = rows;
    while let Some(row) = rest.next() {
        let stepped = step(setup, span, &row.context, &row.ages);
        opens = opens || stepped.from_edge;
        closes = closes || stepped.closes;
        if opens && closes {
            return (true, true);
        }
    }
    (opens, closes)
}
