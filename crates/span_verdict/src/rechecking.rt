//! A table, looked through row by row.
ghost use Rattle.std.specs.Prelude.{◌≡◌, ◌↔◌, IsTrue, IsSome, None, slice_index_or};
ghost use Rattle.pin_matrix.specs.Followed.{followed};
ghost use Rattle.span_step.specs.declared.ages.Ages.TheVariants.{Empty};
ghost use Rattle.span_step.specs.Contexts.{is_placed};
ghost use Rattle.span_bounds.specs.Tables.{IsTable, IsClosed, IsGood};
ghost use Rattle.span_bounds.specs.Tables as tables;
ghost use Rattle.span_verdict.specs.Tables as spec;

use pin_matrix::{Setup, Span};
use span_bounds::{Ages, Context, Nexts, Row, Table, start_context, step};

/// Whether the table is a proof: closed and good, however it was made. The span's machine is configured. It takes no memory.
pub fn is_proof(table: &Table, setup: &Setup, span: &Span) -> bool
    requires configured { IsSome (slice_index_or setup.now.machines span.now.machine None) }
    requires follow { table.now.follow ≡ followed span.now }
    ensures sound { IsTrue result ↔ (IsClosed setup.now span.now table.now.rows × IsGood setup.now span.now table.now.rows) }
    ensures table { IsTable table.now.follow table.now.rows }
{
    let mut rows = table.rows();
    has_start(table, setup, span) && rows.all(|row| is_right(table, setup, span, &row))
}

/// Whether there is a row where tables start.
pub(crate) fn has_start(table: &Table, setup: &Setup, span: &Span) -> bool
    requires configured { IsSome (slice_index_or setup.now.machines span.now.machine None) }
    requires follow { table.now.follow ≡ followed span.now }
    ensures value { result ≡ spec.lies_in (followed span.now) table.now.rows (tables.start_context setup.now span.now) Empty }
    ensures placed { IsTrue (is_placed (followed span.now) (tables.start_context setup.now span.now).address
        (tables.start_context setup.now span.now).x (tables.start_context setup.now span.now).y) }
{
    lies_in(table, &start_context(setup, span), Ages::Empty)
}

/// Whether a row isn't bad, and each of its nexts lies within a row.
#[tactic(auto, unfolding(crate::specs::Tables::is_right))]
fn is_right(table: &Table, setup: &Setup, span: &Span, row: &Row) -> bool
    requires configured { IsSome (slice_index_or setup.now.machines span.now.machine None) }
    requires follow { table.now.follow ≡ followed span.now }
    ensures { result ≡ spec.is_right setup.now span.now table.now.rows row.now }
{
    let stepped = step(setup, span, &row.context, &row.ages);
    stepped.causes.first().is_none() && all_lie_in(table, stepped.nexts())
}

/// Whether each next lies within a row.
pub(crate) fn all_lie_in(table: &Table, nexts: Nexts<'_>) -> bool
    ensures { result ≡ spec.all_lie_in table.now.follow table.now.rows nexts.entry }
{
    let mut rest = nexts;
    rest.all(|next| lies_in(table, &next.context, next.ages))
}

/// Whether a context has a row in which these ages lie.
fn lies_in(table: &Table, context: &Context, ages: Ages) -> bool
    ensures { result ≡ spec.lies_in table.now.follow table.now.rows context.now ages }
{
    match table.ages(context) {
        None => false,
        Some(others) => is_inside(ages, others),
    }
}

/// Whether each of some ages is one of others.
fn is_inside(ages: Ages, others: Ages) -> bool
    ensures { result ≡ spec.is_inside ages others }
{
    match (ages, others) {
        (Ages::Empty, _) => true,
        (_, Ages::Empty) => false,
        (Ages::Between(lo, hi), Ages::Between(low, high)) => low <= lo && hi <= high,
    }
}
