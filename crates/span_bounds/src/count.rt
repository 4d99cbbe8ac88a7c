//! The second sweep: the ages that wait for no others, and how many passages each row waits for.
ghost use Rattle.std.specs.Prelude.{◌≡◌, ◌+◌, ◌-◌, ◌^◌, ◌<◌, ◌≤◌, ◌&&◌, Bool, IsSome, IsTrue, None, MatchBool, length, slice_index, slice_index_or, slice_set};
ghost use Rattle.span_step.specs.Contexts.{is_open, is_placed};
ghost use Rattle.span_bounds.specs.declared.entry.Entry.TheVariants.{Present};
ghost use Rattle.span_bounds.specs.Edges.{at, spot};
ghost use Rattle.span_bounds.specs.Numbers.{contexts, contexts_of};
ghost use Rattle.span_bounds.specs.Reach.{IsReach};
ghost use Rattle.span_bounds.specs.Sums as spec;
ghost use Rattle.span_bounds.specs.Sums.{join_into};
ghost use Rattle.span_bounds.specs.Count.{Count, Counted};

use crate::entry::Entry;
use crate::grid::Grid;
use crate::marks::Marks;
use crate::number::number_of;
use crate::row_step::row_step;
use crate::tally::Tally;
use pin_matrix::{Follow, Setup, Span};
use span_step::{Ages, Next, Stepped};
use std::sync::ledger::Ledger;
use step_count::Steps;

/// Counts the passages of the rows in order.
pub(crate) fn count<L: Ledger>(
    setup: &Setup,
    span: &Span,
    reach: &Marks,
    table: &mut Grid,
    missing: &mut Tally,
    steps: &mut Steps<L>,
)
    requires configured { IsSome (slice_index_or setup.now.machines span.now.machine None) }
    requires few { contexts_of span.now ≤ 2 ^ 24 }
    requires reach { IsReach setup.now span.now reach.now }
    requires first { Count setup.now span.now reach.now table.old missing.old 0 }
    ensures value { Count setup.now span.now reach.now table.new missing.new (contexts_of span.now) }
    ensures steps { steps.new ≤ steps.old + contexts_of span.now }
{
    for number in 0..reach.end() {
        count_number(setup, span, reach, table, missing, number, steps);
    }
}

/// Counts the passages of the row of a number, if it has one.
fn count_number<L: Ledger>(
    setup: &Setup,
    span: &Span,
    reach: &Marks,
    table: &mut Grid,
    missing: &mut Tally,
    number: usize,
    steps: &mut Steps<L>,
)
    requires configured { IsSome (slice_index_or setup.now.machines span.now.machine None) }
    requires few { contexts_of span.now ≤ 2 ^ 24 }
    requires number { number < contexts_of span.now }
    requires reach { IsReach setup.now span.now reach.now }
    requires before { Count setup.now span.now reach.now table.old missing.old number }
    ensures value { Count setup.now span.now reach.now table.new missing.new (number + 1) }
    ensures steps { steps.new ≤ steps.old + 1 }
{
    match reach.at(number) {
        Entry::Absent => {}
        Entry::Present(ages) => count_row(setup, span, reach, table, missing, number, ages, steps),
    }
}

/// Counts the passages of a row with these ages.
fn count_row<L: Ledger>(
    setup: &Setup,
    span: &Span,
    reach: &Marks,
    table: &mut Grid,
    missing: &mut Tally,
    number: usize,
    ages: Ages,
    steps: &mut Steps<L>,
)
    requires configured { IsSome (slice_index_or setup.now.machines span.now.machine None) }
    requires few { contexts_of span.now ≤ 2 ^ 24 }
    requires number { number < contexts_of span.now }
    requires entry { at reach.now number ≡ Present ages }
    requires reach { IsReach setup.now span.now reach.now }
    requires before { Count setup.now span.now reach.now table.old missing.old number }
    ensures value { Count setup.now span.now reach.now table.new missing.new (number + 1) }
    ensures steps { steps.new ≤ steps.old + 1 }
{
    join(table, number, Ages::Empty);
    let mut stepped = Stepped::none();
    row_step(setup, span, number, ages, steps, &mut stepped);
    let follow = span.assume.follow();
    let ends = stepped.ends.as_slice();
    if stepped.narrowing.is_wide() {
        for next in ends {
            count_next(table, missing, ages.is_open(), follow, next);
        }
    } else {
        let mut rest = stepped.nexts();
        while let Some(later) = rest.next() {
            count_next(table, missing, ages.is_open(), follow, &later);
        }
    }
}

/// A passage of an open row is waited for; the ages of any other next join those of its row.
fn count_next(table: &mut Grid, missing: &mut Tally, opens: bool, follow: Follow, next: &Next)
    requires placed { IsTrue (is_placed follow next.now.context.address next.now.context.x next.now.context.y) }
    requires size { length table.old ≡ contexts follow }
    requires numbers { length missing.old ≡ contexts follow }
    requires small { slice_index missing.old (spot follow next.now) < 2 ^ 32 - 1 }
    ensures counted { Counted follow opens next.now table.old table.new missing.old missing.new }
    ensures below { spot follow next.now < contexts follow }
{
    let number = number_of(follow, &next.context);
    if opens && next.passes {
        missing.put(number, missing.at(number) + 1);
    } else {
        join(table, number, next.ages);
    }
}

/// Adds ages to the entry of a number.
pub(crate) fn join(table: &mut Grid, number: usize, ages: Ages)
    requires { number < length table.old }
    ensures { table.new ≡ slice_set table.old number (Present (join_into ages (at table.old number))) }
{
    let joined = match table.at(number) {
        Entry::Absent => ages,
        Entry::Present(there) => joined(ages, there),
    };
    table.put(number, Entry::Present(joined));
}

/// The ages of either and between.
fn joined(ages: Ages, others: Ages) -> Ages
    ensures { result ≡ spec.join ages others }
{
    match (ages, others) {
        (Ages::Empty, _) => others,
        (_, Ages::Empty) => ages,
        (Ages::Between(lo, hi), Ages::Between(low, high)) => {
            Ages::Between(lo.min(low), hi.max(high))
        }
    }
}
