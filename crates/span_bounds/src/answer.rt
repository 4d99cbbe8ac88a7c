//! The least closed table of a span.
ghost use Rattle.std.specs.Prelude.{◌≡◌, ◌+◌, ◌*◌, ◌<◌, ◌≤◌, [], IfOk, IsSome, MatchOption, OnErr, None, ◌^◌, length, replicate, slice_index_or};
ghost use Rattle.span_bounds.specs.Answers as spec;
ghost use Rattle.span_bounds.specs.Answers.{IsAnswer, IsBadAt, AreGoodBelow, cause_at};
ghost use Rattle.span_bounds.specs.Numbers.{contexts_of};
ghost use Rattle.span_bounds.specs.Take.{IsSettled};
ghost use Rattle.span_bounds.specs.declared.entry.Entry.TheVariants.{Absent};

use crate::count::count;
use crate::derived::Derived;
use crate::entry::Entry;
use crate::grid::Grid;
use crate::marks::Marks;
use crate::number::{context_at, contexts_of};
use crate::queue::Queue;
use crate::reach::reach;
use crate::row_step::row_step;
use crate::settle::settle;
use crate::stack::Stack;
use crate::table::Table;
use crate::take::{is_open, take};
use crate::tally::Tally;
use pin_matrix::{Setup, Span};
use span_step::{Ages, Cause, Stepped};
use std::alloc::{AllocError, Global};
use std::marker::Brand;
use std::sync::ledger::{Blank, Ledger};
use step_count::Steps;

/// The least closed table of the span where it is good, else its first bad context in context order, and in it the first
/// cause. The span's machine is configured. The error is out of memory, which is taken before the first row is worked out.
pub fn derive(alloc: Global, setup: &Setup, span: &Span) -> Result<Derived, AllocError>
    requires { IsSome (slice_index_or setup.now.machines span.now.machine None) }
    ensures { IfOk result (λ derived. IsAnswer setup.now span.now derived) }
{
    counted::<Brand>(alloc, setup, span, Blank::new(1))
}

/// The same, with a count of the row steps.
fn counted<L: Ledger>(
    alloc: Global,
    setup: &Setup,
    span: &Span,
    blank: Blank,
) -> Result<Derived, AllocError>
    requires configured { IsSome (slice_index_or setup.now.machines span.now.machine None) }
    requires name { blank.name ≡ L.name }
    requires parts { blank.parts ≡ L.parts }
    requires whole { blank.parts ≡ 1 }
    ensures { IfOk result (λ derived. IsAnswer setup.now span.now derived) }
{
    let mut steps = Steps::<L>::new(blank);
    derive_counted(alloc, setup, span, &mut steps)
}

/// The answer by the sweeps. Of a span with a greatest bound it takes at most five row steps for each of the contexts,
/// whatever the bounds. Want of memory comes before the first of them.
fn derive_counted<L: Ledger>(
    alloc: Global,
    setup: &Setup,
    span: &Span,
    steps: &mut Steps<L>,
) -> Result<Derived, AllocError>
    requires { IsSome (slice_index_or setup.now.machines span.now.machine None) }
    ensures answer { IfOk result (λ derived. IsAnswer setup.now span.now derived) }
    ensures steps { IsSome span.now.max → steps.new ≤ steps.old + 5 * contexts_of span.now }
    ensures early { OnErr result (steps.new ≤ steps.old) }
{
    let follow = span.assume.follow();
    let end = contexts_of(span);
    let mut table = Grid::new(alloc, end)?;
    let mut left = Marks::new(alloc, end)?;
    let mut missing = Tally::new(alloc, end)?;
    let mut stack = Stack::new(alloc, 2 * end)?;
    let mut queue = Queue::new(alloc, end, queue_room(span, end))?;
    match swept(
        setup,
        span,
        &mut left,
        &mut table,
        &mut missing,
        &mut stack,
        &mut queue,
        steps,
    ) {
        Some((number, cause)) => Ok(Derived::Bad {
            context: context_at(follow, number),
            cause,
        }),
        None => Ok(Derived::Closed(Table::of(follow, table))),
    }
}

/// How many numbers may come first in the fourth sweep, each at most twice, with two to spare. A span with a greatest bound
/// doesn't need it.
fn queue_room(span: &Span, end: usize) -> usize
    requires { end ≤ 2 ^ 24 }
    ensures { span.now.max ≡ None → result ≡ 2 * end + 2 }
{
    if span.max.is_none() { 2 * end + 2 } else { 0 }
}

/// The sweeps, over grids that say nothing yet, and then the first bad row.
fn swept<L: Ledger>(
    setup: &Setup,
    span: &Span,
    left: &mut Marks,
    table: &mut Grid,
    missing: &mut Tally,
    stack: &mut Stack,
    queue: &mut Queue,
    steps: &mut Steps<L>,
) -> Option<(usize, Cause)>
    requires configured { IsSome (slice_index_or setup.now.machines span.now.machine None) }
    requires few { contexts_of span.now ≤ 2 ^ 24 }
    requires left { left.old ≡ replicate (contexts_of span.now) Absent }
    requires table { table.old ≡ replicate (contexts_of span.now) Absent }
    requires missing { missing.old ≡ replicate (contexts_of span.now) 0 }
    requires stack { stack.old ≡ record { numbers = []; room = 2 * contexts_of span.now } }
    requires queue { queue.old.numbers ≡ [] }
    requires rest { queue.old.rest ≡ 0 }
    requires end { queue.old.end ≡ contexts_of span.now }
    requires room { span.now.max ≡ None → queue.old.room ≡ 2 * contexts_of span.now + 2 }
    ensures settled { IsSettled setup.now span.now left.new table.new }
    ensures value { MatchOption result (AreGoodBelow setup.now span.now left.new table.new (contexts_of span.now))
        (λ found. IsBadAt setup.now span.now left.new table.new found) }
    ensures steps { IsSome span.now.max → steps.new ≤ steps.old + 5 * contexts_of span.now }
{
    reach(setup, span, left, stack, steps);
    count(setup, span, left, table, missing, steps);
    take(setup, span, left, table, missing, stack, steps);
    settle(setup, span, left, table, queue, steps);
    first_bad(setup, span, left, table, steps)
}

/// The first number whose row is bad, and its first cause.
fn first_bad<L: Ledger>(
    setup: &Setup,
    span: &Span,
    left: &Marks,
    table: &Grid,
    steps: &mut Steps<L>,
) -> Option<(usize, Cause)>
    requires configured { IsSome (slice_index_or setup.now.machines span.now.machine None) }
    requires left { length left.now ≡ contexts_of span.now }
    requires table { length table.now ≡ contexts_of span.now }
    ensures value { MatchOption result (AreGoodBelow setup.now span.now left.now table.now (contexts_of span.now))
        (λ found. IsBadAt setup.now span.now left.now table.now found) }
    ensures steps { steps.new ≤ steps.old + contexts_of span.now }
{
    for number in 0..left.end().max(table.end()) {
        if let Some(cause) = judged(setup, span, left, table, number, steps) {
            return Some((number, cause));
        }
    }
    None
}

/// The first cause for which a number's row is bad. A row that was never taken has the cause of any ages above the bound.
fn judged<L: Ledger>(
    setup: &Setup,
    span: &Span,
    left: &Marks,
    table: &Grid,
    number: usize,
    steps: &mut Steps<L>,
) -> Option<Cause>
    requires configured { IsSome (slice_index_or setup.now.machines span.now.machine None) }
    requires number { number < contexts_of span.now }
    requires left { length left.now ≡ contexts_of span.now }
    requires table { length table.now ≡ contexts_of span.now }
    ensures value { result ≡ cause_at setup.now span.now left.now table.now number }
    ensures steps { steps.new ≤ steps.old + 1 }
{
    match filled(left.at(number), table.at(number)) {
        Entry::Absent => None,
        Entry::Present(ages) => {
            let mut stepped = Stepped::none();
            row_step(setup, span, number, ages, steps, &mut stepped);
            stepped.causes.first()
        }
    }
}

/// The entry by which a row is judged.
fn filled(left: Entry, entry: Entry) -> Entry
    ensures { result ≡ spec.filled left entry }
{
    if is_open(left) {
        Entry::Present(Ages::Between(0, u32::MAX))
    } else {
        entry
    }
}
