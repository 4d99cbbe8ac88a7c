//! The fourth sweep, of a span without a greatest bound: the least ages of the rows that the third left.
ghost use Rattle.std.specs.Prelude.{◌≡◌, ◌+◌, ◌*◌, ◌<◌, ◌≤◌, ◌∷◌, [], IsSome, IsTrue, None, length, slice_index_or};
ghost use Rattle.span_step.specs.Laws.{cap_of};
ghost use Rattle.span_bounds.specs.Edges.{spot};
ghost use Rattle.span_bounds.specs.Numbers.{contexts, contexts_of};
ghost use Rattle.span_step.specs.Contexts.{is_placed};
ghost use Rattle.span_bounds.specs.Settle as spec;
ghost use Rattle.span_bounds.specs.Settle.{IsSettling, SettlesRow, Eased, BegunAt, ease_left};
ghost use Rattle.span_bounds.specs.Take.{IsTaken, IsSettled};

use crate::count::join;
use crate::entry::Entry;
use crate::grid::Grid;
use crate::marks::{ContextMark, Marks};
use crate::number::number_of;
use crate::queue::Queue;
use crate::row_step::row_step;
use crate::take::{ages_at, is_open};
use pin_matrix::{Follow, Setup, Span};
use span_step::{Ages, Next, Stepped, age_cap};
use std::sync::ledger::Ledger;
use step_count::Steps;

/// Settles the rows that the third sweep left, if the span has no greatest bound. `left` says which rows wait then, and at last
/// that none does.
pub(crate) fn settle<L: Ledger>(
    setup: &Setup,
    span: &Span,
    left: &mut Marks,
    table: &mut Grid,
    waiting: &mut Queue,
    steps: &mut Steps<L>,
)
    requires configured { IsSome (slice_index_or setup.now.machines span.now.machine None) }
    requires taken { IsTaken setup.now span.now left.old table.old }
    requires waiting { waiting.old.numbers ≡ [] }
    requires rest { waiting.old.rest ≡ 0 }
    requires end { waiting.old.end ≡ contexts_of span.now }
    requires room { span.now.max ≡ None → waiting.old.room ≡ 2 * contexts_of span.now + 2 }
    ensures settled { IsSettled setup.now span.now left.new table.new }
    ensures steps { IsSome span.now.max → steps.new ≤ steps.old }
{
    if span.max.is_none() {
        begin(setup, span, left, table, waiting);
        while let Some(number) = waiting.pop() {
            settle_number(setup, span, left, table, waiting, number, steps);
        }
    }
}

/// Each row that is left gets the age at which ages stop. It comes first if it has others.
fn begin(setup: &Setup, span: &Span, left: &Marks, table: &mut Grid, waiting: &mut Queue)
    requires configured { IsSome (slice_index_or setup.now.machines span.now.machine None) }
    requires taken { IsTaken setup.now span.now left.now table.old }
    requires waiting { waiting.old.numbers ≡ [] }
    requires rest { waiting.old.rest ≡ 0 }
    requires end { waiting.old.end ≡ contexts_of span.now }
    requires room { waiting.old.room ≡ 2 * contexts_of span.now + 2 }
    ensures settling { IsSettling setup.now span.now left.now table.new waiting.new.numbers waiting.new.rest }
    ensures end { waiting.new.end ≡ contexts_of span.now }
    ensures room { waiting.new.room ≡ 2 * contexts_of span.now + 2 }
{
    let cap = age_cap(setup, span);
    for number in 0..left.end() {
        begin_number(left, table, waiting, number, cap);
    }
}

/// If the row of a number is left it gets this age, and comes first if it has others.
fn begin_number(left: &Marks, table: &mut Grid, waiting: &mut Queue, number: usize, cap: u32)
    requires number { number < length left.now }
    requires size { length table.old ≡ length left.now }
    requires room { length waiting.old.numbers < waiting.old.room }
    ensures begun { BegunAt cap number left.now table.old table.new waiting.old.numbers waiting.new.numbers }
    ensures rest { waiting.new.rest ≡ waiting.old.rest }
    ensures end { waiting.new.end ≡ waiting.old.end }
    ensures room { waiting.new.room ≡ waiting.old.room }
{
    if is_open(left.at(number)) {
        join(table, number, Ages::Between(cap, cap));
        if !is_single(table.at(number)) {
            waiting.push(least_at(table, number), number);
        }
    }
}

/// Looks at the row of a number, if it waits.
fn settle_number<L: Ledger>(
    setup: &Setup,
    span: &Span,
    left: &mut Marks,
    table: &mut Grid,
    waiting: &mut Queue,
    number: usize,
    steps: &mut Steps<L>,
)
    requires configured { IsSome (slice_index_or setup.now.machines span.now.machine None) }
    requires number { number < contexts_of span.now }
    requires settling { IsSettling setup.now span.now left.old table.old (number ∷ waiting.old.numbers) waiting.old.rest }
    requires room { waiting.old.room ≡ 2 * contexts_of span.now + 2 }
    ensures settling { IsSettling setup.now span.now left.new table.new waiting.new.numbers waiting.old.rest }
    ensures rest { waiting.new.rest ≡ waiting.old.rest }
    ensures work { ease_left (cap_of setup.now span.now) table.new waiting.new.numbers
        ≤ ease_left (cap_of setup.now span.now) table.old waiting.old.numbers }
    ensures end { waiting.new.end ≡ waiting.old.end }
    ensures room { waiting.new.room ≡ waiting.old.room }
{
    if is_open(left.at(number)) {
        let ages = ages_at(table, number);
        left.put(number, ContextMark::Absent);
        settle_row(setup, span, left, table, waiting, number, ages, steps);
    }
}

/// Looks at a row with these ages: what it leads to gets them.
fn settle_row<L: Ledger>(
    setup: &Setup,
    span: &Span,
    left: &mut Marks,
    table: &mut Grid,
    waiting: &mut Queue,
    number: usize,
    ages: Ages,
    steps: &mut Steps<L>,
)
    requires configured { IsSome (slice_index_or setup.now.machines span.now.machine None) }
    requires number { number < contexts_of span.now }
    requires row { SettlesRow setup.now span.now left.old table.old waiting.old.numbers waiting.old.rest number ages [] }
    requires room { waiting.old.room ≡ 2 * contexts_of span.now + 2 }
    ensures settling { IsSettling setup.now span.now left.new table.new waiting.new.numbers waiting.old.rest }
    ensures rest { waiting.new.rest ≡ waiting.old.rest }
    ensures work { ease_left (cap_of setup.now span.now) table.new waiting.new.numbers
        ≤ ease_left (cap_of setup.now span.now) table.old waiting.old.numbers }
    ensures end { waiting.new.end ≡ waiting.old.end }
    ensures room { waiting.new.room ≡ waiting.old.room }
{
    let mut stepped = Stepped::none();
    row_step(setup, span, number, ages, steps, &mut stepped);
    let follow = span.assume.follow();
    if stepped.narrowing.is_wide() {
        for next in stepped.ends.as_slice() {
            ease(left, table, waiting, follow, next);
        }
    } else {
        let mut rest = stepped.nexts();
        while let Some(later) = rest.next() {
            ease(left, table, waiting, follow, &later);
        }
    }
}

/// Where a next's ages don't lie in the table, they join those of its row, which waits then. It comes first: it is pushed where
/// it didn't wait, or had one age alone and so was among the rest.
fn ease(left: &mut Marks, table: &mut Grid, waiting: &mut Queue, follow: Follow, next: &Next)
    requires placed { IsTrue (is_placed follow next.now.context.address next.now.context.x next.now.context.y) }
    requires below { length table.old ≡ contexts follow }
    requires size { length left.old ≡ length table.old }
    requires room { length waiting.old.numbers < waiting.old.room }
    ensures eased { Eased follow next.now table.old table.new left.old left.new waiting.old.numbers waiting.new.numbers }
    ensures rest { waiting.new.rest ≡ waiting.old.rest }
    ensures end { waiting.new.end ≡ waiting.old.end }
    ensures room { waiting.new.room ≡ waiting.old.room }
{
    let number = number_of(follow, &next.context);
    if !lies(next.ages, table.at(number)) {
        let single = is_single(table.at(number));
        join(table, number, next.ages);
        if single || !is_open(left.at(number)) {
            left.put(number, ContextMark::Open);
            waiting.push(least_at(table, number), number);
        }
    }
}

/// Whether ages lie at an entry.
fn lies(ages: Ages, entry: Entry) -> bool
    ensures { result ≡ spec.lies ages entry }
{
    match entry {
        Entry::Absent => false,
        Entry::Present(there) => is_inside(ages, there),
    }
}

/// Whether an entry has one age alone.
fn is_single(entry: Entry) -> bool
    ensures { result ≡ spec.is_single entry }
{
    match entry {
        Entry::Present(Ages::Between(lo, hi)) => lo == hi,
        _ => false,
    }
}

/// Whether each age of the first is one of the second.
fn is_inside(ages: Ages, others: Ages) -> bool
    ensures { result ≡ spec.is_inside ages others }
{
    match (ages, others) {
        (Ages::Empty, _) => true,
        (_, Ages::Empty) => false,
        (Ages::Between(lo, hi), Ages::Between(low, high)) => low <= lo && hi <= high,
    }
}

/// The least age of a number's row: which row is looked at first, and nothing else, depends on it.
fn least_at(table: &Grid, number: usize) -> u32
    requires { number < length table.now }
{
    match table.at(number) {
        Entry::Present(Ages::Between(lo, _)) => lo,
        _ => 0,
    }
}
