//! The third sweep: a row that waits for no passage is taken, and its ages are final then.
ghost use Rattle.std.specs.Prelude.{◌≡◌, ◌+◌, ◌*◌, ◌<◌, ◌≤◌, ◌∷◌, [], true, IsSome, IsTrue, None, length, slice_index, slice_index_or};
ghost use Rattle.span_bounds.specs.Edges.{at, spot};
ghost use Rattle.span_bounds.specs.Numbers.{contexts, contexts_of};
ghost use Rattle.span_step.specs.Contexts.{is_placed};
ghost use Rattle.span_bounds.specs.Reach.{IsReach};
ghost use Rattle.span_bounds.specs.Count.{Count};
ghost use Rattle.span_bounds.specs.Sums as sums;
ghost use Rattle.span_bounds.specs.Take as spec;
ghost use Rattle.span_bounds.specs.Take.{IsTaking, IsTaken, AreReady, Passed, work_left};

use crate::count::join;
use crate::entry::Entry;
use crate::grid::Grid;
use crate::marks::{ContextMark, Marks};
use crate::number::number_of;
use crate::row_step::row_step;
use crate::stack::Stack;
use crate::tally::Tally;
use pin_matrix::{Follow, Setup, Span};
use span_step::{Ages, Next, Stepped};
use std::sync::ledger::Ledger;
use step_count::Steps;

/// Takes each row that comes to wait for none. `left` is the grid of the first sweep; an open row of it that is taken is
/// taken out.
pub(crate) fn take<L: Ledger>(
    setup: &Setup,
    span: &Span,
    left: &mut Marks,
    table: &mut Grid,
    missing: &mut Tally,
    ready: &mut Stack,
    steps: &mut Steps<L>,
)
    requires configured { IsSome (slice_index_or setup.now.machines span.now.machine None) }
    requires reach { IsReach setup.now span.now left.old }
    requires counted { Count setup.now span.now left.old table.old missing.old (contexts_of span.now) }
    requires ready { ready.old ≡ record { numbers = []; room = 2 * contexts_of span.now } }
    ensures taken { IsTaken setup.now span.now left.new table.new }
    ensures steps { steps.new ≤ steps.old + contexts_of span.now }
{
    add_ready(left, missing, ready);
    while let Some(number) = ready.pop() {
        take_number(setup, span, left, table, missing, ready, number, steps);
    }
}

/// Adds the open rows that wait for none.
fn add_ready(left: &Marks, missing: &Tally, ready: &mut Stack)
    requires numbers { length missing.now ≡ length left.now }
    requires ready { ready.old.numbers ≡ [] }
    requires room { length left.now ≤ ready.old.room }
    ensures ready { AreReady left.now missing.now ready.new.numbers (length left.now) }
    ensures room { ready.new.room ≡ ready.old.room }
{
    for number in 0..left.end() {
        add_if_ready(left, missing, ready, number);
    }
}

/// Adds a number if its row is left and waits for none.
fn add_if_ready(left: &Marks, missing: &Tally, ready: &mut Stack, number: usize)
    requires number { number < length left.now }
    requires numbers { length missing.now ≡ length left.now }
    requires room { length left.now ≤ ready.old.room }
    requires before { AreReady left.now missing.now ready.old.numbers number }
    ensures ready { AreReady left.now missing.now ready.new.numbers (number + 1) }
    ensures room { ready.new.room ≡ ready.old.room }
{
    if is_ready(left, missing, number) {
        ready.push(number);
    }
}

/// Whether a number's row is left and waits for none.
fn is_ready(left: &Marks, missing: &Tally, number: usize) -> bool
    requires number { number < length left.now }
    requires numbers { length missing.now ≡ length left.now }
    ensures { result ≡ spec.is_ready left.now missing.now number }
{
    is_open(left.at(number)) && missing.at(number) == 0
}

/// Whether ages are open at an entry.
pub(crate) fn is_open(entry: Entry) -> bool
    ensures { result ≡ sums.open_at entry }
{
    match entry {
        Entry::Absent => false,
        Entry::Present(ages) => ages.is_open(),
    }
}

/// Takes the row of a number, if it is left and waits for none.
fn take_number<L: Ledger>(
    setup: &Setup,
    span: &Span,
    left: &mut Marks,
    table: &mut Grid,
    missing: &mut Tally,
    ready: &mut Stack,
    number: usize,
    steps: &mut Steps<L>,
)
    requires configured { IsSome (slice_index_or setup.now.machines span.now.machine None) }
    requires number { number < contexts_of span.now }
    requires takes { IsTaking setup.now span.now left.old table.old missing.old (number ∷ ready.old.numbers) }
    requires room { work_left missing.old ready.old.numbers ≤ contexts_of span.now }
    requires space { contexts_of span.now < ready.old.room }
    ensures takes { IsTaking setup.now span.now left.new table.new missing.new ready.new.numbers }
    ensures work { work_left missing.new ready.new.numbers ≤ work_left missing.old ready.old.numbers }
    ensures space { ready.new.room ≡ ready.old.room }
    ensures steps { steps.new ≤ steps.old + 1 }
{
    if is_ready(left, missing, number) {
        let ages = ages_at(table, number);
        take_row(
            setup, span, left, table, missing, ready, number, ages, steps,
        );
    }
}

/// Takes a row with these ages: they pass on.
fn take_row<L: Ledger>(
    setup: &Setup,
    span: &Span,
    left: &mut Marks,
    table: &mut Grid,
    missing: &mut Tally,
    ready: &mut Stack,
    number: usize,
    ages: Ages,
    steps: &mut Steps<L>,
)
    requires configured { IsSome (slice_index_or setup.now.machines span.now.machine None) }
    requires number { number < contexts_of span.now }
    requires is_ready { spec.is_ready left.old missing.old number ≡ true }
    requires ages { ages ≡ spec.ages_or_none (at table.old number) }
    requires takes { IsTaking setup.now span.now left.old table.old missing.old (number ∷ ready.old.numbers) }
    requires room { work_left missing.old ready.old.numbers ≤ contexts_of span.now }
    requires space { contexts_of span.now < ready.old.room }
    ensures takes { IsTaking setup.now span.now left.new table.new missing.new ready.new.numbers }
    ensures work { work_left missing.new ready.new.numbers ≤ work_left missing.old ready.old.numbers }
    ensures space { ready.new.room ≡ ready.old.room }
    ensures steps { steps.new ≤ steps.old + 1 }
{
    left.put(number, ContextMark::Absent);
    let mut stepped = Stepped::none();
    row_step(setup, span, number, ages, steps, &mut stepped);
    let follow = span.assume.follow();
    if stepped.narrowing.is_wide() {
        for next in stepped.ends.as_slice() {
            pass(table, missing, ready, follow, next);
        }
    } else {
        let mut rest = stepped.nexts();
        while let Some(later) = rest.next() {
            pass(table, missing, ready, follow, &later);
        }
    }
}

/// The ages of a number's row, none where there is no row.
pub(crate) fn ages_at(table: &Grid, number: usize) -> Ages
    requires { number < length table.now }
    ensures { result ≡ spec.ages_or_none (at table.now number) }
{
    match table.at(number) {
        Entry::Absent => Ages::Empty,
        Entry::Present(ages) => ages,
    }
}

/// Where a next is passed to, its ages join those of its row, which waits for one less.
fn pass(table: &mut Grid, missing: &mut Tally, ready: &mut Stack, follow: Follow, next: &Next)
    requires placed { IsTrue (is_placed follow next.now.context.address next.now.context.x next.now.context.y) }
    requires size { length table.old ≡ contexts follow }
    requires numbers { length missing.old ≡ length table.old }
    requires some { next.now.passes ≡ true → 1 ≤ slice_index missing.old (spot follow next.now) }
    requires room { length ready.old.numbers < ready.old.room }
    ensures passed { Passed follow next.now table.old table.new missing.old missing.new ready.old.numbers ready.new.numbers }
    ensures room { ready.new.room ≡ ready.old.room }
{
    if next.passes {
        let number = number_of(follow, &next.context);
        join(table, number, next.ages);
        let left = missing.at(number);
        if left == 1 {
            ready.push(number);
        }
        missing.put(number, left - 1);
    }
}
