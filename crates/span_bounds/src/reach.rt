//! The first sweep: which contexts have a row, and which rows are open.
ghost use Rattle.std.specs.Prelude.{◌≡◌, ◌+◌, ◌*◌, ◌<◌, ◌≤◌, ◌∷◌, [], IsSome, None, length, replicate, slice_index_or};
ghost use Rattle.span_bounds.specs.Edges.{at};
ghost use Rattle.span_bounds.specs.Numbers.{contexts_of};
ghost use Rattle.span_bounds.specs.declared.entry.Entry.TheVariants.{Absent, Present};
ghost use Rattle.span_bounds.specs.Reach as spec;
ghost use Rattle.span_bounds.specs.Reach.{Sweep, IsReach, Raised, room};

use crate::entry::Entry;
use crate::marks::{ContextMark, Marks};
use crate::number::number_of;
use crate::row_step::row_step;
use crate::stack::Stack;
use crate::start::start_context;
use pin_matrix::{Setup, Span};
use span_step::{Ages, Stepped};
use std::sync::ledger::Ledger;
use step_count::Steps;

/// Gives a grid without rows those of every closed table, open exactly where they are open in every one.
pub(crate) fn reach<L: Ledger>(
    setup: &Setup,
    span: &Span,
    grid: &mut Marks,
    waiting: &mut Stack,
    steps: &mut Steps<L>,
)
    requires configured { IsSome (slice_index_or setup.now.machines span.now.machine None) }
    requires grid { grid.old ≡ replicate (contexts_of span.now) Absent }
    requires waiting { waiting.old ≡ record { numbers = []; room = 2 * contexts_of span.now } }
    ensures grid { IsReach setup.now span.now grid.new }
    ensures waiting { waiting.new ≡ record { numbers = []; room = 2 * contexts_of span.now } }
    ensures steps { steps.new ≤ steps.old + 2 * contexts_of span.now }
{
    let start = number_of(span.assume.follow(), &start_context(setup, span));
    raise(grid, waiting, start, Ages::Empty);
    while let Some(number) = waiting.pop() {
        visit(setup, span, grid, waiting, number, steps);
    }
}

/// Raises what the row of a number leads to, if it has one.
fn visit<L: Ledger>(
    setup: &Setup,
    span: &Span,
    grid: &mut Marks,
    waiting: &mut Stack,
    number: usize,
    steps: &mut Steps<L>,
)
    requires configured { IsSome (slice_index_or setup.now.machines span.now.machine None) }
    requires number { number < contexts_of span.now }
    requires sweep { Sweep setup.now span.now grid.old (number ∷ waiting.old.numbers) }
    requires room { room grid.old + length waiting.old.numbers ≤ waiting.old.room }
    ensures sweep { Sweep setup.now span.now grid.new waiting.new.numbers }
    ensures work { room grid.new + length waiting.new.numbers ≤ room grid.old + length waiting.old.numbers }
    ensures room { waiting.new.room ≡ waiting.old.room }
    ensures steps { steps.new ≤ steps.old + 1 }
{
    match grid.at(number) {
        Entry::Absent => {}
        Entry::Present(ages) => visit_row(setup, span, grid, waiting, number, ages, steps),
    }
}

/// Raises what the row of a number with these ages leads to.
fn visit_row<L: Ledger>(
    setup: &Setup,
    span: &Span,
    grid: &mut Marks,
    waiting: &mut Stack,
    number: usize,
    ages: Ages,
    steps: &mut Steps<L>,
)
    requires configured { IsSome (slice_index_or setup.now.machines span.now.machine None) }
    requires number { number < contexts_of span.now }
    requires entry { at grid.old number ≡ Present ages }
    requires sweep { Sweep setup.now span.now grid.old (number ∷ waiting.old.numbers) }
    requires room { room grid.old + length waiting.old.numbers ≤ waiting.old.room }
    ensures sweep { Sweep setup.now span.now grid.new waiting.new.numbers }
    ensures work { room grid.new + length waiting.new.numbers ≤ room grid.old + length waiting.old.numbers }
    ensures room { waiting.new.room ≡ waiting.old.room }
    ensures steps { steps.new ≤ steps.old + 1 }
{
    let mut stepped = Stepped::none();
    row_step(setup, span, number, ages, steps, &mut stepped);
    let follow = span.assume.follow();
    if stepped.narrowing.is_wide() {
        for next in stepped.ends.as_slice() {
            raise(grid, waiting, number_of(follow, &next.context), next.ages);
        }
    } else {
        let mut rest = stepped.nexts();
        while let Some(later) = rest.next() {
            raise(grid, waiting, number_of(follow, &later.context), later.ages);
        }
    }
}

/// Raises the entry of a number to hold these ages; where it didn't, the number waits.
fn raise(grid: &mut Marks, waiting: &mut Stack, number: usize, ages: Ages)
    requires number { number < length grid.old }
    requires room { room grid.old + length waiting.old.numbers ≤ waiting.old.room }
    ensures raised { Raised number ages grid.old grid.new waiting.old.numbers waiting.new.numbers }
    ensures room { waiting.new.room ≡ waiting.old.room }
{
    if !holds(ages, grid.at(number)) {
        waiting.push(number);
        grid.put(number, ContextMark::of(ages));
    }
}

/// Whether an entry is there, and open where these ages are.
fn holds(ages: Ages, entry: Entry) -> bool
    ensures { result ≡ spec.holds ages entry }
{
    match entry {
        Entry::Absent => false,
        Entry::Present(there) => !ages.is_open() || there.is_open(),
    }
}
