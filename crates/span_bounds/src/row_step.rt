//! One row worked out.
ghost use Rattle.std.specs.Prelude.{◌≡◌, ◌+◌, ◌<◌, [], IsSome, None, slice_index_or};
ghost use Rattle.pin_matrix.specs.Followed.{followed};
ghost use Rattle.span_bounds.specs.Numbers.{context_at, contexts_of};
ghost use Rattle.span_step.specs.Steps.{context_steps};

use crate::number;
use pin_matrix::{Setup, Span};
use span_step::{Ages, Stepped, find_step};
use std::sync::ledger::Ledger;
use step_count::Steps;

/// Finds the step of the row of a number with these ages, which is counted.
pub(crate) fn row_step<L: Ledger>(
    setup: &Setup,
    span: &Span,
    number: usize,
    ages: Ages,
    steps: &mut Steps<L>,
    found: &mut Stepped,
)
    requires configured { IsSome (slice_index_or setup.now.machines span.now.machine None) }
    requires number { number < contexts_of span.now }
    requires nothing { found.old.ends ≡ [] }
    ensures value { found.new ≡ context_steps setup.now span.now (context_at (followed span.now) number) ages }
    ensures steps { steps.new ≡ steps.old + 1 }
{
    steps.count();
    let context = number::context_at(span.assume.follow(), number);
    find_step(setup, span, &context, &ages, found);
}
