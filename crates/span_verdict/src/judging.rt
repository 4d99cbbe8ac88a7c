//! The verdict on a span.
ghost use Rattle.std.specs.Prelude.{◌≡◌, IfOk, IsSome, None, slice_index_or};
ghost use Rattle.span_bounds.specs.Answers.{IsAnswer};
ghost use Rattle.span_verdict.specs.Sharing.{IsUnshared};
ghost use Rattle.span_verdict.specs.Verdicts.{IsVerdict};

use crate::opening::opens_and_closes;
use crate::sharing::shared_by;
use crate::verdict::Verdict;
use pin_matrix::{Setup, Span};
use span_bounds::{Derived, derive, each_entry_is_that_of_a_row};
use std::alloc::{AllocError, Global};

/// The verdict on a span: shared where another machine's mapping holds a pin of it, else proved exactly where some closed table
/// is good, else unproved. The span's machine is configured. The error is out of memory.
pub fn judge(alloc: Global, setup: &Setup, span: &Span) -> Result<Verdict, AllocError>
    requires { IsSome (slice_index_or setup.now.machines span.now.machine None) }
    ensures { IfOk result (λ verdict. IsVerdict setup.now span.now verdict) }
{
    match shared_by(setup, span) {
        Some(machine) => Ok(Verdict::Shared(machine)),
        None => Ok(judged(setup, span, derive(alloc, setup, span)?)),
    }
}

/// The verdict on a span that no other machine's mapping holds a pin of, by what was derived.
fn judged(setup: &Setup, span: &Span, derived: Derived) -> Verdict
    requires configured { IsSome (slice_index_or setup.now.machines span.now.machine None) }
    requires alone { IsUnshared setup.now span.now }
    requires answer { IsAnswer setup.now span.now derived }
    ensures { IsVerdict setup.now span.now result }
{
    each_entry_is_that_of_a_row();
    match derived {
        Derived::Closed(table) => {
            let (opens, closes) = opens_and_closes(&table, setup, span);
            Verdict::Proved {
                table,
                opens,
                closes,
            }
        }
        Derived::Bad { context, cause } => Verdict::Unproved(context, cause),
    }
}
