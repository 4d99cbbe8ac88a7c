//! The verdict on a span, and what it promises of every run.
ghost use Rattle.std.specs.Prelude.{◌≡◌, ◌↔◌, IfOk, IsSome, IsTrue, None, slice_index_or};
ghost use Rattle.pin_matrix.specs.Followed.{followed};
ghost use Rattle.span_bounds.specs.Tables.{IsClosed, IsGood};
ghost use Rattle.span_check.specs.Proved.{HoldsInEveryRun, VerdictHolds};
ghost use Rattle.span_verdict.specs.Sharing.{IsUnshared};
ghost use Rattle.span_verdict.specs.Verdicts.{IsVerdict};

use crate::laws::a_provable_span_holds_in_every_run;
use pin_matrix::{Setup, Span};
use span_bounds::Table;
use span_verdict::{Verdict, is_proof, judge};
use std::alloc::{AllocError, Global};

/// The verdict on a span, as `judge` of `span_verdict` gives it; a span that is proved holds in every run of the setup,
/// whatever the stimulus and the length. The span's machine is configured. The error is out of memory.
pub fn check(alloc: Global, setup: &Setup, span: &Span) -> Result<Verdict, AllocError>
    requires { IsSome (slice_index_or setup.now.machines span.now.machine None) }
    ensures verdict { IfOk result (λ verdict. IsVerdict setup.now span.now verdict) }
    ensures holds { IfOk result (λ verdict. VerdictHolds setup.now span.now verdict) }
{
    a_provable_span_holds_in_every_run();
    judge(alloc, setup, span)
}

/// Whether the table is closed and good, however it was made; then the span holds in every run of the setup, where no
/// other machine's mapping holds a pin of it. The span's machine is configured. It takes no memory.
pub fn recheck(table: &Table, setup: &Setup, span: &Span) -> bool
    requires configured { IsSome (slice_index_or setup.now.machines span.now.machine None) }
    requires follow { table.now.follow ≡ followed span.now }
    ensures sound { IsTrue result ↔ (IsClosed setup.now span.now table.now.rows × IsGood setup.now span.now table.now.rows) }
    ensures holds { IsTrue result → IsUnshared setup.now span.now → HoldsInEveryRun setup.now span.now }
{
    a_provable_span_holds_in_every_run();
    is_proof(table, setup, span)
}
