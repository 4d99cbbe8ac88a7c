//! The law of the timing checker for two blocks on one set of pins, on a function that does nothing.
ghost use Rattle.std.specs.Prelude.{ℕ, IsSome, List, None, slice_index_or};
ghost use Rattle.pin_matrix.specs.declared.setup.Setup.{Setup};
ghost use Rattle.pin_matrix.specs.declared.span.Span.{Span};
ghost use Rattle.dreq_pacing.specs.declared.line.Line.{Line};
ghost use Rattle.span_bounds.specs.Tables.{IsProvable};
ghost use Rattle.span_verdict.specs.Sharing.{IsUnshared};
ghost use Rattle.span_check.specs.Pairs.{HoldsInFirst, HoldsInSecond};

use crate::laws::a_provable_span_holds_in_every_run;
use block_core::{two_blocks_see_the_same_pads, two_stimuli_are_a_system};

/// Where a span is provable in its own setup and no other machine of this block holds a pin of it, the span holds in
/// every run of two blocks on one set of pins, whichever of them is its own, whatever the other is, whichever pins the
/// second owns, and whatever both stimuli and the length are. The span's machine is configured.
pub fn a_provable_span_holds_in_every_pair()
    ensures first { (own : ℕ) (s t : Setup) (sp : Span) → IsSome (slice_index_or s.machines sp.machine None)
        → IsProvable s sp → IsUnshared s sp
        → (first second : List Line) (n : ℕ) → HoldsInFirst sp own s t first second n }
    ensures second { (own : ℕ) (s t : Setup) (sp : Span) → IsSome (slice_index_or t.machines sp.machine None)
        → IsProvable t sp → IsUnshared t sp
        → (first second : List Line) (n : ℕ) → HoldsInSecond sp own s t first second n }
{
    a_provable_span_holds_in_every_run();
    two_blocks_see_the_same_pads();
    two_stimuli_are_a_system();
}
