//! The laws of measured spans, on functions that do nothing.
ghost use Rattle.std.specs.Prelude.{◌≡◌, ℕ, IsSome, List, None, false, slice_index_or};
ghost use Rattle.pin_matrix.specs.declared.setup.Setup.{Setup};
ghost use Rattle.pin_matrix.specs.declared.span.Span.{Span};
ghost use Rattle.pin_matrix.specs.declared.span.SpanUnit.TheVariants.{Clocks};
ghost use Rattle.dreq_pacing.specs.declared.line.Line.{Line};
ghost use Rattle.span_bounds.specs.Tables.{IsProvable};
ghost use Rattle.span_verdict.specs.Sharing.{IsUnshared};
ghost use Rattle.span_meter.specs.Events.{is_selective};
ghost use Rattle.span_check.specs.Runs.{marks_in};
ghost use Rattle.span_seen.specs.Ends.{IsAssumedUpTo};
ghost use Rattle.span_seen.specs.Within.{IsUndisturbed, IsWithin, measured_in};

use span_check::a_provable_span_holds_in_every_run;
use span_meter::{a_distance_is_that_of_a_pair, a_plain_span_measures_every_pair};

/// Where a span in clocks is provable, and no other machine's mapping holds a pin of it, each distance that it measures
/// is within its bounds, whatever the stimulus and the length. One that speaks of every pair of its edges measures
/// those too after which a line disables or restarts its machine: so of it no line may. The others leave such pairs
/// out. The span's machine is configured.
pub fn a_proved_span_is_seen_within_its_bounds()
    ensures { (u : Setup) (sp : Span) → IsSome (slice_index_or u.machines sp.machine None)
        → IsProvable u sp → IsUnshared u sp → sp.unit ≡ Clocks
        → (lines : List Line) (n : ℕ) → (is_selective sp ≡ false → IsUndisturbed u sp lines n)
        → IsWithin sp.min sp.max (measured_in u sp lines n) }
{
    a_provable_span_holds_in_every_run();
    a_distance_is_that_of_a_pair();
    a_plain_span_measures_every_pair();
}

/// The clock up to which a span is measured is the first one such that in it the delay is over after an instruction
/// that finished in it or before and left X or Y otherwise than assumed. None is told exactly where no clock that was
/// measured is such a one. The span's machine is configured.
pub fn the_end_of_what_is_assumed_is_told()
    ensures { (u : Setup) (sp : Span) → IsSome (slice_index_or u.machines sp.machine None)
        → (lines : List Line) (n : ℕ) → IsAssumedUpTo (marks_in sp u lines) n (measured_in u sp lines n).assumed }
{}
