//! Laws of the distances that spans speak of, on functions that do nothing.
ghost use Rattle.std.specs.Prelude.{◌≡◌, ℕ, List, false, length};
ghost use Rattle.std.specs.List.{AllByRecursion};
ghost use Rattle.pin_matrix.specs.declared.span.Span.{Span};
ghost use Rattle.dreq_pacing.specs.declared.line.Line.{Line};
ghost use Rattle.block_core.specs.Block.{Run};
ghost use Rattle.block_core.specs.Conduct.{conducts};
ghost use Rattle.block_core.specs.Hosted.{samples};
ghost use Rattle.span_meter.specs.Events.{events_in, is_selective, marks};
ghost use Rattle.span_meter.specs.Measured.{ends_in, measured, pins_in};
ghost use Rattle.span_meter.specs.Spoken.{AreMarksFrom, IsOfPair, Mark, spoken};

/// Each distance is that of a from-event and the first to-event after it, between which no clock drops it, that of the to-event
/// included.
pub fn a_distance_is_that_of_a_pair()
    ensures { (at : ℕ → Mark) (marks : List Mark) → AreMarksFrom at 0 marks
        → AllByRecursion (IsOfPair at (length marks)) (spoken marks) }
{}

/// Of a span that speaks of every pair, what the machines did shows the distances that the samples show.
pub fn a_plain_span_measures_every_pair()
    ensures { (start : Run) (sp : Span) (lines : List Line) (clocks : ℕ) → is_selective sp ≡ false
        → spoken (marks (events_in sp) 0 (pins_in start.state) (conducts start lines clocks))
        ≡ measured (ends_in sp) (pins_in start.state) (samples start lines clocks) }
{}
