//! What is known of one span that speaks not of every pair of its events.
ghost use Rattle.std.specs.Prelude.{◌≡◌};
ghost use Rattle.span_meter.specs.SpokenMeters as spec;
ghost use Rattle.span_meter.specs.SpokenMeters.{clocks_gone};

use crate::assumed::Assumed;
use crate::edges::Edges;
use crate::meter::Meter;
use crate::seen::SeenDistances;

/// What is known of the pairs of one span, and of what it assumes.
#[derive(Clone, Copy)]
pub(crate) struct SpokenSpan {
    pub(crate) meter: Meter,
    pub(crate) assumed: Assumed,
}

impl SpokenSpan {
    /// What is known before the first clock.
    pub(crate) fn new(edges: Edges) -> SpokenSpan
        ensures { result ≡ spec.fresh_spoken edges }
    {
        SpokenSpan {
            meter: Meter::new(edges),
            assumed: Assumed::new(),
        }
    }

    /// What was seen so far, where this is the last clock that has gone by.
    pub(crate) fn seen(&self, gone: Option<u64>) -> SeenDistances
        ensures { result ≡ spec.seen_spoken (clocks_gone gone) self.now }
    {
        SeenDistances {
            assumed: self.assumed.end(gone),
            ..self.meter.seen()
        }
    }
}
