//! The meter of one span, clock by clock.
ghost use Rattle.std.specs.Prelude.{◌≡◌};
ghost use Rattle.span_meter.specs.Meters as spec;
ghost use Rattle.span_meter.specs.Spoken.{after_mark, dropped};

use crate::edges::Edges;
use crate::pins::ShownPins;
use crate::seen::SeenDistances;

/// What is known of the pairs of one span.
#[derive(Clone, Copy)]
pub(crate) struct Meter {
    pub(crate) edges: Edges,
    /// How many pairs there were, up to `u64::MAX`.
    pairs: u64,
    /// The least and the greatest distance.
    least: u64,
    most: u64,
    /// How many from-edges have no to-edge after them yet, up to `u64::MAX`.
    begun: u64,
    /// The clocks of the first and the last one of these.
    first: u64,
    last: u64,
}

impl Meter {
    /// The meter of a span before the first sample.
    pub(crate) fn new(edges: Edges) -> Meter
        ensures { result ≡ spec.fresh edges }
    {
        Meter {
            edges,
            pairs: 0,
            least: 0,
            most: 0,
            begun: 0,
            first: 0,
            last: 0,
        }
    }

    /// What was seen so far.
    pub(crate) fn seen(&self) -> SeenDistances
        ensures { result ≡ spec.seen_by self.now }
    {
        SeenDistances {
            pairs: self.pairs,
            least: self.least,
            most: self.most,
            assumed: None,
        }
    }

    /// The meter after a clock, by what is shown before and after it.
    #[tactic(auto, unfolding(crate::specs::Meters::after_clock))]
    pub(crate) fn after(self, clock: u64, before: ShownPins, pins: ShownPins) -> Meter
        ensures { result ≡ spec.after_clock clock before pins self }
    {
        let to = self.edges.is_to(before, pins);
        let from = self.edges.is_from(before, pins);
        self.moved(to, from, clock)
    }

    /// The meter after a clock, by whether its events come, and whether the pairs that are open are dropped first.
    pub(crate) fn after_mark(self, clock: u64, from: bool, to: bool, drops: bool) -> Meter
        ensures { result ≡ after_mark clock (record { from = from; to = to; drops = drops }) self }
    {
        self.dropped(drops).moved(to, from, clock)
    }

    fn dropped(self, drops: bool) -> Meter
        ensures { result ≡ dropped drops self }
    {
        if drops {
            Meter { begun: 0, ..self }
        } else {
            self
        }
    }

    /// The meter after a clock, by whether its edges come. A pair has its to-edge after the clock of its from-edge, so the to-edge
    /// goes first.
    fn moved(self, to: bool, from: bool, clock: u64) -> Meter
        ensures { result ≡ spec.moved to from clock self }
    {
        let ended = self.ended(to, clock);
        if from { ended.opened(clock) } else { ended }
    }

    fn ended(self, to: bool, clock: u64) -> Meter
        ensures { result ≡ spec.ended_where to clock self }
    {
        if to { self.closed(clock) } else { self }
    }

    /// The meter after a to-edge, which ends each pair that is open.
    #[tactic(auto, unfolding(crate::specs::Meters::closed_at))]
    fn closed(self, clock: u64) -> Meter
        ensures { result ≡ spec.closed_at clock self }
    {
        if self.begun == 0 {
            return self;
        }
        let nearest = clock.saturating_sub(self.last);
        let farthest = clock.saturating_sub(self.first);
        Meter {
            pairs: self.pairs.saturating_add(self.begun),
            least: if self.pairs == 0 {
                nearest
            } else {
                self.least.min(nearest)
            },
            most: self.most.max(farthest),
            begun: 0,
            ..self
        }
    }

    /// The meter after a from-edge, which opens a pair.
    #[tactic(auto, unfolding(crate::specs::Meters::opened_at))]
    fn opened(self, clock: u64) -> Meter
        ensures { result ≡ spec.opened_at clock self }
    {
        Meter {
            begun: self.begun.saturating_add(1),
            first: if self.begun == 0 { clock } else { self.first },
            last: clock,
            ..self
        }
    }
}
