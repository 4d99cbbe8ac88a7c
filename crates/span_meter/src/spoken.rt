//! The trace that measures spans which speak not of every pair of their events.
ghost use Rattle.std.specs.Prelude.{◌≡◌, ◌<◌, Some, List, [], false, IfOk, length, map, slice_get};
ghost use Rattle.span_meter.specs.declared.pins.ShownPins.{ShownPins};
ghost use Rattle.span_meter.specs.Events.{SpanEvents, events_in};
ghost use Rattle.span_meter.specs.SpokenMeters as spec;
ghost use Rattle.span_meter.specs.SpokenMeters.{AreTimely, HasSpoken, fresh_spoken, spoken_so_far, spoken_told};

use crate::edges::Edges;
use crate::events::after_told;
use crate::pins::ShownPins;
use crate::seen::SeenDistances;
use crate::spoken_span::SpokenSpan;
use block_core::Conduct;
use pin_matrix::Span;
use sample_trace::{Trace, TraceFailed};
use std::alloc::{AllocError, Global};
use std::marker::Model;

/// What spans measure of the pairs that they speak of, in clocks for spans of either unit, by what the machines did. It never fails.
#[derive(Drop)]
pub struct SpokenMeter<'a> {
    first: ShownPins,
    last: ShownPins,
    /// The last clock that has gone by.
    gone: Option<u64>,
    spans: &'a [Span],
    known: Vec<SpokenSpan>,
}

impl<'a> Model for SpokenMeter<'a> {
    ghost use Rattle.std.specs.Prelude.{length, ◌≡◌};
    ghost use Rattle.span_meter.specs.SpokenMeters.{SpokenMeters};

    ghost Value = { SpokenMeters };

    ghost view = { λ t. record { first = t.first; last = t.last; gone = t.gone; spans = t.spans.now; known = t.known.items } };

    ghost invariant = { λ t. length t.known.items ≡ length t.spans.now };
}

impl<'a> SpokenMeter<'a> {
    /// A meter of these spans before the first clock. Before it the pins are these.
    /// The error is out of memory; no other call takes any.
    pub fn new(
        alloc: Global,
        spans: &'a [Span],
        pins: ShownPins,
    ) -> Result<SpokenMeter<'a>, AllocError>
        ensures { IfOk result (λ t. HasSpoken pins (map events_in spans.now) [] t) }
    {
        let known = known_of(alloc, spans)?;
        Ok(SpokenMeter {
            first: pins,
            last: pins,
            gone: None,
            spans,
            known,
        })
    }

    /// What was measured of a span, by its place in the list that the meter was made for.
    pub fn seen(&self, span: usize) -> SeenDistances
        requires { span < length (spoken_so_far self.now) }
        ensures { slice_get (spoken_so_far self.now) span ≡ Some result }
    {
        self.known[span].seen(self.gone)
    }
}

impl<'a> Trace<Conduct> for SpokenMeter<'a> {
    ghost name = { λ _. 0 };

    ghost faults = { λ _. 0 };

    ghost has_failed = { λ _. false };

    ghost ready = { λ t b. b ≡ spoken_told t.first (map events_in t.spans) };

    ghost holds = { λ t b l _. (pins : ShownPins) (events : List SpanEvents) → b ≡ spoken_told pins events
        → AreTimely 0 l → HasSpoken pins events l t };

    ghost broken = { λ _ _ _ _. ⊥ };

    fn begin(&mut self) -> Result<(), TraceFailed> {
        self.last = self.first;
        self.gone = None;
        begin_each(&mut self.known);
        Ok(())
    }

    fn sample(&mut self, clock: u64, shown: &Conduct) -> Result<(), TraceFailed> {
        tell_each(self.spans, &mut self.known, clock, self.last, shown);
        self.gone = Some(clock);
        self.last = ShownPins {
            level: shown.level,
            direction: shown.direction,
        };
        Ok(())
    }

    fn end(&mut self, clock: u64) -> Result<(), TraceFailed> {
        let gone = clock.checked_sub(1);
        self.gone = gone;
        Ok(())
    }

    fn failed(&self) -> bool {
        false
    }
}

/// What is known of each span before the first clock.
fn known_of(alloc: Global, spans: &[Span]) -> Result<Vec<SpokenSpan>, AllocError>
    ensures { IfOk result (λ known. known.items ≡ map (λ s. fresh_spoken s.meter.edges) known.items
        × length known.items ≡ length spans.now) }
{
    let mut known = Vec::with_capacity(alloc, spans.len())?;
    for span in spans {
        known.push(SpokenSpan::new(Edges::of(span)))?;
    }
    Ok(known)
}

/// What is known of each begins anew.
fn begin_each(known: &mut [SpokenSpan])
    ensures { known.new ≡ map (λ s. fresh_spoken s.meter.edges) known.old }
{
    for span in known {
        *span = SpokenSpan::new(span.meter.edges);
    }
}

/// Each span is told of a clock, by the pins before it and what is told after it.
fn tell_each(
    spans: &[Span],
    known: &mut [SpokenSpan],
    clock: u64,
    before: ShownPins,
    told: &Conduct,
)
    ensures { known.new ≡ spec.tell_each clock before told.now spans.now known.old }
{
    let many = spans.len().min(known.len());
    for place in 0..many {
        known[place] = after_told(&spans[place], clock, before, told, known[place]);
    }
}
