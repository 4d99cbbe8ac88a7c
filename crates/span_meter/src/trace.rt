//! The trace that measures spans.
ghost use Rattle.std.specs.Prelude.{◌≡◌, ◌<◌, Some, List, [], false, IfOk, length, map, slice_get};
ghost use Rattle.span_meter.specs.declared.pins.ShownPins.{ShownPins};
ghost use Rattle.span_meter.specs.Measured.{SpanEdges, ends_in};
ghost use Rattle.span_meter.specs.Meters.{HasMeasured, after_clock, first_told, fresh, seen_so_far, watched};

use crate::edges::Edges;
use crate::meter::Meter;
use crate::pins::ShownPins;
use crate::seen::SeenDistances;
use block_core::Sample;
use pin_matrix::Span;
use sample_trace::{Trace, TraceFailed};
use std::alloc::{AllocError, Global};
use std::marker::Model;

/// What spans measure in the samples that it was told of, in clocks for spans of either unit. It never fails.
#[derive(Drop)]
pub struct SpanMeter {
    first: ShownPins,
    last: ShownPins,
    meters: Vec<Meter>,
}

impl Model for SpanMeter {
    ghost use Rattle.span_meter.specs.Meters.{Meters};

    ghost Value = { Meters };

    ghost view = { λ t. record { first = t.first; last = t.last; meters = t.meters.items } };
}

impl SpanMeter {
    /// A meter of these spans before the first sample. Before the first one the pins are these.
    /// The error is out of memory; no other call takes any.
    pub fn new(alloc: Global, spans: &[Span], pins: ShownPins) -> Result<SpanMeter, AllocError>
        ensures { IfOk result (λ t. HasMeasured pins (map ends_in spans.now) [] t) }
    {
        let meters = meters_of(alloc, spans)?;
        Ok(SpanMeter {
            first: pins,
            last: pins,
            meters,
        })
    }

    /// What was measured of a span, by its place in the list that the meter was made for.
    pub fn seen(&self, span: usize) -> SeenDistances
        requires { span < length (seen_so_far self.now) }
        ensures { slice_get (seen_so_far self.now) span ≡ Some result }
    {
        self.meters[span].seen()
    }
}

impl Trace<Sample> for SpanMeter {
    ghost name = { λ _. 0 };

    ghost faults = { λ _. 0 };

    ghost has_failed = { λ _. false };

    ghost ready = { λ t b. b ≡ first_told t.first (watched t.meters) };

    ghost holds = { λ t b l _. (pins : ShownPins) (ends : List SpanEdges) → b ≡ first_told pins ends
        → HasMeasured pins ends l t };

    ghost broken = { λ _ _ _ _. ⊥ };

    fn begin(&mut self) -> Result<(), TraceFailed> {
        self.last = self.first;
        begin_all(&mut self.meters);
        Ok(())
    }

    fn sample(&mut self, clock: u64, sample: &Sample) -> Result<(), TraceFailed> {
        let pins = ShownPins {
            level: sample.level,
            direction: sample.direction,
        };
        tell_all(&mut self.meters, clock, self.last, pins);
        self.last = pins;
        Ok(())
    }

    fn end(&mut self, _clock: u64) -> Result<(), TraceFailed> {
        Ok(())
    }

    fn failed(&self) -> bool {
        false
    }
}

/// A meter for each span.
fn meters_of(alloc: Global, spans: &[Span]) -> Result<Vec<Meter>, AllocError>
    ensures { IfOk result (λ meters. meters.items ≡ map (λ m. fresh m.edges) meters.items
        × watched meters.items ≡ map ends_in spans.now) }
{
    let mut meters = Vec::with_capacity(alloc, spans.len())?;
    for span in spans {
        meters.push(Meter::new(Edges::of(span)))?;
    }
    Ok(meters)
}

/// Each meter begins anew.
fn begin_all(meters: &mut [Meter])
    ensures { meters.new ≡ map (λ m. fresh m.edges) meters.old }
{
    for meter in meters {
        *meter = Meter::new(meter.edges);
    }
}

/// Tells each meter of a clock, by what is shown before and after it.
fn tell_all(meters: &mut [Meter], clock: u64, before: ShownPins, pins: ShownPins)
    ensures { meters.new ≡ map (after_clock clock before pins) meters.old }
{
    for meter in meters {
        *meter = meter.after(clock, before, pins);
    }
}
