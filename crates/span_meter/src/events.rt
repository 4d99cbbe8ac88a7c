//! The events of a span in a clock, and what it doesn't speak of, by what its machine did.
ghost use Rattle.std.specs.Prelude.{◌≡◌, ◌<◌};
ghost use Rattle.span_meter.specs.Events as spec;
ghost use Rattle.span_meter.specs.Events.{events_in};
ghost use Rattle.span_meter.specs.SpokenMeters as spec_meters;

use crate::levels::has_edge;
use crate::pins::ShownPins;
use crate::selective::is_selective;
use crate::spoken_span::SpokenSpan;
use block_core::{Conduct, MachineConduct};
use pin_matrix::{Span, SpanUnit};

/// What is known of a span after a clock, by the pins before it and what is told after it.
pub(crate) fn after_told(
    span: &Span,
    clock: u64,
    before: ShownPins,
    told: &Conduct,
    known: SpokenSpan,
) -> SpokenSpan
    ensures { result ≡ spec_meters.after_told clock before told.now span.now known }
{
    let did = conduct_of(clock, span.machine, told);
    let assumed = known.assumed.after(clock, span.assume.as_slice(), &did);
    if assumed.is_over_by(clock) {
        return SpokenSpan { assumed, ..known };
    }
    let pins = ShownPins {
        level: told.level,
        direction: told.direction,
    };
    let from = from_comes(span, before, pins, &did);
    let to = to_comes(span, before, pins, &did);
    let meter = known
        .meter
        .after_mark(clock, from, to, is_dropped(span, &did));
    SpokenSpan { meter, assumed }
}

/// What the machine with this number did in the clock, where that is the clock of note that is told of.
fn conduct_of(clock: u64, machine: u8, told: &Conduct) -> Option<MachineConduct>
    requires { machine < 4 }
    ensures { result ≡ spec.conduct_of clock machine told.now }
{
    if told.clock == clock {
        told.machines[usize::from(machine)]
    } else {
        None
    }
}

/// Whether the from-event comes, by the pins before and after a clock and what the span's machine did in it.
fn from_comes(
    span: &Span,
    before: ShownPins,
    after: ShownPins,
    did: &Option<MachineConduct>,
) -> bool
    ensures { result ≡ spec.comes (events_in span.now).from before after did.now }
{
    let at = span.from_at.as_slice();
    if span.from_signal.is_none() {
        return finishes_at(at, did);
    }
    let (was, is) = (
        before.signal(span.from_signal),
        after.signal(span.from_signal),
    );
    has_edge(span.from_pin, span.from_rise, was, is) && is_made_at(at, did)
}

/// Whether the to-event comes.
fn to_comes(span: &Span, before: ShownPins, after: ShownPins, did: &Option<MachineConduct>) -> bool
    ensures { result ≡ spec.comes (events_in span.now).to before after did.now }
{
    let at = span.to_at.as_slice();
    if span.to_signal.is_none() {
        return finishes_at(at, did);
    }
    let (was, is) = (before.signal(span.to_signal), after.signal(span.to_signal));
    has_edge(span.to_pin, span.to_rise, was, is) && is_made_at(at, did)
}

/// Whether the span doesn't speak of the from-events before a clock any more.
fn is_dropped(span: &Span, did: &Option<MachineConduct>) -> bool
    ensures { result ≡ spec.is_dropped (events_in span.now) did.now }
{
    match did {
        Some(did) => {
            let stays = is_one_of(span.stalls.as_slice(), did.pc);
            let leaves = is_one_of(span.without.as_slice(), did.pc);
            let cut = is_cut(span.unit) && is_selective(span);
            (did.waits && (span.prompt && !stays)) || ((did.comes && leaves) || (cut && did.breaks))
        }
        None => false,
    }
}

fn is_cut(unit: SpanUnit) -> bool
    ensures { result ≡ spec.is_cut unit }
{
    match unit {
        SpanUnit::Ticks => false,
        SpanUnit::Clocks => true,
    }
}

/// Whether one of these instructions makes the edges of a clock, or any where none is named.
fn is_made_at(addresses: &[u8], did: &Option<MachineConduct>) -> bool
    ensures { result ≡ spec.is_made_at addresses.now did.now }
{
    addresses.is_empty() || works_at(addresses, did)
}

fn works_at(addresses: &[u8], did: &Option<MachineConduct>) -> bool
    ensures { result ≡ spec.works_at addresses.now did.now }
{
    match did {
        Some(did) => did.works && is_one_of(addresses, did.pc),
        None => false,
    }
}

fn finishes_at(addresses: &[u8], did: &Option<MachineConduct>) -> bool
    ensures { result ≡ spec.finishes_at addresses.now did.now }
{
    match did {
        Some(did) => did.finishes && is_one_of(addresses, did.pc),
        None => false,
    }
}

fn is_one_of(addresses: &[u8], address: u8) -> bool
    ensures { result ≡ spec.is_one_of addresses.now address }
{
    addresses.iter().any(|named| *named == address)
}
