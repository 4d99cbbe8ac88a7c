//! What a span asks of a row.
ghost use Rattle.std.specs.Prelude.{◌≡◌, ◌+◌, ◌-◌, ◌*◌, ◌/◌, ◌<◌, ◌≤◌, ◌^◌, ◌||◌, IfSome};
ghost use Rattle.span_step.specs.Steps as spec;

use pin_matrix::{Addresses, MachineSetup, PinSignal, Span, SpanUnit};
use std::marker::Model;

/// Which edges and ends are events in the row, the bounds in ticks, whether `max` is one, whether stalls at the row's address are
/// left out, and whether they excuse. The type keeps `max` below 2^24.
#[derive(Clone, Copy)]
pub(crate) struct Rules {
    pub(crate) from_rise: bool,
    pub(crate) from_edges: bool,
    pub(crate) from_ends: bool,
    pub(crate) to_rise: bool,
    pub(crate) to_edges: bool,
    pub(crate) to_ends: bool,
    pub(crate) min: u32,
    pub(crate) max: u32,
    pub(crate) bounded: bool,
    pub(crate) named: bool,
    pub(crate) excuses: bool,
}

impl Model for Rules {
    ghost use Rattle.std.specs.Prelude.{◌<◌, ◌^◌};
    ghost use Rattle.span_step.specs.Courses as spec;

    ghost Value = { spec.Rules };

    ghost view = { λ r. record {
      from_rise = r.from_rise;
      from_edges = r.from_edges;
      from_ends = r.from_ends;
      to_rise = r.to_rise;
      to_edges = r.to_edges;
      to_ends = r.to_ends;
      min = r.min;
      max = r.max;
      bounded = r.bounded;
      named = r.named;
      excuses = r.excuses;
    } };

    ghost invariant = { λ r. r.max < 2 ^ 24 };

    ghost inverse = { λ r. record {
      from_rise = r.from_rise;
      from_edges = r.from_edges;
      from_ends = r.from_ends;
      to_rise = r.to_rise;
      to_edges = r.to_edges;
      to_ends = r.to_ends;
      min = r.min;
      max = r.max;
      bounded = r.bounded;
      named = r.named;
      excuses = r.excuses;
    } };
}

impl Rules {
    /// What the span asks of a row at this address.
    #[tactic(auto, unfolding(crate::specs::Steps::rules_of))]
    pub(crate) fn of(machine: &MachineSetup, span: &Span, address: u8) -> Rules
        ensures { result ≡ spec.rules_of machine.now span.now address }
    {
        let (min, max) = bounds(span, machine);
        let named = is_named(span, address);
        let (from_edges, from_ends) = events(span.from_signal, &span.from_at, address);
        let (to_edges, to_ends) = events(span.to_signal, &span.to_at, address);
        Rules {
            from_rise: span.from_rise,
            from_edges,
            from_ends,
            to_rise: span.to_rise,
            to_edges,
            to_ends,
            min,
            max,
            bounded: span.max.is_some(),
            named,
            excuses: span.prompt && !named,
        }
    }

    /// Whether the end of the row's instruction is an event.
    pub(crate) fn has_ends(&self) -> bool
        ensures { result ≡ (self.now.from_ends || self.now.to_ends) }
    {
        self.from_ends || self.to_ends
    }
}

/// The age at which ages stop.
#[tactic(auto, unfolding(crate::specs::Steps::bounds_of))]
pub(crate) fn cap_in(machine: &MachineSetup, span: &Span) -> u32
    ensures value { result ≡ (spec.bounds_of span.now machine.now).1 + 1 }
    ensures fits { result ≤ 2 ^ 24 }
{
    let (_, most) = bounds(span, machine);
    most + 1
}

/// Whether edges in the row of an address are events, and whether the end of the instruction there is one.
fn events(watched: Option<PinSignal>, at: &Addresses, address: u8) -> (bool, bool)
    ensures edges { result.0 ≡ spec.are_edges_events watched at.now address }
    ensures ends { result.1 ≡ spec.is_end_event watched at.now address }
{
    match watched {
        Some(_) => (at.as_slice().is_empty() || is_among(at, address), false),
        None => (false, is_among(at, address)),
    }
}

/// Whether an address is one of these.
fn is_among(addresses: &Addresses, address: u8) -> bool
    ensures { result ≡ spec.is_among addresses.now address }
{
    addresses.as_slice().iter().any(|one| *one == address)
}

/// Whether stalls at an address are left out.
fn is_named(span: &Span, address: u8) -> bool
    ensures { result ≡ spec.is_named span.now address }
{
    is_among(&span.stalls, address)
}

/// Whether ways through an address are left out.
pub(crate) fn is_left_out(span: &Span, address: u8) -> bool
    ensures { result ≡ spec.is_left_out span.now address }
{
    is_among(&span.without, address)
}

/// The span's bounds in ticks of the machine.
#[tactic(auto, unfolding(crate::specs::Steps::bounds_of))]
fn bounds(span: &Span, machine: &MachineSetup) -> (u32, u32)
    ensures value { result ≡ spec.bounds_of span.now machine.now }
    ensures most { result.1 < 2 ^ 24 }
{
    match span.unit {
        SpanUnit::Ticks => (span.min, most_or(span.min, span.max)),
        SpanUnit::Clocks => {
            let period = period(machine);
            let least = least_ticks(span.min, period);
            let most = match span.max {
                Some(max) => Some(most_ticks(max, period)),
                None => None,
            };
            (least, most_or(least, most))
        }
    }
}

/// The greatest bound with a least one, or what is in its place.
fn most_or(least: u32, most: Option<u32>) -> u32
    requires least { least < 2 ^ 24 }
    requires most { IfSome most (λ m. m < 2 ^ 24) }
    ensures value { result ≡ spec.most_or least most }
    ensures fits { result < 2 ^ 24 }
{
    match most {
        Some(most) => most,
        None => least.saturating_sub(1),
    }
}

/// The clocks of 256 ticks.
fn period(machine: &MachineSetup) -> u64
    ensures value { result ≡ spec.period_of machine.now }
    ensures least { 256 ≤ result }
    ensures most { result ≤ 2 ^ 24 }
{
    let whole = if machine.int == 0 {
        65_536
    } else {
        u64::from(machine.int)
    };
    256 * whole + u64::from(machine.frac)
}

/// The least number of ticks that takes at least so many clocks.
fn least_ticks(clocks: u32, period: u64) -> u32
    requires clocks { clocks < 2 ^ 24 }
    requires least { 256 ≤ period }
    requires most { period ≤ 2 ^ 24 }
    ensures value { result ≡ spec.least_ticks clocks period }
    ensures most { result ≤ clocks }
{
    ((256 * u64::from(clocks) + period - 1) / period) as u32
}

/// The greatest number of ticks that takes at most so many clocks.
fn most_ticks(clocks: u32, period: u64) -> u32
    requires { 256 ≤ period }
    ensures value { result ≡ spec.most_ticks period clocks }
    ensures most { result ≤ clocks }
{
    (256 * u64::from(clocks) / period) as u32
}
