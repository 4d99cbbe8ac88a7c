//! A span between two events, edges of pins or ends of instructions, with its bounds.
ghost use Rattle.std.specs.Prelude.{◌≡◌, ◌<◌, ◌≤◌, ◌||◌, ◌==◌, ◌^◌, length, IsTrue};
ghost use Rattle.std.specs.Option.{ForSome};
ghost use Rattle.pin_matrix.specs.Spans as spec;
ghost use Rattle.pin_matrix.specs.Spans.{is_in_ticks, is_span_name};

use crate::assume::Assumptions;
use pio_encode::Name;
use std::alloc::Global;
use std::marker::Model;

/// The most addresses that a key of a span names.
const MOST_ADDRESSES: usize = 16;

/// The most spans of a block.
const MOST_SPANS: usize = 64;

/// What a span's bounds count.
#[derive(Clone, Copy, PartialEq)]
pub enum SpanUnit {
    /// Ticks of the machine, less those stalled at the addresses that the span names.
    Ticks,
    /// System clocks.
    Clocks,
}

/// What of a pin an edge is a change of.
#[derive(Clone, Copy, PartialEq)]
pub enum PinSignal {
    /// The level that the block drives.
    Level,
    /// The direction, high where it is out.
    Direction,
}

/// Addresses that a span names, each 0 to 31 and at most 16.
#[derive(Drop)]
pub struct Addresses {
    addresses: Vec<u8>,
}

impl Model for Addresses {
    ghost use Rattle.std.specs.Prelude.{List, ℕ, IsTrue};
    ghost use Rattle.pin_matrix.specs.Spans.{are_few_addresses};

    ghost Value = { List ℕ };

    ghost view = { λ a. a.addresses.items };

    ghost invariant = { λ a. IsTrue (are_few_addresses a.addresses.items) };
}

impl Addresses {
    ghost use Rattle.std.specs.Prelude.{◌≡◌, if◌then◌else◌, Some, None, [], IsTrue};
    ghost use Rattle.pin_matrix.specs.Spans.{are_few_addresses};

    /// These addresses, unless there are more than 16 or one is above 31. It takes no memory.
    pub fn new(addresses: Vec<u8>) -> Option<Addresses>
        ensures { result
            ≡ (if are_few_addresses addresses.items then Some addresses.items else None) }
    {
        if are_few_addresses(&addresses) {
            Some(Addresses { addresses })
        } else {
            None
        }
    }

    /// No addresses. It takes no memory.
    pub fn empty(alloc: Global) -> Addresses
        ensures { result ≡ [] }
    {
        Addresses {
            addresses: Vec::new(alloc),
        }
    }

    /// The addresses in their order.
    pub fn as_slice(&self) -> &[u8]
        ensures list { result.now ≡ self.now }
        ensures kept { IsTrue (are_few_addresses self.now) }
    {
        self.addresses.as_slice()
    }

    /// The list that it was made of, with its memory.
    pub fn into_vec(self) -> Vec<u8>
        ensures { result.items ≡ self }
    {
        self.addresses
    }
}

fn are_few_addresses(addresses: &[u8]) -> bool
    ensures { result ≡ spec.are_few_addresses addresses.now }
{
    addresses.len() <= MOST_ADDRESSES && are_addresses(addresses)
}

fn are_addresses(bytes: &[u8]) -> bool
    ensures { result ≡ spec.are_addresses bytes.now }
{
    bytes.iter().all(|byte| *byte < 32)
}

/// From each from-event to the first to-event after it, so much time is asked.
#[derive(Drop)]
pub struct Span {
    /// 1 to 32 letters, digits, `_` or `-`.
    pub name: Name,
    /// The machine whose ticks count: 0 to 3.
    pub machine: u8,
    /// 0 to 31; 0 where no signal is watched.
    pub from_pin: u8,
    /// What of the pin changes. `None`: the from-event is no edge but the end of an instruction at one of `from_at`.
    pub from_signal: Option<PinSignal>,
    /// A rise of the level, or the direction becomes out; else a fall, or it becomes in.
    pub from_rise: bool,
    /// As of the from-event.
    pub to_pin: u8,
    /// As of the from-event, with `to_at`.
    pub to_signal: Option<PinSignal>,
    /// As of the from-event.
    pub to_rise: bool,
    pub unit: SpanUnit,
    /// The least that is right: up to 16,777,215, and at most `max` where there is one.
    pub min: u32,
    /// The most that is right: up to 16,777,215. `None` where there is no greatest bound.
    pub max: Option<u32>,
    /// Where stalls don't count. Empty for a span in clocks.
    pub stalls: Addresses,
    /// Nothing is said of a from-edge after which the machine waits, but at one of `stalls`.
    pub prompt: bool,
    /// Nothing is said of a from-edge after which the machine comes to one of these.
    pub without: Addresses,
    /// Of an edge, the instructions that may make it, any where none is named. Else the instructions whose end it is.
    pub from_at: Addresses,
    /// As of the from-event.
    pub to_at: Addresses,
    /// Nothing is said once X or Y isn't as assumed.
    pub assume: Assumptions,
    pub ghost named: { IsTrue (is_span_name name) },
    pub ghost machine_in_block: { machine < 4 },
    pub ghost from_pin_is_a_pin: { from_pin < 32 },
    pub ghost to_pin_is_a_pin: { to_pin < 32 },
    pub ghost ordered: { ForSome max (λ m. min ≤ m) },
    pub ghost min_fits: { min < 2 ^ 24 },
    pub ghost bounded: { ForSome max (λ m. m < 2 ^ 24) },
    pub ghost stalls_in_ticks: { IsTrue (is_in_ticks unit || length stalls == 0) },
}

/// At most 64 spans in the order of their configuration, seen as their list.
#[derive(Drop)]
pub struct Spans {
    spans: Vec<Span>,
}

impl Model for Spans {
    ghost use Rattle.std.specs.Prelude.{List, length, ◌≤◌};
    ghost use Rattle.pin_matrix.specs.declared.span.Span.{Span};

    ghost Value = { List Span };

    ghost view = { λ s. s.spans.items };

    ghost invariant = { λ s. length s.spans.items ≤ 64 };
}

impl Spans {
    ghost use Rattle.std.specs.Prelude.{◌≡◌, ◌≤◌, nat_le, length, if◌then◌else◌, Some, None, []};

    /// These spans, unless there are more than 64. It takes no memory.
    pub fn new(spans: Vec<Span>) -> Option<Spans>
        ensures { result
            ≡ (if nat_le (length spans.items) 64 then Some spans.items else None) }
    {
        if spans.len() <= MOST_SPANS {
            Some(Spans { spans })
        } else {
            None
        }
    }

    /// No spans. It takes no memory.
    pub fn empty(alloc: Global) -> Spans
        ensures { result ≡ [] }
    {
        Spans {
            spans: Vec::new(alloc),
        }
    }

    /// The spans in their order.
    pub fn as_slice(&self) -> &[Span]
        ensures list { result.now ≡ self.now }
        ensures few { length self.now ≤ 64 }
    {
        self.spans.as_slice()
    }

    /// The list that it was made of, with its memory.
    pub fn into_vec(self) -> Vec<Span>
        ensures { result.items ≡ self }
    {
        self.spans
    }
}
