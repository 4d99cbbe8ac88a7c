//! The setup and the span of a row.
ghost use Rattle.std.specs.Prelude.{◌≡◌, ◌<◌, ◌≤◌, ◌^◌, true, IsTrue, IsSome, IfSome, None, slice_index_or};
ghost use Rattle.std.specs.Option.{ForSome};
ghost use Rattle.pin_matrix.specs.Spans as spec;

use crate::keys::Keys;
use pin_matrix::{
    Addresses, Assumption, Assumptions, MachineSetup, Mapping, Range, Setup, Span, SpanUnit,
    is_span_name,
};
use pio_encode::Name;
use std::alloc::Global;

/// The most clocks or ticks of a bound.
const MOST: u32 = 16_777_215;

/// A machine; none where a key is out of its range.
pub fn machine_of(id: u8, keys: &Keys) -> Option<MachineSetup> {
    if id > 3 || keys.start > 31 || keys.wrap_top > 31 || keys.divider == 0 {
        return None;
    }
    let mut machine = MachineSetup::of(id, keys.side_rule);
    machine.start = keys.start;
    machine.wrap_top = keys.wrap_top;
    machine.x = keys.x;
    machine.y = keys.y;
    machine.pending = keys.pending;
    machine.int = keys.divider;
    machine.frac = keys.fraction;
    machine.autopush = keys.autopush;
    machine.autopull = keys.autopull;
    machine.out = mapping(keys.out_base, keys.out_count)?;
    machine.set = set_mapping(keys.set_base, keys.set_count)?;
    machine.side = mapping(keys.side_base, keys.side_count)?;
    Some(machine)
}

fn mapping(base: u8, count: u8) -> Option<Mapping> {
    if base > 31 || count > 32 {
        return None;
    }
    Some(Mapping { base, count })
}

fn set_mapping(base: u8, count: u8) -> Option<Mapping>
    ensures { IfSome result (λ pins. pins.count ≤ 5) }
{
    if base > 31 || count > 5 {
        return None;
    }
    Some(Mapping { base, count })
}

/// The span of this name on machine 0, from an edge of pin 0 or the end of an instruction, where its keys are in their
/// ranges and there is memory.
pub fn span_of(alloc: Global, keys: &Keys, name: &str) -> Option<Span> {
    let stalls = addresses_of(alloc, keys.stalls)?;
    if keys.to_pin > 31 || keys.unit == SpanUnit::Clocks && !stalls.is_empty() {
        return None;
    }
    let max = most_of(keys.min, keys.max)?;
    let lists = lists_of(alloc, keys)?;
    Some(Span {
        name: name_of(alloc, name)?,
        machine: 0,
        from_pin: 0,
        from_signal: keys.from.signal,
        from_rise: keys.from.rise,
        to_pin: keys.to_pin,
        to_signal: keys.to.signal,
        to_rise: keys.to.rise,
        unit: keys.unit,
        min: keys.min,
        max,
        stalls: Addresses::new(stalls)?,
        prompt: keys.prompt,
        without: lists.without,
        from_at: lists.from_at,
        to_at: lists.to_at,
        assume: lists.assume,
    })
}

/// Lists of a span.
#[derive(Drop)]
struct Lists {
    without: Addresses,
    from_at: Addresses,
    to_at: Addresses,
    assume: Assumptions,
}

/// The lists of these keys; none where a list isn't one that a span may have, or memory runs out.
fn lists_of(alloc: Global, keys: &Keys) -> Option<Lists> {
    Some(Lists {
        without: Addresses::new(addresses_of(alloc, keys.without)?)?,
        from_at: Addresses::new(addresses_of(alloc, keys.from.at)?)?,
        to_at: Addresses::new(addresses_of(alloc, keys.to.at)?)?,
        assume: Assumptions::new(assumptions_of(alloc, keys.assume)?)?,
    })
}

/// The greatest bound and a least one, where both are in their ranges.
fn most_of(min: u32, max: Option<u32>) -> Option<Option<u32>>
    ensures low { IfSome result (λ most. (min < 2 ^ 24) × ForSome most (λ m. min ≤ m)) }
    ensures high { IfSome result (λ most. ForSome most (λ m. m < 2 ^ 24)) }
{
    match max {
        None if min <= MOST => Some(None),
        Some(max) if min <= max && max <= MOST => Some(Some(max)),
        _ => None,
    }
}

fn name_of(alloc: Global, text: &str) -> Option<Name>
    ensures { IfSome result (λ name. IsTrue (spec.is_span_name name)) }
{
    let name = Name::new(String::from_str(alloc, text).ok()?);
    if is_span_name(name.as_bytes()) {
        Some(name)
    } else {
        None
    }
}

/// The addresses of a list with blanks between.
fn addresses_of(alloc: Global, list: &str) -> Option<Vec<u8>> {
    let mut addresses = Vec::new(alloc);
    for address in list.split(' ') {
        if !address.is_empty() {
            addresses.push(address.parse().ok()?).ok()?;
        }
    }
    Some(addresses)
}

/// The assumptions of a list with a semicolon and a blank between.
fn assumptions_of(alloc: Global, list: &str) -> Option<Vec<Assumption>> {
    let mut assumptions = Vec::new(alloc);
    for text in list.split("; ") {
        if !text.is_empty() {
            assumptions.push(assumption_of(text)?).ok()?;
        }
    }
    Some(assumptions)
}

/// An assumption: an address, and ranges of registers, as `1 x 3..5 y 0..9`.
fn assumption_of(text: &str) -> Option<Assumption> {
    let mut words = text.split(' ');
    let mut assumption = Assumption {
        address: words.next()?.parse().ok()?,
        x: None,
        y: None,
    };
    while let Some(register) = words.next() {
        let range = range_of(words.next()?)?;
        match register {
            "x" => assumption.x = Some(range),
            "y" => assumption.y = Some(range),
            _ => return None,
        }
    }
    Some(assumption)
}

/// A range, as `3..5`, its ends included.
fn range_of(text: &str) -> Option<Range> {
    let (lo, hi) = text.split_once("..")?;
    Some(Range {
        lo: lo.parse().ok()?,
        hi: hi.parse().ok()?,
    })
}

/// Whether the machine of a span is configured, where it is machine 0.
pub fn is_configured(setup: &Setup, span: &Span) -> bool
    ensures { result ≡ true
        → IsSome (slice_index_or setup.now.machines span.now.machine None) }
{
    if span.machine != 0 {
        return false;
    }
    has_machine_0(&setup.machines)
}

fn has_machine_0(machines: &[Option<MachineSetup>; 4]) -> bool
    ensures { result ≡ true → IsSome (slice_index_or machines.now 0 None) }
{
    machines[0].is_some()
}
