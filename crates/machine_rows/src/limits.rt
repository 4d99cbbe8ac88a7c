//! Rows of the types of a setup: `stalls 0 31` and `spans 64`, which keep so many at most, `name high-1` of a span's
//! name, and `setup` of the machines that are placed, one after the other, and of the stalls of its one span, as
//! `setup 3 0; 0 31`.
ghost use Rattle.std.specs.Prelude.{◌≡◌, ◌<◌, IsTrue, IfSome};
ghost use Rattle.pin_matrix.specs.Spans as spec;

use crate::lines::up_to;
use crate::setup::NO_SIDE;
use pin_matrix::{
    Addresses, Assumptions, MachineSetup, Mapping, PinSignal, Setup, Span, SpanUnit, Spans,
    is_span_name,
};
use pio_encode::Name;
use std::alloc::{AllocError, Global};

/// Adds what is kept, or that it is refused.
pub fn tell_limit(alloc: Global, asked: &str, text: &mut String) -> Option<()> {
    let (verb, rest) = asked.split_once(' ').unwrap_or((asked, ""));
    match verb {
        "stalls" => tell_stalls(alloc, rest, text),
        "spans" => tell_spans(alloc, rest, text),
        "name" => {
            let is_name = is_span_name(rest.as_bytes());
            text.push_str(if is_name { "a name" } else { "no name" })
                .ok()
        }
        "setup" => tell_setup(alloc, rest, text),
        _ => None,
    }
}

fn tell_stalls(alloc: Global, list: &str, text: &mut String) -> Option<()> {
    match Addresses::new(addresses(alloc, list)?) {
        Some(stalls) => tell_addresses(stalls.as_slice(), text).ok(),
        None => text.push_str("refused").ok(),
    }
}

/// The numbers of a list with a blank between.
fn addresses(alloc: Global, list: &str) -> Option<Vec<u8>> {
    let mut addresses = Vec::new(alloc);
    for address in list.split(' ') {
        if !address.is_empty() {
            addresses.push(up_to(255, address)?).ok()?;
        }
    }
    Some(addresses)
}

fn tell_addresses(addresses: &[u8], text: &mut String) -> Result<(), AllocError> {
    for (place, address) in addresses.iter().enumerate() {
        let gap = if place == 0 { "" } else { " " };
        write!(text, "{gap}{address}")?;
    }
    Ok(())
}

fn tell_spans(alloc: Global, count: &str, text: &mut String) -> Option<()> {
    let mut spans = Vec::new(alloc);
    for _ in 0..up_to(100, count)? {
        spans
            .push(in_clocks(alloc, named(alloc, "at-once_1")?))
            .ok()?;
    }
    match Spans::new(spans) {
        Some(spans) => write!(text, "{}", spans.as_slice().len()).ok(),
        None => text.push_str("refused").ok(),
    }
}

/// From a rise of pin 0 to its fall in the same clock: a span in clocks, which leaves out no stalls.
fn in_clocks(alloc: Global, name: Name) -> Span
    requires { IsTrue (spec.is_span_name name) }
{
    Span {
        name,
        machine: 0,
        from_pin: 0,
        from_signal: Some(PinSignal::Level),
        from_rise: true,
        to_pin: 0,
        to_signal: Some(PinSignal::Level),
        to_rise: false,
        unit: SpanUnit::Clocks,
        min: 0,
        max: Some(0),
        stalls: Addresses::empty(alloc),
        prompt: false,
        without: Addresses::empty(alloc),
        from_at: Addresses::empty(alloc),
        to_at: Addresses::empty(alloc),
        assume: Assumptions::empty(alloc),
    }
}

/// The name of this text, where there is memory and the text is one.
fn named(alloc: Global, text: &str) -> Option<Name>
    ensures { IfSome result (λ name. IsTrue (spec.is_span_name name)) }
{
    let name = Name::new(String::from_str(alloc, text).ok()?);
    if is_span_name(name.as_bytes()) {
        Some(name)
    } else {
        None
    }
}

/// Adds which machines a setup has, and the stalls of its spans.
fn tell_setup(alloc: Global, rest: &str, text: &mut String) -> Option<()> {
    let Some((machines, stalls)) = rest.split_once("; ") else {
        let setup = Setup::of([0; 32], Spans::empty(alloc));
        return tell_parts(&setup, text).ok();
    };
    let span = in_ticks(
        alloc,
        named(alloc, "high")?,
        Addresses::new(addresses(alloc, stalls)?)?,
    );
    let spans = Spans::new(vec![in alloc; span].ok()?)?;
    let mut setup = Setup::of([0; 32], spans);
    for id in machines.split(' ') {
        setup.place(machine(up_to(3, id)?.min(3)));
    }
    tell_parts(&setup, text).ok()
}

/// From a rise of pin 31 to a fall of pin 0, in ticks of machine 3.
fn in_ticks(alloc: Global, name: Name, stalls: Addresses) -> Span
    requires { IsTrue (spec.is_span_name name) }
{
    Span {
        name,
        machine: 3,
        from_pin: 31,
        from_signal: Some(PinSignal::Level),
        from_rise: true,
        to_pin: 0,
        to_signal: Some(PinSignal::Level),
        to_rise: false,
        unit: SpanUnit::Ticks,
        min: 2,
        max: Some(16_777_215),
        stalls,
        prompt: false,
        without: Addresses::empty(alloc),
        from_at: Addresses::empty(alloc),
        to_at: Addresses::empty(alloc),
        assume: Assumptions::empty(alloc),
    }
}

/// A machine that differs from the default in most of what can't be taken for granted.
fn machine(id: u8) -> MachineSetup
    requires { id < 4 }
    ensures { result.id ≡ id }
{
    let mut machine = MachineSetup::of(id, NO_SIDE);
    machine.start = 31;
    machine.int = 0;
    machine.out = Mapping {
        base: 31,
        count: 32,
    };
    machine.push_threshold = 8;
    machine.join_tx = true;
    machine
}

fn tell_parts(setup: &Setup, text: &mut String) -> Result<(), AllocError> {
    text.push_str("machines")?;
    let mut is_empty = true;
    for (place, machine) in setup.machines.iter().enumerate() {
        if machine.is_some() {
            write!(text, " {place}")?;
            is_empty = false;
        }
    }
    text.push_str(if is_empty { " none" } else { "" })?;
    write!(text, ", spans {}", setup.spans.as_slice().len())?;
    for span in setup.spans.as_slice() {
        text.push_str(", stalls ")?;
        tell_addresses(span.stalls.as_slice(), text)?;
    }
    Ok(())
}
