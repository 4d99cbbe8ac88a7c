//! Setups as short texts.
use block_config::OwningSetup;
use pin_matrix::{Assumption, MachineSetup, PinSignal, Range, Setup, Span, SpanUnit};
use std::alloc::AllocError;

/// Adds what a setup says, in one line: the memory's words that aren't 0 by their address, the machines, the pins and the
/// spans.
pub fn tell_setup_text(setup: &Setup, text: &mut String) -> Result<(), AllocError> {
    tell_memory(&setup.memory, text)?;
    for machine in &setup.machines {
        if let Some(machine) = machine {
            tell_machine(machine, text)?;
        }
    }
    write!(
        text,
        "pins {:x} {:x} {:x} {:x}",
        setup.high, setup.level, setup.out, setup.bypass
    )?;
    for span in setup.spans.as_slice() {
        tell_span(span, text)?;
    }
    Ok(())
}

/// Adds what the setup of a second block says, and the pins that it owns.
pub fn tell_second_text(second: &OwningSetup, text: &mut String) -> Result<(), AllocError> {
    tell_setup_text(&second.setup, text)?;
    write!(text, " own {:x}", second.own)
}

fn tell_memory(memory: &[u16], text: &mut String) -> Result<(), AllocError> {
    for (address, word) in memory.iter().enumerate() {
        if *word != 0 {
            write!(text, "{address}:{word:04x} ")?;
        }
    }
    Ok(())
}

fn tell_machine(m: &MachineSetup, text: &mut String) -> Result<(), AllocError> {
    write!(
        text,
        "m{} {} {}-{} {}+{}",
        m.id, m.start, m.wrap_bottom, m.wrap_top, m.int, m.frac
    )?;
    write!(
        text,
        " in {} jmp {} out {}x{} set {}x{} side {}x{}",
        m.in_base,
        m.jmp_pin,
        m.out.base,
        m.out.count,
        m.set.base,
        m.set.count,
        m.side.base,
        m.side.count
    )?;
    write!(
        text,
        " shift {} {} {} {} {} {}",
        m.in_right, m.out_right, m.autopush, m.autopull, m.push_threshold, m.pull_threshold
    )?;
    write!(
        text,
        " join {} {} status {} {} x {} y {}",
        m.join_tx, m.join_rx, m.status_rx, m.status_n, m.x, m.y
    )?;
    write!(
        text,
        " isr {:x}+{} osr {:x}+{} first ",
        m.isr, m.isr_count, m.osr, m.osr_count
    )?;
    match m.pending {
        Some(word) => write!(text, "{word:04x} "),
        None => text.push_str("none "),
    }
}

fn tell_span(span: &Span, text: &mut String) -> Result<(), AllocError> {
    let unit = match span.unit {
        SpanUnit::Ticks => "ticks",
        SpanUnit::Clocks => "clocks",
    };
    let from = edge_text(span.from_signal, span.from_rise);
    let to = edge_text(span.to_signal, span.to_rise);
    write!(
        text,
        " {} m{} {} {from} {} {to}",
        span.name, span.machine, span.from_pin, span.to_pin
    )?;
    write!(text, " {unit} {}-", span.min)?;
    match span.max {
        Some(max) => write!(text, "{max} [")?,
        None => text.push_str("inf [")?,
    }
    tell_addresses(span.stalls.as_slice(), text)?;
    text.push_str("]")?;
    tell_unsaid(span, text)?;
    tell_named(" from [", span.from_at.as_slice(), text)?;
    tell_named(" to [", span.to_at.as_slice(), text)?;
    for assumption in span.assume.as_slice() {
        tell_assumption(assumption, text)?;
    }
    Ok(())
}

/// Adds an assumption: the address, and the ranges that it has.
fn tell_assumption(assumption: &Assumption, text: &mut String) -> Result<(), AllocError> {
    write!(text, " assume {}", assumption.address)?;
    tell_range(" x ", assumption.x, text)?;
    tell_range(" y ", assumption.y, text)
}

fn tell_range(front: &str, range: Option<Range>, text: &mut String) -> Result<(), AllocError> {
    match range {
        Some(range) => write!(text, "{front}{}-{}", range.lo, range.hi),
        None => Ok(()),
    }
}

/// Adds of which from-edges a span says nothing, where there are such.
fn tell_unsaid(span: &Span, text: &mut String) -> Result<(), AllocError> {
    if span.prompt {
        text.push_str(" prompt")?;
    }
    tell_named(" without [", span.without.as_slice(), text)
}

/// Adds the addresses that a key names, where it names some.
fn tell_named(front: &str, addresses: &[u8], text: &mut String) -> Result<(), AllocError> {
    if addresses.is_empty() {
        return Ok(());
    }
    text.push_str(front)?;
    tell_addresses(addresses, text)?;
    text.push_str("]")
}

fn tell_addresses(addresses: &[u8], text: &mut String) -> Result<(), AllocError> {
    for (place, address) in addresses.iter().enumerate() {
        let gap = if place == 0 { "" } else { " " };
        write!(text, "{gap}{address}")?;
    }
    Ok(())
}

/// An edge: of a level whether it rises, of a direction what it becomes; or the end of an instruction, which doesn't rise.
fn edge_text(signal: Option<PinSignal>, rise: bool) -> &'static str {
    match signal {
        Some(PinSignal::Level) if rise => "true",
        Some(PinSignal::Level) => "false",
        Some(PinSignal::Direction) if rise => "out",
        Some(PinSignal::Direction) => "in",
        None if rise => "done and true",
        None => "done",
    }
}
