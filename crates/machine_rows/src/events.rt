//! What happens around a lone machine: lines of a stimulus, and `5 see 0x20`, `1 lower 1` and `2 levels 14`.
use crate::lines::{is_stimulus, number, up_to};
use std::alloc::Global;

/// What happens in a clock.
#[derive(Clone, Copy)]
pub enum Happening {
    /// The system writes a word to TX.
    Write(u32),
    /// The system reads RX.
    Read,
    /// The machine sees these pins, from this clock on.
    See(u32),
    /// Another machine lowers flags.
    Lower(u8),
    /// The levels as another machine left them in the clock before.
    Levels(u32),
}

/// What happens, and its clock.
#[derive(Clone, Copy)]
pub struct Event {
    pub clock: u64,
    pub happening: Happening,
}

/// The events of the machine of this number; none where memory runs out, or a line isn't well written.
pub fn events_of(alloc: Global, lines: &str, id: u8) -> Option<Vec<Event>> {
    let mut events = Vec::new(alloc);
    for line in lines.lines() {
        if is_stimulus(line) {
            events.push(event_of(line, id)?).ok()?;
        }
    }
    Some(events)
}

fn event_of(line: &str, id: u8) -> Option<Event> {
    let (clock, rest) = line.split_once(' ')?;
    let (verb, rest) = rest.split_once(' ')?;
    Some(Event {
        clock: clock.parse().ok()?,
        happening: happening_of(verb, rest, id)?,
    })
}

fn happening_of(verb: &str, rest: &str, id: u8) -> Option<Happening> {
    match verb {
        "tx" => {
            let (machine, word) = rest.split_once(' ')?;
            is_of(machine, id)?;
            Some(Happening::Write(number(word)?))
        }
        "rx" => {
            is_of(rest, id)?;
            Some(Happening::Read)
        }
        "see" => Some(Happening::See(number(rest)?)),
        "lower" => Some(Happening::Lower(up_to(255, rest)?)),
        "levels" => Some(Happening::Levels(number(rest)?)),
        _ => None,
    }
}

/// Passes the number of the machine.
fn is_of(machine: &str, id: u8) -> Option<()> {
    if up_to(3, machine)? == id {
        Some(())
    } else {
        None
    }
}
