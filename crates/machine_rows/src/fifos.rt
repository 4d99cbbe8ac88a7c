//! Rows of a pair of FIFOs: of one clock, where `tx: 1 2; take; write 3` has the words of TX, and `rx join_rx: ; give
//! 7; read` those of RX and how the two are joined; and of `run 60`, so many clocks with plain lists. Both kinds of
//! FIFO tell the same.
use crate::fifo_clocks::{ClockEvents, NOTHING, clock, filled, words_of_rx, words_of_tx};
use crate::fifo_runs::tell_run;
use crate::lines::{number, numbers};
use fifo_pair::{Fifo, Pair, PlainFifo, RingFifo, Settled};
use std::alloc::{AllocError, Global};

/// Adds what the system sees in a clock, and the words after it; or whether a run is that of plain lists.
pub fn tell_fifos(alloc: Global, asked: &str, text: &mut String) -> Option<()> {
    if let Some(clocks) = asked.strip_prefix("run ") {
        return tell_run(alloc, clocks.parse().ok()?, text);
    }
    let mut again = String::new(alloc);
    tell_clock::<PlainFifo>(alloc, asked, text)?;
    tell_clock::<RingFifo>(alloc, asked, &mut again)?;
    if text.as_str() == again.as_str() {
        return Some(());
    }
    write!(text, ", with a ring {again}").ok()
}

fn tell_clock<F: Fifo>(alloc: Global, asked: &str, text: &mut String) -> Option<()> {
    let (head, rest) = asked.split_once(": ")?;
    let (name, join) = head.split_once(' ').unwrap_or((head, ""));
    let mut parts = rest.split("; ");
    let words = numbers(alloc, parts.next()?)?;
    let mut events = NOTHING;
    for part in parts {
        events = with_event(events, part)?;
    }
    match name {
        "tx" => tell_tx(alloc, filled::<F>(alloc, join, &words, &[])?, events, text),
        "rx" => tell_rx(alloc, filled::<F>(alloc, join, &[], &words)?, events, text),
        _ => None,
    }
}

/// The events of a clock with one more.
fn with_event(events: ClockEvents, part: &str) -> Option<ClockEvents> {
    let mut events = events;
    let (verb, word) = part.split_once(' ').unwrap_or((part, ""));
    match verb {
        "take" => events.take = true,
        "read" => events.system_read = true,
        "write" => events.system_word = Some(number(word)?),
        "give" => events.machine_word = Some(number(word)?),
        _ => return None,
    }
    Some(events)
}

fn tell_tx<F: Fifo>(
    alloc: Global,
    pair: Pair<F>,
    events: ClockEvents,
    text: &mut String,
) -> Option<()> {
    let mut pair = pair;
    tell_settled(&clock(&mut pair, events)?, text).ok()?;
    let is_full = pair.tx_full();
    tell_words(&words_of_tx(alloc, pair).ok()?, is_full, text).ok()
}

fn tell_rx<F: Fifo>(
    alloc: Global,
    pair: Pair<F>,
    events: ClockEvents,
    text: &mut String,
) -> Option<()> {
    let mut pair = pair;
    tell_settled(&clock(&mut pair, events)?, text).ok()?;
    let is_full = pair.rx_full();
    tell_words(&words_of_rx(alloc, pair).ok()?, is_full, text).ok()
}

/// Adds what the system sees.
fn tell_settled(settled: &Settled, text: &mut String) -> Result<(), AllocError> {
    if let Some(word) = settled.got {
        write!(text, "got {word}; ")?;
    }
    text.push_str(if settled.over { "over; " } else { "" })?;
    text.push_str(if settled.under { "under; " } else { "" })
}

/// Adds the words, and whether there is no room for another one.
fn tell_words(words: &[u32], is_full: bool, text: &mut String) -> Result<(), AllocError> {
    if words.is_empty() {
        text.push_str("no word")?;
    }
    for (place, word) in words.iter().enumerate() {
        let gap = if place == 0 { "" } else { " " };
        write!(text, "{gap}{word}")?;
    }
    text.push_str(if is_full { ", full" } else { "" })
}
