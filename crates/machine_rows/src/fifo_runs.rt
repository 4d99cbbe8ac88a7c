//! A run of clocks of a pair of FIFOs with plain lists, with both kinds of FIFO.
use crate::fifo_clocks::{ClockEvents, clock, joined, words_of_tx};
use fifo_pair::{Fifo, Pair, PlainFifo, RingFifo, Settled};
use std::alloc::{AllocError, Global};

/// Adds whether so many clocks are those of plain lists.
pub fn tell_run(alloc: Global, clocks: u8, text: &mut String) -> Option<()> {
    let plain = runs_as_lists::<PlainFifo>(alloc, joined(alloc, "")?, clocks).ok()?;
    let ring = runs_as_lists::<RingFifo>(alloc, joined(alloc, "")?, clocks).ok()?;
    text.push_str(if plain && ring {
        "as lists"
    } else {
        "not as lists"
    })
    .ok()
}

/// Whether so many clocks of an empty pair are those of plain lists.
fn runs_as_lists<F: Fifo>(alloc: Global, pair: Pair<F>, clocks: u8) -> Result<bool, AllocError> {
    let mut pair = pair;
    let mut tx = Vec::new(alloc);
    let mut rx = Vec::new(alloc);
    for number in 0..clocks {
        let events = events_at(u32::from(number), !tx.is_empty(), rx.len() < 4);
        let wanted = settled_lists(&mut tx, &mut rx, 4, events)?;
        if clock(&mut pair, events) != Some(wanted)
            || pair.tx_front() != tx.first().copied()
            || pair.tx_level() != tx.len()
            || pair.rx_level() != rx.len()
        {
            return Ok(false);
        }
    }
    Ok(words_of_tx(alloc, pair)? == tx)
}

/// What happens in a clock, by five bits of a fixed sequence; words are the number of the clock, or 64 more.
fn events_at(clock: u32, takes: bool, gives: bool) -> ClockEvents {
    let bits = clock.wrapping_mul(0x9e37_79b9) >> 27;
    ClockEvents {
        take: takes && bits & 1 == 1,
        machine_word: if gives && bits & 2 == 2 {
            Some(clock | 64)
        } else {
            None
        },
        system_word: if bits & 20 != 0 { Some(clock) } else { None },
        system_read: bits & 8 == 8,
    }
}

/// The rule on plain lists: what the system sees in a clock.
fn settled_lists(
    tx: &mut Vec<u32>,
    rx: &mut Vec<u32>,
    room: usize,
    events: ClockEvents,
) -> Result<Settled, AllocError> {
    let over = events.system_word.is_some() && tx.len() == room;
    let under = events.system_read && rx.is_empty();
    let mut got = None;
    if events.take && !tx.is_empty() {
        tx.remove(0);
    }
    if events.system_read && !rx.is_empty() {
        got = Some(rx.remove(0));
    }
    if !over {
        tx.extend(events.system_word)?;
    }
    rx.extend(events.machine_word)?;
    Ok(Settled { got, over, under })
}
