//! One clock of a pair of FIFOs, and the words that are in it.
use fifo_pair::{Fifo, Pair, Settled};
use std::alloc::{AllocError, Global};

/// What happens in a clock.
#[derive(Clone, Copy)]
pub struct ClockEvents {
    /// The machine takes a word from TX.
    pub take: bool,
    /// The machine gives a word to RX.
    pub machine_word: Option<u32>,
    /// The system writes a word to TX.
    pub system_word: Option<u32>,
    /// The system reads RX.
    pub system_read: bool,
}

pub const NOTHING: ClockEvents = ClockEvents {
    take: false,
    machine_word: None,
    system_word: None,
    system_read: false,
};

const TAKE: ClockEvents = ClockEvents {
    take: true,
    ..NOTHING
};

const READ: ClockEvents = ClockEvents {
    system_read: true,
    ..NOTHING
};

/// One clock; none where the machine takes from an empty TX or gives to a full RX.
pub fn clock<F: Fifo>(pair: &mut Pair<F>, events: ClockEvents) -> Option<Settled> {
    if events.take && pair.tx_level() == 0 || events.machine_word.is_some() && pair.rx_full() {
        return None;
    }
    Some(pair.settle(
        events.take,
        events.machine_word,
        events.system_word,
        events.system_read,
    ))
}

/// An empty pair, joined as a word says.
pub fn joined<F: Fifo>(alloc: Global, join: &str) -> Option<Pair<F>> {
    match join {
        "" => Pair::new(alloc, false, false).ok(),
        "join_tx" => Pair::new(alloc, true, false).ok(),
        "join_rx" => Pair::new(alloc, false, true).ok(),
        _ => None,
    }
}

/// A pair with these words in TX and in RX; none where memory runs out, or there is no room for them.
pub fn filled<F: Fifo>(alloc: Global, join: &str, tx: &[u32], rx: &[u32]) -> Option<Pair<F>> {
    let mut pair = joined(alloc, join)?;
    for word in tx {
        let writes = ClockEvents {
            system_word: Some(*word),
            ..NOTHING
        };
        let _ = clock(&mut pair, writes);
    }
    for word in rx {
        let gives = ClockEvents {
            machine_word: Some(*word),
            ..NOTHING
        };
        let _ = clock(&mut pair, gives);
    }
    if pair.tx_level() == tx.len() && pair.rx_level() == rx.len() {
        Some(pair)
    } else {
        None
    }
}

/// All words of TX, as the machine takes them.
pub fn words_of_tx<F: Fifo>(alloc: Global, pair: Pair<F>) -> Result<Vec<u32>, AllocError> {
    let mut pair = pair;
    let mut words = Vec::new(alloc);
    for _ in 0..pair.tx_level() {
        if let Some(word) = pair.tx_front() {
            words.push(word)?;
        }
        let _ = clock(&mut pair, TAKE);
    }
    Ok(words)
}

/// All words of RX, as the system reads them.
pub fn words_of_rx<F: Fifo>(alloc: Global, pair: Pair<F>) -> Result<Vec<u32>, AllocError> {
    let mut pair = pair;
    let mut words = Vec::new(alloc);
    for _ in 0..pair.rx_level() {
        if let Some(settled) = clock(&mut pair, READ) {
            words.extend(settled.got)?;
        }
    }
    Ok(words)
}
