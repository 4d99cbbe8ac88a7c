//! Rows of a lone machine over a memory of one word at each address, no pin or flag up, which ticks in each clock:
//! `idle ff3f  set x, 31 [31]; 5` of how long it idles after so many ticks, and with `; tx 7` with a TX that then holds a
//! word; `leap ff3f  set x, 31 [31]` of how long it does at first, and after the leap that follows its first tick; and
//! `reserved 20e0` of what the word and then `set pins, 1` write.
use crate::alone::{Around, By, around_of, clock};
use crate::keys::Keys;
use crate::lines::{number, word_line};
use crate::setup::{NO_SIDE, word_of};
use fifo_pair::{Fifo, PlainFifo, RingFifo};
use pin_matrix::MachineSetup;
use sm_registers::{Idle, Intent, Machine, Shared, View};
use std::alloc::{AllocError, Global};

/// Adds how long a machine idles, or what it writes.
pub fn tell_idling(alloc: Global, asked: &str, text: &mut String) -> Option<()> {
    let (verb, rest) = asked.split_once(' ')?;
    match verb {
        "idle" => tell_idle(alloc, rest, text),
        "leap" => tell_leap(alloc, word_in(rest)?, text).ok(),
        "reserved" => tell_reserved(alloc, u16::from_str_radix(rest, 16).ok()?, text).ok(),
        _ => None,
    }
}

/// The word of its digits and its mnemonic.
fn word_in(text: &str) -> Option<u16> {
    let (digits, mnemonic) = word_line(text)?;
    word_of(digits, mnemonic, &NO_SIDE)
}

/// The setup of machine 0 with all else at its default, which wraps after this address.
fn plain_setup(last: u8) -> MachineSetup {
    Keys::new(0).setup(last)
}

fn tell_idle(alloc: Global, rest: &str, text: &mut String) -> Option<()> {
    let (word, rest) = rest.split_once("; ")?;
    let word = word_in(word)?;
    let (ticks, tx) = match rest.split_once("; tx ") {
        Some((ticks, tx)) => (ticks, Some(number(tx)?)),
        None => (rest, None),
    };
    let ticks: u8 = ticks.parse().ok()?;
    let plain = idle_after::<PlainFifo>(alloc, word, ticks, tx).ok()?;
    let ring = idle_after::<RingFifo>(alloc, word, ticks, tx).ok()?;
    tell_until(plain, text).ok()?;
    if plain == ring {
        return Some(());
    }
    text.push_str(", another with a ring").ok()
}

fn tell_until(idle: Idle, text: &mut String) -> Result<(), AllocError> {
    match idle {
        Idle::Ticks(ticks) => write!(text, "{ticks}"),
        Idle::Never => text.push_str("never"),
    }
}

/// Memory with a word at each address, and no pin or flag up.
fn all_of(word: u16) -> Shared {
    let Around { shared, .. } = around_of([word; 32]);
    shared
}

/// One clock of a machine whose pins nobody looks at.
fn quiet_clock<F: Fifo>(machine: &mut Machine<F>, view: &View) {
    let intent = machine.tick(view);
    machine.settle(&intent, None, false);
}

/// How long a machine idles after so many ticks of a word, with a TX that then holds a word or is empty.
fn idle_after<F: Fifo>(
    alloc: Global,
    word: u16,
    ticks: u8,
    tx: Option<u32>,
) -> Result<Idle, AllocError> {
    let shared = all_of(word);
    let view = View::new(&shared, 0);
    let mut machine = Machine::<F>::new(alloc, &plain_setup(0))?;
    for _ in 0..ticks {
        quiet_clock(&mut machine, &view);
    }
    machine.settle(&Intent::none(), tx, false);
    Ok(machine.idle_until(&view))
}

/// Adds how long a machine over a word idles at first, and after the leap that follows its first tick.
fn tell_leap(alloc: Global, word: u16, text: &mut String) -> Result<(), AllocError> {
    let shared = all_of(word);
    let view = View::new(&shared, 0);
    let mut machine = Machine::<RingFifo>::new(alloc, &plain_setup(0))?;
    tell_until(machine.idle_until(&view), text)?;
    quiet_clock(&mut machine, &view);
    leap_idle(&mut machine, &view);
    text.push_str(", then ")?;
    tell_until(machine.idle_until(&view), text)
}

/// Leaps over the ticks before the next one that stirs, or over a million million where there is none.
fn leap_idle<F: Fifo>(machine: &mut Machine<F>, view: &View) {
    match machine.idle_until(view) {
        Idle::Ticks(ticks) => machine.leap(view, ticks),
        Idle::Never => machine.leap(view, 1_000_000_000_000),
    }
}

/// Adds the levels and directions after a word, and after the next one, which sets pin 0.
fn tell_reserved(alloc: Global, word: u16, text: &mut String) -> Result<(), AllocError> {
    let mut memory = [0; 32];
    memory[0] = word;
    memory[1] = 0xe001;
    let mut machine = Machine::<PlainFifo>::new(alloc, &plain_setup(1))?;
    let mut around = around_of(memory);
    clock(&mut machine, &mut around, By::Simple, &[], 0);
    tell_outputs(&around, text)?;
    text.push_str(", then ")?;
    clock(&mut machine, &mut around, By::Simple, &[], 1);
    tell_outputs(&around, text)
}

fn tell_outputs(around: &Around, text: &mut String) -> Result<(), AllocError> {
    let outputs = &around.outputs;
    write!(text, "p {:x} d {:x}", outputs.levels, outputs.directions)
}
