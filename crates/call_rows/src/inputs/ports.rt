//! What the ports do in the first twelve clocks, and the next clock in which something happens.
ghost use Rattle.std.specs.Prelude.{◌<◌};

use dreq_pacing::{Due, HostPorts, Requests, Schedule, read_stimulus};
use std::alloc::{AllocError, Global};

const NONE: Requests = Requests {
    tx: [false; 4],
    rx: [false; 4],
};

const ALL: Requests = Requests {
    tx: [true; 4],
    rx: [true; 4],
};

/// Adds what is done in clocks 0 to 11 where no request is up before a clock, and all are from it on.
pub fn tell_acts(alloc: Global, asked: &str, text: &mut String) -> Option<()> {
    let (from, stimulus) = asked.split_once('\n')?;
    let from: u64 = from.parse().ok()?;
    let schedule = read_stimulus(alloc, stimulus.as_bytes()).ok()?;
    tell_clocks(&schedule, from, text).ok()
}

fn tell_clocks(schedule: &Schedule, from: u64, text: &mut String) -> Result<(), AllocError> {
    let mut ports = HostPorts::new(schedule);
    for clock in 0..12 {
        let requests = if clock < from { NONE } else { ALL };
        let due = ports.at(clock, &requests);
        tell_due(&due, clock, text)?;
    }
    Ok(())
}

fn tell_due(due: &Due, clock: u64, text: &mut String) -> Result<(), AllocError> {
    if due.pins != 0 {
        tell_gap(text)?;
        write!(text, "{clock} pins {:x} levels {:x}", due.pins, due.values)?;
    }
    for machine in 0..4 {
        tell_machine(due, clock, machine, text)?;
    }
    Ok(())
}

fn tell_machine(due: &Due, clock: u64, machine: usize, text: &mut String) -> Result<(), AllocError>
    requires { machine < 4 }
{
    if let Some(word) = due.word[machine] {
        tell_gap(text)?;
        write!(text, "{clock} tx {machine} {word}")?;
    }
    tell_act(due.word_paced[machine], clock, "paced tx", machine, text)?;
    tell_act(due.read[machine], clock, "rx", machine, text)?;
    tell_act(due.read_paced[machine], clock, "paced rx", machine, text)?;
    tell_act(due.enable[machine], clock, "enable", machine, text)?;
    tell_act(due.disable[machine], clock, "disable", machine, text)?;
    tell_act(due.restart[machine], clock, "restart", machine, text)
}

/// Adds an act, where it is done.
fn tell_act(
    is_done: bool,
    clock: u64,
    act: &str,
    machine: usize,
    text: &mut String,
) -> Result<(), AllocError> {
    if is_done {
        tell_gap(text)?;
        write!(text, "{clock} {act} {machine}")?;
    }
    Ok(())
}

/// Adds what is between two acts.
fn tell_gap(text: &mut String) -> Result<(), AllocError> {
    text.push_str(if text.is_empty() { "" } else { ", " })
}

/// Adds the next clock in which something happens, after clock 0 with the first requests, while the others stay.
pub fn tell_next_clock(alloc: Global, asked: &str, text: &mut String) -> Option<()> {
    let (requests, stimulus) = asked.split_once('\n')?;
    let (at_first, then) = requests.split_once(' ')?;
    let schedule = read_stimulus(alloc, stimulus.as_bytes()).ok()?;
    match next_after(&schedule, &requests_of(at_first), &requests_of(then)) {
        Some(clock) => write!(text, "{clock}").ok(),
        None => text.push_str("none").ok(),
    }
}

fn requests_of(word: &str) -> Requests {
    if word == "up" { ALL } else { NONE }
}

fn next_after(schedule: &Schedule, at_first: &Requests, then: &Requests) -> Option<u64> {
    let mut ports = HostPorts::new(schedule);
    let _due = ports.at(0, at_first);
    ports.next_due(1, then)
}
