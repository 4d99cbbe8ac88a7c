//! The trace of what is inside a block over a sink in memory. Its rows have one line more, `configured 0 2`: the
//! machines that are declared. What is shown at a clock is a sample, the pads, and each machine: `3: quiet / pads 1 /
//! sm0 pc 1, waits 1 / sm2 quiet`. A machine has its values in hexadecimal digits, under the names of its variables.
ghost use Rattle.std.specs.Prelude.{◌≡◌, false};

use super::lent::tell_lent_insides;
use super::samples::{
    add_taken, add_text, failure_in, is_lent, number, number_of, sample_of, small, told_at,
    value_of,
};
use block_core::{Inside, MachineInside};
use pio_edge::{MemSink, Sink};
use std::alloc::Global;
use vcd_trace::{InsideVcd, Trace, TraceFailed};

/// All is 0.
const QUIET: MachineInside = MachineInside {
    pc: 0,
    instruction: 0,
    x: 0,
    y: 0,
    isr: 0,
    osr: 0,
    isr_count: 0,
    osr_count: 0,
    waits: false,
    enabled: false,
};

/// Adds the text that a row says, and the one of what is inside.
pub fn tell_insides(
    alloc: Global,
    lines: &str,
    expected: &mut String,
    seen: &mut String,
) -> Option<()> {
    add_text(alloc, lines, expected)?;
    let told = told_of(alloc, lines)?;
    let end = number_of(lines, "end")?;
    let configured = configured_of(lines)?;
    if is_lent(lines) {
        return tell_lent_insides(alloc, configured, &told, end, seen);
    }
    let fails = failure_in(alloc, lines)?;
    let mut sink = MemSink::with_room(alloc, 8192, &fails).ok()?;
    let (passes, has_failed) = told_to(&mut sink, configured, &told, end);
    add_taken(sink.bytes(), passes, has_failed, sink.faults(), seen)
}

/// Which machines are configured.
fn configured_of(lines: &str) -> Option<[bool; 4]> {
    let mut configured = [false; 4];
    for place in value_of(lines, "configured").unwrap_or("").split(' ') {
        match place {
            "0" => configured[0] = true,
            "1" => configured[1] = true,
            "2" => configured[2] = true,
            "3" => configured[3] = true,
            "" => {}
            _ => return None,
        }
    }
    Some(configured)
}

/// What is shown at which clock.
fn told_of(alloc: Global, lines: &str) -> Option<Vec<(u64, Inside)>> {
    let mut told = Vec::new(alloc);
    for line in lines.lines() {
        if let Some((clock, lists)) = told_at(line) {
            told.push((clock, inside_of(lists)?)).ok()?;
        }
    }
    Some(told)
}

/// What is inside a block, by a line.
fn inside_of(lists: &str) -> Option<Inside> {
    let (sample, rest) = lists.split_once(" / pads ")?;
    let mut parts = rest.split(" / ");
    let mut inside = Inside {
        sample: sample_of(sample)?,
        pads: number(parts.next()?)?,
        machines: [None; 4],
    };
    for part in parts {
        let (place, list) = part.split_once(' ')?;
        let machine = Some(machine_of(list)?);
        match place {
            "sm0" => inside.machines[0] = machine,
            "sm1" => inside.machines[1] = machine,
            "sm2" => inside.machines[2] = machine,
            "sm3" => inside.machines[3] = machine,
            _ => return None,
        }
    }
    Some(inside)
}

/// The machine of a list: `pc 1, x ffffffff, waits 1`.
fn machine_of(list: &str) -> Option<MachineInside> {
    let mut machine = QUIET;
    if list == "quiet" {
        return Some(machine);
    }
    for part in list.split(", ") {
        let (key, value) = part.split_once(' ')?;
        take(&mut machine, key, value)?;
    }
    Some(machine)
}

fn take(machine: &mut MachineInside, key: &str, value: &str) -> Option<()> {
    match key {
        "pc" => machine.pc = small(value)?,
        "instruction" => machine.instruction = u16::from_str_radix(value, 16).ok()?,
        "x" => machine.x = number(value)?,
        "y" => machine.y = number(value)?,
        "isr" => machine.isr = number(value)?,
        "osr" => machine.osr = number(value)?,
        "isr_count" => machine.isr_count = small(value)?,
        "osr_count" => machine.osr_count = small(value)?,
        "waits" => machine.waits = value == "1",
        "enabled" => machine.enabled = value == "1",
        _ => return None,
    }
    Some(())
}

/// Whether each call passes, and whether the trace has failed.
fn told_to<S: Sink>(
    sink: &mut S,
    configured: [bool; 4],
    told: &[(u64, Inside)],
    end: u64,
) -> (bool, bool) {
    let mut trace = InsideVcd::new(sink, configured);
    let passes = tell(&mut trace, told, end).is_ok();
    (passes, trace.failed())
}

fn tell<T: Trace<Inside>>(
    trace: &mut T,
    told: &[(u64, Inside)],
    end: u64,
) -> Result<(), TraceFailed>
    requires { T.has_failed trace.old ≡ false }
{
    trace.begin()?;
    for (clock, inside) in told {
        trace.sample(*clock, inside)?;
    }
    trace.end(end)
}
