//! The trace of a block over a sink in memory, and a list of samples.
ghost use Rattle.std.specs.Prelude.{◌≡◌, false};

use super::lent::tell_lent;
use super::samples::{
    add_taken, add_text, are_known, failure_in, is_lent, number_of, sample_of, state, told_at,
};
use block_core::Sample;
use pio_edge::{MemSink, Sink};
use std::alloc::{AllocError, Global};
use vcd_trace::{ListTrace, Trace, TraceFailed, VcdTrace};

/// Adds the text that a row says, and the one of its samples.
pub fn tell_trace(
    alloc: Global,
    lines: &str,
    expected: &mut String,
    seen: &mut String,
) -> Option<()> {
    add_text(alloc, lines, expected)?;
    let told = told_of(alloc, lines)?;
    let end = number_of(lines, "end")?;
    if is_lent(lines) {
        return tell_lent(alloc, &told, end, seen);
    }
    let fails = failure_in(alloc, lines)?;
    let mut sink = MemSink::with_room(alloc, 8192, &fails).ok()?;
    let (passes, has_failed) = told_to(&mut sink, &told, end);
    add_taken(sink.bytes(), passes, has_failed, sink.faults(), seen)
}

/// What is shown at which clock.
fn told_of(alloc: Global, lines: &str) -> Option<Vec<(u64, Sample)>> {
    let mut told = Vec::new(alloc);
    for line in lines.lines() {
        if let Some((clock, list)) = told_at(line) {
            told.push((clock, sample_of(list)?)).ok()?;
        }
    }
    Some(told)
}

/// Whether each call passes, and whether the trace has failed.
fn told_to<S: Sink>(sink: &mut S, told: &[(u64, Sample)], end: u64) -> (bool, bool) {
    let mut trace = VcdTrace::new(sink);
    let passes = tell(&mut trace, told, end).is_ok();
    (passes, trace.failed())
}

fn tell<T: Trace<Sample>>(
    trace: &mut T,
    told: &[(u64, Sample)],
    end: u64,
) -> Result<(), TraceFailed>
    requires { T.has_failed trace.old ≡ false }
{
    trace.begin()?;
    for (clock, sample) in told {
        trace.sample(*clock, sample)?;
    }
    trace.end(end)
}

/// Adds how many samples a list has, or which, as a row says and as they are; and whether it failed.
pub fn tell_list(
    alloc: Global,
    lines: &str,
    expected: &mut String,
    seen: &mut String,
) -> Option<()> {
    if !are_known(lines) {
        return None;
    }
    let kept = number_of(lines, "kept")?;
    let room = number_of(lines, "room")?;
    let told = told_of(alloc, lines)?;
    let end = number_of(lines, "end")?;
    let how = if kept < end {
        "broken, faults 1"
    } else {
        "whole, faults 0"
    };
    write!(expected, "{kept} samples, {how}\n").ok()?;
    let are_said = add_samples(lines, expected)?;
    let mut trace = ListTrace::with_room(alloc, usize::try_from(room).ok()?).ok()?;
    let passes = tell(&mut trace, &told, end).is_ok();
    let how = state(passes, trace.failed());
    let count = trace.samples().len();
    write!(seen, "{count} samples, {how}, faults {}\n", trace.faults()).ok()?;
    if are_said {
        tell_samples(trace.samples(), seen).ok()?;
    }
    Some(())
}

/// Adds the samples that a row says, whether there are any.
fn add_samples(lines: &str, expected: &mut String) -> Option<bool> {
    let mut are_said = false;
    for line in lines.lines() {
        if let Some(list) = line.strip_prefix("s ") {
            are_said = true;
            let sample = sample_of(list)?;
            write!(expected, "{sample:?}\n").ok()?;
        }
    }
    Some(are_said)
}

fn tell_samples(samples: &[Sample], text: &mut String) -> Result<(), AllocError> {
    for sample in samples {
        write!(text, "{sample:?}\n")?;
    }
    Ok(())
}
