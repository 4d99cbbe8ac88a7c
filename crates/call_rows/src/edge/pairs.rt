//! The trace of two blocks over a sink in memory.
ghost use Rattle.std.specs.Prelude.{◌≡◌, false};

use super::lent::tell_lent_to_pairs;
use super::samples::{add_taken, add_text, failure_in, is_lent, number_of, sample_of, told_at};
use block_core::Sample;
use pio_edge::{MemSink, Sink};
use std::alloc::Global;
use vcd_trace::{Trace, TraceFailed, TwinVcd};

/// Adds the text that a row says, and the one of its pairs of samples.
pub fn tell_pairs(
    alloc: Global,
    lines: &str,
    expected: &mut String,
    seen: &mut String,
) -> Option<()> {
    add_text(alloc, lines, expected)?;
    let told = told_of(alloc, lines)?;
    let end = number_of(lines, "end")?;
    if is_lent(lines) {
        return tell_lent_to_pairs(alloc, &told, end, seen);
    }
    let fails = failure_in(alloc, lines)?;
    let mut sink = MemSink::with_room(alloc, 8192, &fails).ok()?;
    let (passes, has_failed) = told_to(&mut sink, &told, end);
    add_taken(sink.bytes(), passes, has_failed, sink.faults(), seen)
}

/// What both blocks show at which clock.
fn told_of(alloc: Global, lines: &str) -> Option<Vec<(u64, Sample, Sample)>> {
    let mut told = Vec::new(alloc);
    for line in lines.lines() {
        if let Some((clock, lists)) = told_at(line) {
            let (first, second) = lists.split_once(" / ")?;
            told.push((clock, sample_of(first)?, sample_of(second)?))
                .ok()?;
        }
    }
    Some(told)
}

/// Whether each call passes, and whether the trace has failed.
fn told_to<S: Sink>(sink: &mut S, told: &[(u64, Sample, Sample)], end: u64) -> (bool, bool) {
    let mut trace = TwinVcd::new(sink);
    let passes = tell(&mut trace, told, end).is_ok();
    (passes, trace.failed())
}

fn tell<T: Trace<(Sample, Sample)>>(
    trace: &mut T,
    told: &[(u64, Sample, Sample)],
    end: u64,
) -> Result<(), TraceFailed>
    requires { T.has_failed trace.old ≡ false }
{
    trace.begin()?;
    for (clock, first, second) in told {
        trace.sample(*clock, &(*first, *second))?;
    }
    trace.end(end)
}
