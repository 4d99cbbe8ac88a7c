//! Callers that lend their own sink to a trace, and know afterwards what it took.
ghost use Rattle.std.specs.Prelude.{◌≡◌, ℕ, Option, List, true, false, OnOk};
ghost use Rattle.pio_edge.specs.Edge.{with_bytes};
ghost use Rattle.vcd_trace.specs.InsideText.{inside_text};
ghost use Rattle.vcd_trace.specs.TwinText.{twin_text};
ghost use Rattle.vcd_trace.specs.VcdText.{vcd_text};

use super::samples::add_taken;
use block_core::{Inside, Sample};
use pio_edge::{MemSink, Sink};
use std::alloc::Global;
use vcd_trace::{InsideVcd, Trace, TraceFailed, TwinVcd, VcdTrace};

/// Adds what a lent sink takes of the samples of the clocks from 0 on; none where others are shown.
pub fn tell_lent(alloc: Global, told: &[(u64, Sample)], end: u64, seen: &mut String) -> Option<()> {
    let mut samples = Vec::new(alloc);
    for (place, (clock, sample)) in told.iter().enumerate() {
        if *clock != place as u64 {
            return None;
        }
        samples.push(*sample).ok()?;
    }
    if samples.len() as u64 != end {
        return None;
    }
    let mut sink = MemSink::with_room(alloc, 8192, &[]).ok()?;
    let passes = put_text(&mut sink, &samples).is_ok();
    add_taken(sink.bytes(), passes, !passes, sink.faults(), seen)
}

/// The same of two blocks.
pub fn tell_lent_to_pairs(
    alloc: Global,
    told: &[(u64, Sample, Sample)],
    end: u64,
    seen: &mut String,
) -> Option<()> {
    let mut pairs = Vec::new(alloc);
    for (place, (clock, first, second)) in told.iter().enumerate() {
        if *clock != place as u64 {
            return None;
        }
        pairs.push((*first, *second)).ok()?;
    }
    if pairs.len() as u64 != end {
        return None;
    }
    let mut sink = MemSink::with_room(alloc, 8192, &[]).ok()?;
    let passes = put_pairs(&mut sink, &pairs).is_ok();
    add_taken(sink.bytes(), passes, !passes, sink.faults(), seen)
}

/// The same of what is inside a block.
pub fn tell_lent_insides(
    alloc: Global,
    configured: [bool; 4],
    told: &[(u64, Inside)],
    end: u64,
    seen: &mut String,
) -> Option<()> {
    let mut insides = Vec::new(alloc);
    for (place, (clock, inside)) in told.iter().enumerate() {
        if *clock != place as u64 {
            return None;
        }
        insides.push(*inside).ok()?;
    }
    if insides.len() as u64 != end {
        return None;
    }
    let mut sink = MemSink::with_room(alloc, 8192, &[]).ok()?;
    let passes = put_insides(&mut sink, configured, &insides).is_ok();
    add_taken(sink.bytes(), passes, !passes, sink.faults(), seen)
}

/// Tells the samples of the clocks from 0 on, and their end.
fn tell_all<T: Trace<Sample>>(trace: &mut T, samples: &[Sample]) -> Result<(), TraceFailed>
    requires { T.has_failed trace.old ≡ false }
    ensures told { OnOk result ((b : Option (List ℕ)) → T.ready trace.old b
        → T.holds trace.new b samples.now true) }
    ensures same { T.name trace.new ≡ T.name trace.old }
{
    trace.begin()?;
    for (clock, sample) in samples.iter().enumerate() {
        trace.sample(clock as u64, sample)?;
    }
    trace.end(samples.len() as u64)
}

/// A caller that lends its sink to a trace knows afterwards what its sink took.
fn put_text<S: Sink>(sink: &mut S, samples: &[Sample]) -> Result<(), TraceFailed>
    ensures { OnOk result
        (S.taken sink.new ≡ with_bytes (S.taken sink.old) (vcd_text samples.now)) }
{
    let mut trace = VcdTrace::new(sink);
    tell_all(&mut trace, samples)
}

/// Tells the samples of both blocks from clock 0 on, and their end.
fn tell_pairs<T: Trace<(Sample, Sample)>>(
    trace: &mut T,
    pairs: &[(Sample, Sample)],
) -> Result<(), TraceFailed>
    requires { T.has_failed trace.old ≡ false }
    ensures told { OnOk result ((b : Option (List ℕ)) → T.ready trace.old b
        → T.holds trace.new b pairs.now true) }
    ensures same { T.name trace.new ≡ T.name trace.old }
{
    trace.begin()?;
    for (clock, pair) in pairs.iter().enumerate() {
        trace.sample(clock as u64, pair)?;
    }
    trace.end(pairs.len() as u64)
}

/// A caller that lends its sink to a trace of two blocks knows afterwards what its sink took.
fn put_pairs<S: Sink>(sink: &mut S, pairs: &[(Sample, Sample)]) -> Result<(), TraceFailed>
    ensures { OnOk result
        (S.taken sink.new ≡ with_bytes (S.taken sink.old) (twin_text pairs.now)) }
{
    let mut trace = TwinVcd::new(sink);
    tell_pairs(&mut trace, pairs)
}

/// Tells what is inside a block from clock 0 on, and the end.
fn tell_insides<T: Trace<Inside>>(trace: &mut T, insides: &[Inside]) -> Result<(), TraceFailed>
    requires { T.has_failed trace.old ≡ false }
    ensures told { OnOk result ((b : Option (List ℕ)) → T.ready trace.old b
        → T.holds trace.new b insides.now true) }
    ensures same { T.name trace.new ≡ T.name trace.old }
{
    trace.begin()?;
    for (clock, inside) in insides.iter().enumerate() {
        trace.sample(clock as u64, inside)?;
    }
    trace.end(insides.len() as u64)
}

/// A caller that lends its sink to a trace of what is inside a block knows afterwards what its sink took.
fn put_insides<S: Sink>(
    sink: &mut S,
    configured: [bool; 4],
    insides: &[Inside],
) -> Result<(), TraceFailed>
    ensures { OnOk result
        (S.taken sink.new ≡ with_bytes (S.taken sink.old) (inside_text configured insides.now)) }
{
    let mut trace = InsideVcd::new(sink, configured);
    tell_insides(&mut trace, insides)
}
