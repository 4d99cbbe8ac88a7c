//! The value-change trace (IEEE 1364-2005, section 18), line by line into a sink that was lent.
ghost use Rattle.std.specs.Prelude.{◌≡◌, false, [], Some, OnOk};
ghost use Rattle.pio_edge.specs.Edge.{Takes, PutCounts, TakesPrefix};
ghost use Rattle.block_core.specs.Sample.{same_sample};
ghost use Rattle.vcd_trace.specs.TextForm.{HasPut, added};
ghost use Rattle.vcd_trace.specs.VcdText.{vcd_form, dump_text, open_text, step_text, text_of};
ghost use Rattle.vcd_trace.specs.VcdText as spec;

use crate::changes::put_next;
use crate::clock_line::ClockLine;
use crate::dump::put_dump;
use crate::header::put_header;
use crate::line::{put_clock, put_end};
use block_core::Sample;
use pio_edge::{Sink, SinkFailed};
use sample_trace::{Trace, TraceFailed};

/// A trace as value-change text, of one unit a clock. Each line is put as one piece, and its
/// faults are its sink's.
#[derive(Drop)]
pub struct VcdTrace<'a, S: Sink> {
    sink: &'a mut S,
    last: Option<Sample>,
    line: ClockLine,
    failed: bool,
}

impl<'a, S: Sink> VcdTrace<'a, S> {
    /// A trace into this sink before its first clock.
    pub fn new(sink: &'a mut S) -> Self
        ensures lent { result.sink.ghost_name ≡ sink.entry.ghost_name }
        ensures same { result.sink.now ≡ sink.old }
        ensures whole { result.failed ≡ false }
    {
        VcdTrace {
            sink,
            last: None,
            line: ClockLine::new(),
            failed: false,
        }
    }
}

impl<'a, S: Sink> Trace<Sample> for VcdTrace<'a, S> {
    ghost name = { λ h. h.sink.ghost_name };

    ghost faults = { λ h. S.faults h.sink.now };

    ghost has_failed = { λ h. h.failed };

    ghost ready = { λ h b. S.taken h.sink.now ≡ b };

    ghost holds = { λ h b l z. HasPut vcd_form b l z (S.taken h.sink.now) h.last };

    ghost broken = { λ h b l z. TakesPrefix b (text_of l z) (S.taken h.sink.now) };

    fn begin(&mut self) -> Result<(), TraceFailed> {
        self.last = None;
        match put_opening(self.sink) {
            Ok(()) => Ok(()),
            Err(SinkFailed) => {
                self.failed = true;
                Err(TraceFailed)
            }
        }
    }

    // Called in each clock, most of which show what the one before showed.
    #[inline(always)]
    fn sample(&mut self, clock: u64, sample: &Sample) -> Result<(), TraceFailed> {
        if shows_again(&self.last, sample) {
            return Ok(());
        }
        match put_sample(self.sink, &mut self.line, clock, &mut self.last, sample) {
            Ok(()) => Ok(()),
            Err(SinkFailed) => {
                self.failed = true;
                Err(TraceFailed)
            }
        }
    }

    fn end(&mut self, clock: u64) -> Result<(), TraceFailed> {
        match put_end(self.sink, clock, &self.last) {
            Ok(()) => Ok(()),
            Err(SinkFailed) => {
                self.failed = true;
                Err(TraceFailed)
            }
        }
    }

    fn failed(&self) -> bool {
        self.failed
    }
}

// The text before the first sample.
fn put_opening<S: Sink>(sink: &mut S) -> Result<(), SinkFailed>
    ensures bytes { Takes (S.taken sink.old) (open_text []) (S.taken sink.new) result }
    ensures cause { PutCounts (S.faults sink.old) (S.faults sink.new) result }
{
    put_header(sink)?;
    put_clock(sink, 0)
}

// Whether the sample that was told last is shown again.
#[inline(always)]
fn shows_again(last: &Option<Sample>, sample: &Sample) -> bool
    ensures { result ≡ spec.shows_again last.now sample.now }
{
    match last {
        None => false,
        Some(before) => is_same(before, sample),
    }
}

// What a sample adds that isn't the one told last, and which is then that one. A call of its own, since a run has no
// registers for the samples.
#[inline(never)]
fn put_sample<S: Sink>(
    sink: &mut S,
    line: &mut ClockLine,
    clock: u64,
    last: &mut Option<Sample>,
    sample: &Sample,
) -> Result<(), SinkFailed>
    requires { spec.shows_again last.old sample.now ≡ false }
    ensures bytes { Takes (S.taken sink.old) (added vcd_form clock last.old sample.now)
        (S.taken sink.new) result }
    ensures cause { PutCounts (S.faults sink.old) (S.faults sink.new) result }
    ensures kept { OnOk result (last.new ≡ Some sample.now) }
{
    match last {
        Some(before) => put_step(sink, line, clock, before, sample),
        None => put_first(sink, last, sample),
    }
}

// What the first sample adds, which is then the one told last. A call of its own, since it is the only one.
#[inline(never)]
fn put_first<S: Sink>(
    sink: &mut S,
    last: &mut Option<Sample>,
    sample: &Sample,
) -> Result<(), SinkFailed>
    ensures bytes { Takes (S.taken sink.old) (dump_text sample.now) (S.taken sink.new) result }
    ensures cause { PutCounts (S.faults sink.old) (S.faults sink.new) result }
    ensures kept { OnOk result (last.new ≡ Some sample.now) }
{
    put_dump(sink, sample)?;
    *last = Some(*sample);
    Ok(())
}

// What a clock adds after the one before it, which shows something else. Its sample is then the last one.
fn put_step<S: Sink>(
    sink: &mut S,
    line: &mut ClockLine,
    clock: u64,
    last: &mut Sample,
    now: &Sample,
) -> Result<(), SinkFailed>
    requires { same_sample last.old now.now ≡ false }
    ensures bytes { Takes (S.taken sink.old) (step_text clock last.old now.now)
        (S.taken sink.new) result }
    ensures cause { PutCounts (S.faults sink.old) (S.faults sink.new) result }
    ensures kept { OnOk result (last.new ≡ now.now) }
{
    line.put(sink, clock)?;
    put_next(sink, last, now)
}

/// Whether a sample shows what the one before shows.
#[inline(always)]
pub(crate) fn is_same(before: &Sample, now: &Sample) -> bool
    ensures { result ≡ same_sample before.now now.now }
{
    *before == *now
}
