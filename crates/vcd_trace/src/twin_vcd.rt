//! The value-change trace of two blocks (IEEE 1364-2005, section 18), with a scope for each, line by line into a sink
//! that was lent.
ghost use Rattle.std.specs.Prelude.{◌≡◌, false, []};
ghost use Rattle.pio_edge.specs.Edge.{Takes, PutCounts, TakesPrefix};
ghost use Rattle.vcd_trace.specs.TextForm.{HasPut, added};
ghost use Rattle.vcd_trace.specs.TwinText.{twin_form, twin_open_text, twin_step_text, twin_text_of, same_samples};

use crate::changes::put_changes;
use crate::dump::put_twin_dump;
use crate::header::put_twin_header;
use crate::line::{put_clock, put_end};
use crate::variable::SECOND;
use crate::vcd::is_same;
use block_core::Sample;
use pio_edge::{Sink, SinkFailed};
use sample_trace::{Trace, TraceFailed};

/// A trace of two blocks as value-change text, of one unit a clock. Each line is put as one piece, and its faults are
/// its sink's.
#[derive(Drop)]
pub struct TwinVcd<'a, S: Sink> {
    sink: &'a mut S,
    last: Option<(Sample, Sample)>,
    failed: bool,
}

impl<'a, S: Sink> TwinVcd<'a, S> {
    /// A trace into this sink before its first clock.
    pub fn new(sink: &'a mut S) -> Self
        ensures lent { result.sink.ghost_name ≡ sink.entry.ghost_name }
        ensures same { result.sink.now ≡ sink.old }
        ensures whole { result.failed ≡ false }
    {
        TwinVcd {
            sink,
            last: None,
            failed: false,
        }
    }
}

impl<'a, S: Sink> Trace<(Sample, Sample)> for TwinVcd<'a, S> {
    ghost name = { λ h. h.sink.ghost_name };

    ghost faults = { λ h. S.faults h.sink.now };

    ghost has_failed = { λ h. h.failed };

    ghost ready = { λ h b. S.taken h.sink.now ≡ b };

    ghost holds = { λ h b l z. HasPut twin_form b l z (S.taken h.sink.now) h.last };

    ghost broken = { λ h b l z. TakesPrefix b (twin_text_of l z) (S.taken h.sink.now) };

    fn begin(&mut self) -> Result<(), TraceFailed> {
        self.last = None;
        match put_opening(self.sink) {
            Ok(()) => Ok(()),
            Err(SinkFailed) => {
                self.failed = true;
                Err(TraceFailed)
            }
        }
    }

    // Called in each clock, as that of one block.
    #[inline(never)]
    fn sample(&mut self, clock: u64, samples: &(Sample, Sample)) -> Result<(), TraceFailed> {
        match put_samples(self.sink, clock, &self.last, samples) {
            Ok(()) => {
                self.last = Some(*samples);
                Ok(())
            }
            Err(SinkFailed) => {
                self.failed = true;
                Err(TraceFailed)
            }
        }
    }

    fn end(&mut self, clock: u64) -> Result<(), TraceFailed> {
        match put_end(self.sink, clock, &self.last) {
            Ok(()) => Ok(()),
            Err(SinkFailed) => {
                self.failed = true;
                Err(TraceFailed)
            }
        }
    }

    fn failed(&self) -> bool {
        self.failed
    }
}

// The text before the first samples.
fn put_opening<S: Sink>(sink: &mut S) -> Result<(), SinkFailed>
    ensures bytes { Takes (S.taken sink.old) (twin_open_text []) (S.taken sink.new) result }
    ensures cause { PutCounts (S.faults sink.old) (S.faults sink.new) result }
{
    put_twin_header(sink)?;
    put_clock(sink, 0)
}

// What the samples of a clock add after those that were told last.
fn put_samples<S: Sink>(
    sink: &mut S,
    clock: u64,
    last: &Option<(Sample, Sample)>,
    samples: &(Sample, Sample),
) -> Result<(), SinkFailed>
    ensures bytes { Takes (S.taken sink.old)
        (added twin_form clock last.now samples.now) (S.taken sink.new) result }
    ensures cause { PutCounts (S.faults sink.old) (S.faults sink.new) result }
{
    match last {
        None => put_twin_dump(sink, &samples.0, &samples.1),
        Some(before) => put_step(sink, clock, before, samples),
    }
}

// What a clock adds after the one before it.
fn put_step<S: Sink>(
    sink: &mut S,
    clock: u64,
    before: &(Sample, Sample),
    now: &(Sample, Sample),
) -> Result<(), SinkFailed>
    ensures bytes { Takes (S.taken sink.old)
        (twin_step_text clock before.now now.now) (S.taken sink.new) result }
    ensures cause { PutCounts (S.faults sink.old) (S.faults sink.new) result }
{
    if are_same(before, now) {
        return Ok(());
    }
    put_clock(sink, clock)?;
    put_changes(sink, 0, &before.0, &now.0)?;
    put_changes(sink, SECOND, &before.1, &now.1)
}

// Whether both samples are those before.
fn are_same(before: &(Sample, Sample), now: &(Sample, Sample)) -> bool
    ensures { result ≡ same_samples before.now now.now }
{
    is_same(&before.0, &now.0) && is_same(&before.1, &now.1)
}
