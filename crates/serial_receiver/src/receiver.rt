//! The trace that receives: each frame's line is put when its stop bit is known.
ghost use Rattle.std.specs.Prelude.{◌≡◌, ◌+◌, ◌<◌, ◌≤◌, ℕ, Bool, List, Option, [], ◌++◌, false};
ghost use Rattle.pio_edge.specs.Edge.{Takes, PutCounts, TakesPrefix};
ghost use Rattle.serial_receiver.specs.Frames.{frames, levels_of};
ghost use Rattle.serial_receiver.specs.FrameText.{frames_text};
ghost use Rattle.serial_receiver.specs.Hearing.{Receives, first_heard, frame_list};

use crate::frame::{Frame, put_frame};
use crate::line::{Heard, LineSoFar};
use block_core::Sample;
use pin_matrix::is_high;
use pio_edge::{Sink, SinkFailed};
use sample_trace::{Trace, TraceFailed};

/// The frames that it hears on a pin, as text: `byte 0x41 at 9` where a stop bit is high, else `bad at 9`, by the byte
/// and the clock in which the frame begins. Its faults are its sink's.
#[derive(Drop)]
pub struct Receiver<'a, S: Sink> {
    sink: &'a mut S,
    pin: u8,
    bit: u16,
    first: bool,
    line: LineSoFar,
    failed: bool,
    ghost pin_is_a_pin: { pin < 32 },
    ghost two_clocks: { 2 ≤ bit },
}

impl<'a, S: Sink> Receiver<'a, S> {
    /// A receiver into this sink before its first clock: its pin, 0 to 31, the clocks of a bit, from 2 on, and the
    /// level before clock 0.
    pub fn new(sink: &'a mut S, pin: u8, bit: u16, level: bool) -> Self
        requires pin { pin < 32 }
        requires bit { 2 ≤ bit }
        ensures lent { result.sink.ghost_name ≡ sink.entry.ghost_name }
        ensures same { result.sink.now ≡ sink.old }
        ensures whole { result.failed ≡ false }
        ensures pin { result.pin ≡ pin }
        ensures bit { result.bit ≡ bit }
        ensures level { result.first ≡ level }
    {
        Receiver {
            sink,
            pin,
            bit,
            first: level,
            line: LineSoFar::new(level),
            failed: false,
        }
    }
}

impl<'a, S: Sink> Trace<Sample> for Receiver<'a, S> {
    ghost name = { λ h. h.sink.ghost_name };

    ghost faults = { λ h. S.faults h.sink.now };

    ghost has_failed = { λ h. h.failed };

    ghost ready = { λ h b. b ≡ first_heard h.pin h.bit h.first (S.taken h.sink.now) };

    ghost holds = { λ h b l _. (pin bit : ℕ) (level : Bool) (taken : Option (List ℕ))
        → b ≡ first_heard pin bit level taken
        → Receives pin bit level taken l (S.taken h.sink.now) h.pin h.bit h.line };

    ghost broken = { λ h b l _. (pin bit : ℕ) (level : Bool) (taken : Option (List ℕ))
        → b ≡ first_heard pin bit level taken
        → TakesPrefix taken (frames_text (frames bit level (levels_of pin l))) (S.taken h.sink.now) };

    fn begin(&mut self) -> Result<(), TraceFailed> {
        self.line = LineSoFar::new(self.first);
        Ok(())
    }

    fn sample(&mut self, clock: u64, sample: &Sample) -> Result<(), TraceFailed> {
        let level = is_high(sample.level, self.pin);
        let held = self.line.held(self.bit, clock);
        let now = held.line.after(self.bit, clock, level);
        self.line = now.line;
        match put_frames(self.sink, held.frame, now.frame) {
            Ok(()) => Ok(()),
            Err(SinkFailed) => {
                self.failed = true;
                Err(TraceFailed)
            }
        }
    }

    fn end(&mut self, clock: u64) -> Result<(), TraceFailed> {
        let held = self.line.held(self.bit, clock);
        self.line = held.line;
        match put_frames(self.sink, held.frame, None) {
            Ok(()) => Ok(()),
            Err(SinkFailed) => {
                self.failed = true;
                Err(TraceFailed)
            }
        }
    }

    fn failed(&self) -> bool {
        self.failed
    }
}

/// Puts the lines of two frames, of those that there are.
fn put_frames<S: Sink>(
    sink: &mut S,
    one: Option<Frame>,
    two: Option<Frame>,
) -> Result<(), SinkFailed>
    ensures bytes { Takes (S.taken sink.old) (frames_text (frame_list one ++ frame_list two))
        (S.taken sink.new) result }
    ensures cause { PutCounts (S.faults sink.old) (S.faults sink.new) result }
{
    put_any(sink, one)?;
    put_any(sink, two)
}

/// Puts the line of a frame, where there is one.
fn put_any<S: Sink>(sink: &mut S, frame: Option<Frame>) -> Result<(), SinkFailed>
    ensures bytes { Takes (S.taken sink.old) (frames_text (frame_list frame)) (S.taken sink.new) result }
    ensures cause { PutCounts (S.faults sink.old) (S.faults sink.new) result }
{
    match frame {
        None => Ok(()),
        Some(frame) => put_frame(sink, frame),
    }
}
