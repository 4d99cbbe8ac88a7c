//! A frame, and its line of text.
ghost use Rattle.std.specs.Prelude.{◌≡◌, ◌<◌, ◌∷◌, []};
ghost use Rattle.pio_edge.specs.Edge.{Takes, PutCounts};
ghost use Rattle.serial_receiver.specs.FrameText as spec;

use itoa::Buffer;
use pio_edge::{Sink, SinkFailed, put_all};

/// A start bit, eight data bits and a stop bit.
#[derive(Clone, Copy)]
pub struct Frame {
    /// The clock in which the level falls.
    pub start: u64,
    /// The data bits, bit 0 first.
    pub byte: u8,
    /// Whether the stop bit is high.
    pub good: bool,
}

/// Puts the line of a frame.
#[tactic(auto, unfolding(crate::specs::FrameText::frame_line))]
pub(crate) fn put_frame<S: Sink>(sink: &mut S, frame: Frame) -> Result<(), SinkFailed>
    ensures bytes { Takes (S.taken sink.old) (spec.frame_line frame) (S.taken sink.new) result }
    ensures cause { PutCounts (S.faults sink.old) (S.faults sink.new) result }
{
    if frame.good {
        put_byte(sink, frame)
    } else {
        put_bad(sink, frame)
    }
}

fn put_byte<S: Sink>(sink: &mut S, frame: Frame) -> Result<(), SinkFailed>
    ensures bytes { Takes (S.taken sink.old) (spec.byte_line frame) (S.taken sink.new) result }
    ensures cause { PutCounts (S.faults sink.old) (S.faults sink.new) result }
{
    let mut number = Buffer::new();
    let digits = [digit(frame.byte / 16), digit(frame.byte % 16)];
    put_all(
        sink,
        &[
            b"byte 0x",
            &digits,
            b" at ",
            number.format(frame.start).as_bytes(),
            b"\n",
        ],
    )
}

fn put_bad<S: Sink>(sink: &mut S, frame: Frame) -> Result<(), SinkFailed>
    ensures bytes { Takes (S.taken sink.old) (spec.bad_line frame) (S.taken sink.new) result }
    ensures cause { PutCounts (S.faults sink.old) (S.faults sink.new) result }
{
    let mut number = Buffer::new();
    put_all(
        sink,
        &[b"bad at ", number.format(frame.start).as_bytes(), b"\n"],
    )
}

/// A hexadecimal digit.
fn digit(number: u8) -> u8
    requires { number < 16 }
    ensures { result ≡ spec.hexadecimal_digit number }
{
    if number < 10 {
        b'0' + number
    } else {
        b'a' - 10 + number
    }
}
