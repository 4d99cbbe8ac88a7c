//! The words of the lines, and the lines that tell something of a span at a context or of a number.
ghost use Rattle.std.specs.Prelude.{◌≡◌};
ghost use Rattle.pio_edge.specs.Edge.{Takes, PutCounts};
ghost use Rattle.span_texts.specs.Words as spec;

use itoa::Buffer;
use pio_edge::{Sink, SinkFailed, put_all};
use span_bounds::{Cause, Context};

/// Puts the line that tells something of the span with this name at a context, with a text before it.
pub(crate) fn put_told_at<S: Sink>(
    sink: &mut S,
    front: &str,
    name: &[u8],
    told: &str,
    context: &Context,
    ending: &str,
) -> Result<(), SinkFailed>
    ensures bytes { Takes (S.taken sink.old)
        (spec.told_at front.now name.now told.now context.now ending.now) (S.taken sink.new) result }
    ensures cause { PutCounts (S.faults sink.old) (S.faults sink.new) result }
{
    let mut x = Buffer::new();
    let mut y = Buffer::new();
    put_told_line(
        sink,
        front,
        name,
        told,
        context.address,
        known_text(context.x, &mut x),
        known_text(context.y, &mut y),
        levels_text(context.from, context.to),
        ending,
    )
}

/// Puts the pieces of this line.
fn put_told_line<'a, S: Sink>(
    sink: &mut S,
    front: &'a str,
    name: &'a [u8],
    told: &'a str,
    address: u8,
    x: &'a str,
    y: &'a str,
    levels: &'a str,
    ending: &'a str,
) -> Result<(), SinkFailed>
    ensures bytes { Takes (S.taken sink.old)
        (spec.told_line front.now name.now told.now address x.now y.now levels.now ending.now) (S.taken sink.new) result }
    ensures cause { PutCounts (S.faults sink.old) (S.faults sink.new) result }
{
    let mut number = Buffer::new();
    put_all(
        sink,
        &[
            front.as_bytes(),
            b"span ",
            name,
            told.as_bytes(),
            number.format(address).as_bytes(),
            b" x ",
            x.as_bytes(),
            b" y ",
            y.as_bytes(),
            levels.as_bytes(),
            ending.as_bytes(),
            b"\n",
        ],
    )
}

/// Puts the line that tells this of the span with this name, with a number and an ending, and with a text before it.
pub(crate) fn put_told_number<'a, S: Sink>(
    sink: &mut S,
    front: &'a str,
    name: &'a [u8],
    told: &'a str,
    number: u8,
    ending: &'a str,
) -> Result<(), SinkFailed>
    ensures bytes { Takes (S.taken sink.old)
        (spec.told_number front.now name.now told.now number ending.now) (S.taken sink.new) result }
    ensures cause { PutCounts (S.faults sink.old) (S.faults sink.new) result }
{
    let mut digits = Buffer::new();
    put_all(
        sink,
        &[
            front.as_bytes(),
            b"span ",
            name,
            told.as_bytes(),
            digits.format(number).as_bytes(),
            ending.as_bytes(),
        ],
    )
}

/// What is known of X or Y: a number, or any.
pub(crate) fn known_text(known: Option<u16>, buffer: &mut Buffer) -> &str
    ensures { result.now ≡ spec.known_text known }
{
    match known {
        Some(number) => buffer.format(number),
        None => "any",
    }
}

/// The levels of the from-pin and the to-pin.
fn levels_text(from: bool, to: bool) -> &'static str
    ensures { result.now ≡ spec.levels_text from to }
{
    match (from, to) {
        (false, false) => " from 0 to 0",
        (false, true) => " from 0 to 1",
        (true, false) => " from 1 to 0",
        (true, true) => " from 1 to 1",
    }
}

/// How a line ends that has a cause: with its code.
pub(crate) fn cause_ending(cause: Cause) -> &'static str
    ensures { result.now ≡ spec.cause_ending cause }
{
    match cause {
        Cause::U1 => ": U1",
        Cause::U2 => ": U2",
        Cause::U3 => ": U3",
        Cause::U4 => ": U4",
        Cause::U6 => ": U6",
    }
}
