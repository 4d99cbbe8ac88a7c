//! The line of what was measured of a span.
ghost use Rattle.std.specs.Prelude.{◌≡◌, Some};
ghost use Rattle.pio_edge.specs.Edge.{Takes, PutCounts};
ghost use Rattle.span_meter.specs.SeenText as spec;

use crate::seen::SeenDistances;
use itoa::Buffer;
use pio_edge::{Sink, SinkFailed, put_all};
use pio_encode::Name;

/// Puts the line of what was measured of the span with this name. It takes no memory.
#[tactic(auto, unfolding(crate::specs::SeenText::seen_line))]
pub fn put_seen<S: Sink>(sink: &mut S, name: &Name, seen: SeenDistances) -> Result<(), SinkFailed>
    ensures bytes { Takes (S.taken sink.old) (spec.seen_line name.now seen) (S.taken sink.new) result }
    ensures cause { PutCounts (S.faults sink.old) (S.faults sink.new) result }
{
    put_front(sink, name.as_bytes(), seen)?;
    put_end(sink, seen.assumed)
}

/// Puts the front of the line: the name and what there is of pairs.
fn put_front<S: Sink>(sink: &mut S, name: &[u8], seen: SeenDistances) -> Result<(), SinkFailed>
    ensures bytes { Takes (S.taken sink.old) (spec.front_text name.now seen) (S.taken sink.new) result }
    ensures cause { PutCounts (S.faults sink.old) (S.faults sink.new) result }
{
    if seen.pairs == 0 {
        put_no_pairs(sink, name)
    } else {
        put_pairs(sink, name, seen)
    }
}

/// Puts the pieces of the front of a span with pairs.
fn put_pairs<S: Sink>(sink: &mut S, name: &[u8], seen: SeenDistances) -> Result<(), SinkFailed>
    ensures bytes { Takes (S.taken sink.old) (spec.pairs_text name.now seen) (S.taken sink.new) result }
    ensures cause { PutCounts (S.faults sink.old) (S.faults sink.new) result }
{
    let (mut pairs, mut least, mut most) = (Buffer::new(), Buffer::new(), Buffer::new());
    put_all(
        sink,
        &[
            b"span ",
            name,
            b" seen ",
            pairs.format(seen.pairs).as_bytes(),
            b" least ",
            least.format(seen.least).as_bytes(),
            b" most ",
            most.format(seen.most).as_bytes(),
        ],
    )
}

/// Puts the pieces of the front of a span without pairs.
fn put_no_pairs<S: Sink>(sink: &mut S, name: &[u8]) -> Result<(), SinkFailed>
    ensures bytes { Takes (S.taken sink.old) (spec.no_pairs_text name.now) (S.taken sink.new) result }
    ensures cause { PutCounts (S.faults sink.old) (S.faults sink.new) result }
{
    put_all(sink, &[b"span ", name, " seen 0".as_bytes()])
}

/// Puts the end of the line: up to where X and Y are as assumed, if there is an end of that.
fn put_end<S: Sink>(sink: &mut S, assumed: Option<u64>) -> Result<(), SinkFailed>
    ensures bytes { Takes (S.taken sink.old) (spec.end_text assumed) (S.taken sink.new) result }
    ensures cause { PutCounts (S.faults sink.old) (S.faults sink.new) result }
{
    match assumed {
        Some(clock) => put_assumed(sink, clock),
        None => sink.put(b"\n"),
    }
}

/// Puts the pieces of the end of the line where X and Y are no longer as assumed in this clock.
fn put_assumed<S: Sink>(sink: &mut S, clock: u64) -> Result<(), SinkFailed>
    ensures bytes { Takes (S.taken sink.old) (spec.end_text (Some clock)) (S.taken sink.new) result }
    ensures cause { PutCounts (S.faults sink.old) (S.faults sink.new) result }
{
    let mut number = Buffer::new();
    put_all(
        sink,
        &[b" assumed up to ", number.format(clock).as_bytes(), b"\n"],
    )
}
