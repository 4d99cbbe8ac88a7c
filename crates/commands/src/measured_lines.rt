//! The lines of what was measured of spans.
ghost use Rattle.std.specs.Prelude.{◌≡◌, length};
ghost use Rattle.commands.specs.Written.{SinkWrites};
ghost use Rattle.commands.specs.Metered.{seen_lines, seen_of_each};
ghost use Rattle.pio_edge.specs.Edge.{PutCounts, Takes};
ghost use Rattle.span_meter.specs.SeenText.{seen_line};

use crate::handing::hand_on;
use crate::metered::Metered;
use fault_lines::Fault;
use pin_matrix::Span;
use pio_edge::{Sink, SinkFailed};
use span_meter::{SeenDistances, put_seen};

/// Writes the lines of what a meter of these spans has measured, and hands on what the output still keeps. It takes no
/// memory.
pub(crate) fn write_lines<O: Sink>(
    out: &mut O,
    spans: &[Span],
    meter: &Metered,
) -> Result<(), Fault>
    requires { length (seen_of_each meter.now) ≡ length spans.now }
    ensures { SinkWrites O.Sink out.old out.new
        (seen_lines spans.now (seen_of_each meter.now)) result }
{
    let put = put_lines(out, spans, meter);
    hand_on(out, put)
}

/// Puts the lines of what a meter of these spans has measured.
fn put_lines<O: Sink>(out: &mut O, spans: &[Span], meter: &Metered) -> Result<(), SinkFailed>
    requires { length (seen_of_each meter.now) ≡ length spans.now }
    ensures bytes { Takes (O.taken out.old) (seen_lines spans.now (seen_of_each meter.now))
        (O.taken out.new) result }
    ensures cause { PutCounts (O.faults out.old) (O.faults out.new) result }
{
    for place in 0..spans.len() {
        put_line(out, &spans[place], meter.seen(place))?;
    }
    Ok(())
}

/// Puts the line of what was measured of a span.
fn put_line<O: Sink>(out: &mut O, span: &Span, seen: SeenDistances) -> Result<(), SinkFailed>
    ensures bytes { Takes (O.taken out.old) (seen_line span.now.name seen) (O.taken out.new) result }
    ensures cause { PutCounts (O.faults out.old) (O.faults out.new) result }
{
    put_seen(out, &span.name, seen)
}
