//! The line of a table's flaw, and that of a table without one.
ghost use Rattle.std.specs.Prelude.{◌≡◌};
ghost use Rattle.pio_edge.specs.Edge.{Takes, PutCounts};
ghost use Rattle.span_texts.specs.FlawLines as spec;

use crate::words::{cause_ending, put_told_at};
use pio_edge::{Sink, SinkFailed, put_all};
use pio_encode::Name;
use span_verdict::Flaw;

/// Puts the line of a flaw of the table of the span with this name, with a text before it.
pub fn put_flaw<S: Sink>(
    sink: &mut S,
    front: &str,
    name: &Name,
    flaw: &Flaw,
) -> Result<(), SinkFailed>
    ensures bytes { Takes (S.taken sink.old) (spec.flaw_line front.now name.now flaw.now) (S.taken sink.new) result }
    ensures cause { PutCounts (S.faults sink.old) (S.faults sink.new) result }
{
    match flaw {
        Flaw::Start => put_start(sink, front, name.as_bytes()),
        Flaw::Open(context) => put_told_at(
            sink,
            front,
            name.as_bytes(),
            " table: open at ",
            context,
            "",
        ),
        Flaw::Bad(context, cause) => put_told_at(
            sink,
            front,
            name.as_bytes(),
            " table: bad at ",
            context,
            cause_ending(*cause),
        ),
    }
}

/// Puts the line of a table that was rechecked and has no flaw, of the span with this name.
pub fn put_rechecked<S: Sink>(sink: &mut S, name: &Name) -> Result<(), SinkFailed>
    ensures bytes { Takes (S.taken sink.old) (spec.rechecked_line name.now) (S.taken sink.new) result }
    ensures cause { PutCounts (S.faults sink.old) (S.faults sink.new) result }
{
    put_named(sink, name.as_bytes())
}

/// Puts the pieces of this line.
fn put_named<S: Sink>(sink: &mut S, name: &[u8]) -> Result<(), SinkFailed>
    ensures bytes { Takes (S.taken sink.old) (spec.rechecked_line name.now) (S.taken sink.new) result }
    ensures cause { PutCounts (S.faults sink.old) (S.faults sink.new) result }
{
    put_all(sink, &["span ".as_bytes(), name, " rechecked\n".as_bytes()])
}

/// Puts the line of a table without a row for the start.
fn put_start<S: Sink>(sink: &mut S, front: &str, name: &[u8]) -> Result<(), SinkFailed>
    ensures bytes { Takes (S.taken sink.old) (spec.start_line front.now name.now) (S.taken sink.new) result }
    ensures cause { PutCounts (S.faults sink.old) (S.faults sink.new) result }
{
    put_all(
        sink,
        &[front.as_bytes(), b"span ", name, b" table: start\n"],
    )
}
