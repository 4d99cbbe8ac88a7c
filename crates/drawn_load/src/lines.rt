//! The text of a summary.
ghost use Rattle.std.specs.Prelude.{◌≡◌};
ghost use Rattle.pio_edge.specs.Edge.{Takes, PutCounts};
ghost use Rattle.drawn_load.specs.Summaries.{summary_text};

use crate::summary::Summary;
use itoa::Buffer;
use pio_edge::{Sink, SinkFailed, put_all};

/// Puts the six lines of a summary. It takes no memory.
pub fn put_summary<S: Sink>(sink: &mut S, summary: &Summary) -> Result<(), SinkFailed>
    ensures bytes { Takes (S.taken sink.old) (summary_text summary.now) (S.taken sink.new) result }
    ensures cause { PutCounts (S.faults sink.old) (S.faults sink.new) result }
{
    let mut clocks = Buffer::new();
    let mut edges_0 = Buffer::new();
    let mut edges_1 = Buffer::new();
    let mut edges_3 = Buffer::new();
    let mut sent = Buffer::new();
    let mut got = Buffer::new();
    put_all(
        sink,
        &[
            b"clocks ",
            clocks.format(summary.clocks).as_bytes(),
            b"\nedges 0 ",
            edges_0.format(summary.edges_0).as_bytes(),
            b"\nedges 1 ",
            edges_1.format(summary.edges_1).as_bytes(),
            b"\nedges 3 ",
            edges_3.format(summary.edges_3).as_bytes(),
            b"\nsent ",
            sent.format(summary.sent).as_bytes(),
            b"\ngot ",
            got.format(summary.got).as_bytes(),
            b"\n",
        ],
    )
}
