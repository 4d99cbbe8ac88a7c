//! A sink over a writer, such as standard error, that keeps a line until it is whole.
ghost use Rattle.std.specs.Prelude.{◌≡◌, ◌≤◌, ◌+◌, ◌++◌, length, true, None, [], OnOk};
ghost use Rattle.std.specs.Io.KnownBytes.{Appends, Keeps, append_known};
ghost use Rattle.pio_edge.specs.Edge.{PutCounts};
ghost use Rattle.pio_edge.specs.Count.{call_faults};

use crate::answer::answer;
use crate::sink::{Sink, SinkFailed};
use arrayvec::ArrayVec;
use std::io::Write;

// As many bytes as a pipe takes whole, whoever else writes to it (`PIPE_BUF` of Linux).
const LINE: usize = 4096;

/// Hands on in one write what was put before `finish`, up to 4,096 bytes. It tells nothing of what the writer took.
///
/// A longer line leaves in several writes. A fault is a write or a flush that fails, or a write that takes nothing.
#[derive(Drop)]
pub struct ErrSink<W: Write + Drop> {
    writer: W,
    line: ArrayVec<u8, LINE>,
    faults: u64,
}

impl<W: Write + Drop> ErrSink<W> {
    /// Nothing was put.
    pub fn new(writer: W) -> Self
        ensures { result.faults ≡ 0 }
    {
        ErrSink {
            writer,
            line: ArrayVec::new(),
            faults: 0,
        }
    }

    /// How many calls failed, up to `u64::MAX`.
    pub fn faults(&self) -> u64
        ensures { result ≡ self.now.faults }
    {
        self.faults
    }

    // Writes what waits, in one write, and then the piece that had no room.
    fn write_past(&mut self, piece: &[u8]) -> bool
        ensures waiting { self.new.line.items ≡ [] }
        ensures faults { self.new.faults ≡ self.old.faults }
        ensures appends { result ≡ true → Appends (append_known (W.contents self.old.writer) self.old.line.items)
            (W.contents self.new.writer) piece.now }
    {
        let passed = self.writer.write_all(&self.line).is_ok();
        self.line.clear();
        passed && self.writer.write_all(piece).is_ok()
    }
}

impl<W: Write + Drop> Sink for ErrSink<W> {
    ghost taken = { λ _. None };

    ghost waiting = { λ s. s.line.items };

    ghost faults = { λ s. s.faults };

    fn put(&mut self, piece: &[u8]) -> Result<(), SinkFailed>
        ensures cause { PutCounts self.old.faults self.new.faults result }
        // One fault exactly where it fails.
        ensures counted { self.new.faults ≡ call_faults self.old.faults result }
        // Where the writer tells its bytes, these and the line are what was put.
        ensures appends { OnOk result (Appends (append_known (W.contents self.old.writer) self.old.line.items)
            (append_known (W.contents self.new.writer) self.new.line.items) piece.now) }
        // What fits waits.
        ensures waits { length self.old.line.items + length piece.now ≤ 4096 →
            self.new.line.items ≡ self.old.line.items ++ piece.now }
    {
        if self.line.try_extend_from_slice(piece).is_ok() {
            return Ok(());
        }
        let passed = self.write_past(piece);
        answer(passed, &mut self.faults)
    }

    fn finish(&mut self) -> Result<(), SinkFailed>
        ensures cause { PutCounts self.old.faults self.new.faults result }
        // One fault exactly where it fails.
        ensures counted { self.new.faults ≡ call_faults self.old.faults result }
        // At Ok the writer has everything, and nothing was appended.
        ensures handed { OnOk result (self.new.line.items ≡ []) }
        ensures keeps { OnOk result (Keeps (append_known (W.contents self.old.writer) self.old.line.items)
            (append_known (W.contents self.new.writer) self.new.line.items)) }
    {
        let passed = self.write_past(&[]) && self.writer.flush().is_ok();
        answer(passed, &mut self.faults)
    }
}
