//! A sink over a writer, such as standard output, that hands bytes on in large blocks.
ghost use Rattle.std.specs.Prelude.{◌≡◌, [], None, IfOk, OnOk};
ghost use Rattle.std.specs.Io.Buffered.{writer_contents, writer_buffer};
ghost use Rattle.std.specs.Io.KnownBytes.{Appends, Keeps};
ghost use Rattle.pio_edge.specs.Edge.{PutCounts};
ghost use Rattle.pio_edge.specs.Count.{call_faults};

use crate::answer::answer;
use crate::sink::{Sink, SinkFailed};
use std::alloc::{AllocError, Global};
use std::io::{BufWriter, Write};

// The buffer leaves before a piece that it has no room for, so half of this is the least block.
const BUFFER: usize = 131_072;

/// Hands on what is put in blocks of 64 KiB or more, where no piece is longer than 64 KiB.
///
/// `finish` hands on the rest. It tells nothing of what the writer took.
///
/// A fault is a write or a flush that fails, or a write that takes nothing.
#[derive(Drop)]
pub struct OutSink<W: Write + Drop> {
    writer: BufWriter<W>,
    faults: u64,
}

impl<W: Write + Drop> OutSink<W> {
    /// Nothing was put. An error is want of memory for the buffer of 128 KiB.
    pub fn new(alloc: Global, writer: W) -> Result<Self, AllocError>
        ensures { IfOk result (λ s. s.faults ≡ 0) }
    {
        match BufWriter::with_capacity(alloc, BUFFER, writer) {
            Ok(writer) => Ok(OutSink { writer, faults: 0 }),
            Err(_) => Err(AllocError),
        }
    }

    // Puts a piece for which the buffer may have no room left.
    #[cold]
    #[inline(never)]
    fn put_past(&mut self, piece: &[u8]) -> Result<(), SinkFailed>
        ensures cause { PutCounts self.old.faults self.new.faults result }
        ensures counted { self.new.faults ≡ call_faults self.old.faults result }
        ensures appends { OnOk result (Appends (writer_contents W.contents self.old.writer)
            (writer_contents W.contents self.new.writer) piece.now) }
    {
        let passed = self.writer.write_all(piece).is_ok();
        answer(passed, &mut self.faults)
    }

    /// How many calls failed, up to `u64::MAX`.
    pub fn faults(&self) -> u64
        ensures { result ≡ self.now.faults }
    {
        self.faults
    }
}

impl<W: Write + Drop> Sink for OutSink<W> {
    ghost taken = { λ _. None };

    ghost waiting = { λ s. writer_buffer s.writer };

    ghost faults = { λ s. s.faults };

    fn put(&mut self, piece: &[u8]) -> Result<(), SinkFailed>
        ensures cause { PutCounts self.old.faults self.new.faults result }
        // One fault exactly where it fails.
        ensures counted { self.new.faults ≡ call_faults self.old.faults result }
        // Where the writer tells its bytes, these and the buffer are what was put.
        ensures appends { OnOk result (Appends (writer_contents W.contents self.old.writer)
            (writer_contents W.contents self.new.writer) piece.now) }
    {
        // The writer's own test, which then drops out, and with it the room for an error.
        if piece.len()
            < self
                .writer
                .capacity()
                .wrapping_sub(self.writer.buffer().len())
        {
            let passed = self.writer.write_all(piece).is_ok();
            return answer(passed, &mut self.faults);
        }
        self.put_past(piece)
    }

    fn finish(&mut self) -> Result<(), SinkFailed>
        ensures cause { PutCounts self.old.faults self.new.faults result }
        // One fault exactly where it fails.
        ensures counted { self.new.faults ≡ call_faults self.old.faults result }
        // At Ok the writer has everything, and nothing was appended.
        ensures handed { OnOk result (writer_buffer self.new.writer ≡ []) }
        ensures keeps { Keeps (writer_contents W.contents self.old.writer)
            (writer_contents W.contents self.new.writer) }
    {
        let passed = self.writer.flush().is_ok();
        answer(passed, &mut self.faults)
    }
}
