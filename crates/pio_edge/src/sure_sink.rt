//! A sink that never fails, and keeps only how many bytes were put.
ghost use Rattle.std.specs.Prelude.{◌≡◌, ◌+◌, ◌-◌, ◌^◌, None, [], IsOk, length, min};

use crate::sink::{Sink, SinkFailed};

/// Counts the bytes that are put, up to `u64::MAX`, and keeps none of them.
#[derive(Debug, Drop)]
pub struct SureSink {
    count: u64,
}

impl SureSink {
    /// Nothing was put.
    pub const fn new() -> Self
        ensures { result.count ≡ 0 }
    {
        SureSink { count: 0 }
    }

    /// How many bytes were put, up to `u64::MAX`.
    pub fn count(&self) -> u64
        ensures { result ≡ self.now.count }
    {
        self.count
    }
}

impl Sink for SureSink {
    ghost taken = { λ _. None };

    ghost waiting = { λ _. [] };

    ghost faults = { λ _. 0 };

    fn put(&mut self, piece: &[u8]) -> Result<(), SinkFailed>
        ensures ok { IsOk result }
        ensures count { self.new.count ≡ min (self.old.count + length piece.now) (2 ^ 64 - 1) }
    {
        self.count = self.count.saturating_add(piece.len() as u64);
        Ok(())
    }

    fn finish(&mut self) -> Result<(), SinkFailed>
        ensures ok { IsOk result }
        ensures same { self.new ≡ self.old }
    {
        Ok(())
    }
}
