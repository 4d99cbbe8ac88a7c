//! Where bytes go: pieces are put one after another, and may wait until the sink is finished.
ghost use Rattle.std.specs.Prelude.{◌≡◌, ℕ, Option, List, [], OnOk};
ghost use Rattle.pio_edge.specs.Edge.{Takes, PutCounts};

/// A sink took only a first part of what was put, or its end wasn't told. Its count of faults rose.
#[derive(Clone, Copy, Debug, PartialEq, Eq)]
pub struct SinkFailed;

/// A place that takes bytes.
pub trait Sink {
    /// What it has taken, where that is told.
    ghost taken: { Self → Option (List ℕ) };

    /// The bytes that it has taken and not yet handed on.
    ghost waiting: { Self → List ℕ };

    /// How many faults there were.
    ghost faults: { Self → ℕ };

    /// Puts a piece after what it has taken, and may let it wait. Where that fails it has taken a first part of the piece.
    fn put(&mut self, piece: &[u8]) -> Result<(), SinkFailed>
        ensures bytes { Takes (taken self.old) piece.now (taken self.new) result }
        ensures cause { PutCounts (faults self.old) (faults self.new) result };

    /// Hands on all that still waits. Nothing is appended.
    fn finish(&mut self) -> Result<(), SinkFailed>
        ensures bytes { taken self.new ≡ taken self.old }
        ensures handed { OnOk result (waiting self.new ≡ []) }
        ensures cause { PutCounts (faults self.old) (faults self.new) result };
}
