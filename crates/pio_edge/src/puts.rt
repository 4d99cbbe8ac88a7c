//! Puts one after the other.
ghost use Rattle.std.specs.Prelude.{◌≡◌, ℕ, flat_map};
ghost use Rattle.pio_edge.specs.Edge.{Takes, PutCounts};

use crate::sink::{Sink, SinkFailed};

/// Puts the pieces in their order, as one put of all of them joined.
///
/// It stops at the first that fails.
pub fn put_all<S: Sink>(sink: &mut S, pieces: &[&[u8]]) -> Result<(), SinkFailed>
    ensures bytes { Takes (S.taken sink.old) (flat_map (λ p. p.now) pieces.now)
        (S.taken sink.new) result }
    ensures cause { PutCounts (S.faults sink.old) (S.faults sink.new) result }
{
    for piece in pieces {
        sink.put(piece)?;
    }
    Ok(())
}
