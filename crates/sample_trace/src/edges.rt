//! A trace that counts the edges of each pin, and keeps nothing else.
ghost use Rattle.std.specs.Prelude.{◌≡◌, ◌<◌, ◌+◌, ℕ, Some, [], ◌∷◌, false, min, slice_index_or};
ghost use Rattle.sample_trace.specs.Edges.{HasCounted, HasGrown, edge_of, most, no_edges};

use crate::trace::{Trace, TraceFailed};
use block_core::Sample;
use std::marker::Model;

/// How often the output level of each pin changed in the samples that it was told of. It takes no memory, and never
/// fails.
#[derive(Drop)]
pub struct EdgeTrace {
    first: u32,
    last: u32,
    counts: [u64; 32],
}

impl Model for EdgeTrace {
    ghost use Rattle.sample_trace.specs.Edges.{Counts};

    ghost Value = { Counts };

    ghost view = { λ t. record { first = t.first; last = t.last; counts = t.counts } };
}

impl EdgeTrace {
    /// A trace before its first sample. Before the first one the output levels are these; bit i is pin i.
    pub fn new(levels: u32) -> EdgeTrace
        ensures { result ≡ no_edges levels }
    {
        EdgeTrace {
            first: levels,
            last: levels,
            counts: [0; 32],
        }
    }

    /// The edges of a pin, 0 to 31, up to `u64::MAX`.
    pub fn edges(&self, pin: u8) -> u64
        requires { pin < 32 }
        ensures { result ≡ slice_index_or self.now.counts pin 0 }
    {
        self.counts[usize::from(pin)]
    }
}

impl Trace<Sample> for EdgeTrace {
    ghost name = { λ _. 0 };

    ghost faults = { λ _. 0 };

    ghost has_failed = { λ _. false };

    ghost ready = { λ t b. b ≡ Some (t.first ∷ []) };

    ghost holds = { λ t b l _. (levels : ℕ) → b ≡ Some (levels ∷ []) → HasCounted levels l t };

    ghost broken = { λ _ _ _ _. ⊥ };

    fn begin(&mut self) -> Result<(), TraceFailed> {
        self.last = self.first;
        self.counts = [0; 32];
        Ok(())
    }

    fn sample(&mut self, _clock: u64, sample: &Sample) -> Result<(), TraceFailed> {
        if sample.level != self.last {
            count(&mut self.counts, self.last, sample.level);
            self.last = sample.level;
        }
        Ok(())
    }

    fn end(&mut self, _clock: u64) -> Result<(), TraceFailed> {
        Ok(())
    }

    fn failed(&self) -> bool {
        false
    }
}

/// Counts the edges of a clock, by the output levels before and after it.
// A call of its own, since most clocks change no level.
#[inline(never)]
fn count(counts: &mut [u64; 32], before: u32, level: u32)
    ensures { HasGrown before level counts.old counts.new }
{
    let mut changed = before ^ level;
    while changed != 0 {
        let pin = changed.trailing_zeros() as usize;
        counts[pin] = counts[pin].saturating_add(1);
        changed &= changed - 1;
    }
}
