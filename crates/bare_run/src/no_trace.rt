//! A trace that is thrown away.
ghost use Rattle.std.specs.Prelude.{false};

use block_core::Sample;
use sample_trace::{Trace, TraceFailed};

/// Keeps nothing of what it is told, and so never fails.
#[derive(Drop)]
pub struct NoTrace;

impl Trace<Sample> for NoTrace {
    ghost name = { λ _. 0 };

    ghost faults = { λ _. 0 };

    ghost has_failed = { λ _. false };

    ghost ready = { λ _ _. Unit {0} };

    ghost holds = { λ _ _ _ _. Unit {0} };

    ghost broken = { λ _ _ _ _. Unit {0} };

    fn begin(&mut self) -> Result<(), TraceFailed> {
        Ok(())
    }

    fn sample(&mut self, _clock: u64, _sample: &Sample) -> Result<(), TraceFailed> {
        Ok(())
    }

    fn end(&mut self, _clock: u64) -> Result<(), TraceFailed> {
        Ok(())
    }

    fn failed(&self) -> bool {
        false
    }
}
