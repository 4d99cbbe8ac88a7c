//! A trace that looks whether it is told of other clocks than those of a list.
ghost use Rattle.std.specs.Prelude.{false};

use sample_trace::{Trace, TraceFailed};

/// It keeps no samples, and never fails.
#[derive(Drop)]
pub struct ClockWatch {
    pub listed: Vec<u64>,
    /// The last clock besides that it was told of.
    pub other: Option<u64>,
}

impl ClockWatch {
    fn watch(&mut self, clock: u64) {
        if !self.listed.contains(&clock) {
            self.other = Some(clock);
        }
    }
}

impl<V> Trace<V> for ClockWatch {
    ghost name = { λ _. 0 };

    ghost faults = { λ _. 0 };

    ghost has_failed = { λ _. false };

    ghost ready = { λ _ _. Unit {0} };

    ghost holds = { λ _ _ _ _. Unit {0} };

    ghost broken = { λ _ _ _ _. Unit {0} };

    fn begin(&mut self) -> Result<(), TraceFailed> {
        Ok(())
    }

    fn sample(&mut self, clock: u64, _shown: &V) -> Result<(), TraceFailed> {
        self.watch(clock);
        Ok(())
    }

    fn end(&mut self, _clock: u64) -> Result<(), TraceFailed> {
        Ok(())
    }

    fn failed(&self) -> bool {
        false
    }
}
