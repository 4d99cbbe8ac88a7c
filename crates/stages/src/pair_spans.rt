//! The spans of two blocks on one set of pins: the first block's, and then the second's.
ghost use Rattle.stages.specs.Configured.{AreConfigured};
ghost use Rattle.stages.specs.Pairs.{AreBothRequired, AreSecondRequired};

use crate::spans::require_spans;
use fault_lines::Fault;
use pin_matrix::Setup;
use span_check::a_provable_span_holds_in_every_pair;
use std::alloc::Global;

/// Requires that each span of both blocks is provable; then each holds in every run of both. The machines of the spans are
/// configured. The fault is that of the first span that isn't provable, where the first block's come before the
/// second's, or out of memory.
pub fn require_both(alloc: Global, first: &Setup, second: &Setup) -> Result<(), Fault>
    requires first { AreConfigured first.now }
    requires second { AreConfigured second.now }
    ensures { AreBothRequired first.now second.now result }
{
    a_provable_span_holds_in_every_pair();
    require_spans(alloc, first)?;
    require_second(alloc, second)
}

/// Requires that each span of the second block is provable. The fault is that of the first one that isn't, or out of
/// memory.
fn require_second(alloc: Global, second: &Setup) -> Result<(), Fault>
    requires { AreConfigured second.now }
    ensures { AreSecondRequired second.now result }
{
    match require_spans(alloc, second) {
        Err(Fault::Unproved(place, name, refusal)) => {
            Err(Fault::SecondUnproved(place, name, refusal))
        }
        other => other,
    }
}
