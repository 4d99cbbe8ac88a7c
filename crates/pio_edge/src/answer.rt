//! A sink's answer, with its fault counted.
ghost use Rattle.std.specs.Prelude.{◌≡◌, is_ok};
ghost use Rattle.pio_edge.specs.Edge.{PutCounts};
ghost use Rattle.pio_edge.specs.Count.{call_faults};

use crate::sink::SinkFailed;

// Ok where the call passed, and else one fault more.
pub(crate) fn answer(passed: bool, faults: &mut u64) -> Result<(), SinkFailed>
    ensures ok { is_ok result ≡ passed }
    ensures cause { PutCounts faults.old faults.new result }
    ensures counted { faults.new ≡ call_faults faults.old result }
{
    if passed {
        return Ok(());
    }
    *faults = faults.saturating_add(1);
    Err(SinkFailed)
}
