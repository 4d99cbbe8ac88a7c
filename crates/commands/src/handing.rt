//! The end of each stage that writes: what the output still keeps of a text is handed on.
ghost use Rattle.std.specs.Prelude.{◌≡◌, ℕ, List};
ghost use Rattle.commands.specs.Outside.{output_by};
ghost use Rattle.commands.specs.Written.{Writes};
ghost use Rattle.fault_lines.specs.Output.{Output};
ghost use Rattle.pio_edge.specs.Edge.{PutCounts, Takes, with_bytes};

use fault_lines::Fault;
use pio_edge::{Sink, SinkFailed};

/// Hands on what the output still keeps of a text that was put; where the put failed, in whatever way, or handing on
/// fails, ends with that.
pub fn hand_on<O: Sink, E: Drop>(out: &mut O, put: Result<(), E>) -> Result<(), Fault>
    ensures { (before : Output) (text : List ℕ) → Takes before.taken text (O.taken out.old) put
        → PutCounts before.faults (O.faults out.old) put
        → Writes before (output_by O.Sink out.new) text result }
{
    match put {
        Ok(()) => finish(out),
        Err(_) => Err(Fault::Out),
    }
}

/// Hands on what the output still keeps of a text that it has taken.
fn finish<O: Sink>(out: &mut O) -> Result<(), Fault>
    ensures { (before : Output) (text : List ℕ) → O.taken out.old ≡ with_bytes before.taken text
        → O.faults out.old ≡ before.faults → Writes before (output_by O.Sink out.new) text result }
{
    match out.finish() {
        Ok(()) => Ok(()),
        Err(SinkFailed) => Err(Fault::Out),
    }
}
