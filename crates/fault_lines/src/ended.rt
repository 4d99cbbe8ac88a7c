//! The end of a call, on the error output.
ghost use Rattle.std.specs.Prelude.{◌≡◌};
ghost use Rattle.std.specs.Process.{exit_status};
ghost use Rattle.fault_lines.specs.Output.{output_of};
ghost use Rattle.fault_lines.specs.Told as told_spec;
ghost use Rattle.fault_lines.specs.Told.{TellsFault, TellsLine, fault_line};

use crate::fault::Fault;
use crate::told::{put_fault, status_of};
use pio_edge::{Sink, SinkFailed};
use std::process::ExitCode;

/// How a call ended.
#[derive(Drop)]
pub struct Ended {
    /// The status with which a program ends: 0 all was done, 1 a file is faulty, 2 usage, 3 a span isn't provable or a table doesn't prove it, 4 the
    /// shelf, 5 the output, 6 memory.
    pub status: u8,
    /// Why, where not all was done.
    pub fault: Option<Fault>,
}

impl Ended {
    /// The status, as that of the process.
    pub fn exit_code(&self) -> ExitCode
        ensures { exit_status result ≡ self.now.status }
    {
        ExitCode::from(self.status)
    }
}

/// Ends with a fault, which its line reports, or with none. Where the line fails there is no other place to report to.
pub fn end_with<E: Sink>(err: &mut E, fault: Option<Fault>) -> Ended
    ensures fault { result.fault ≡ fault }
    ensures status { result.status ≡ told_spec.status_of fault }
    ensures told { TellsFault (output_of (E.taken err.old) (E.waiting err.old) (E.faults err.old))
        (output_of (E.taken err.new) (E.waiting err.new) (E.faults err.new))
        fault }
{
    if let Some(fault) = &fault {
        let _ = tell(err, fault);
    }
    Ended {
        status: status_of(&fault),
        fault,
    }
}

/// Puts the line of a fault, and hands it on.
fn tell<E: Sink>(err: &mut E, fault: &Fault) -> Result<(), SinkFailed>
    ensures told { TellsLine (output_of (E.taken err.old) (E.waiting err.old) (E.faults err.old))
        (output_of (E.taken err.new) (E.waiting err.new) (E.faults err.new))
        (fault_line fault.now) }
{
    put_fault(err, fault)?;
    err.finish()
}
