//! Where a run starts without a configuration.
ghost use Rattle.std.specs.Prelude.{◌≡◌, ◌+◌, ◌≤◌, length, map, IsErr, Some, None, [], ◌∷◌};
ghost use Rattle.pio_assemble.specs.Program.{assembled_of};
ghost use Rattle.answers.specs.Answers.{Answers, made};
ghost use Rattle.block_config.specs.Answer.{told};
ghost use Rattle.setup_keys.specs.Block.{keys_of_block, keys_of_machine};
ghost use Rattle.block_config.specs.Default as default;
ghost use Rattle.block_config.specs.Default.{default_setup_of};
ghost use Rattle.block_config.specs.SetupOf as spec;

use crate::fault::{ConfigFault, ConfigKind};
use crate::memory::{fits_at, loaded};
use crate::path::fault_at;
use pin_matrix::{MachineSetup, Setup, Spans};
use pio_assemble::Program;
use std::alloc::Global;

/// The setup without a configuration: the first program, at its origin or else at address 0, on machine 0, with all else
/// at its default. Its faults are on `default`: `NoProgram` where there is none, `DoesNotFit` where it doesn't fit.
pub fn default_setup(alloc: Global, programs: &[Program]) -> Result<Setup, ConfigFault>
    ensures value { Answers told result (default_setup_of (map assembled_of programs.now)) }

    // A setup takes no memory: only a fault does, for its key.
    ensures setup { IsErr result → IsErr (default_setup_of (map assembled_of programs.now)) }
{
    match programs {
        [program, ..] => setup_of(alloc, program),
        [] => Err(fault_at(alloc, "default", ConfigKind::NoProgram)),
    }
}

/// The setup with a program on machine 0.
fn setup_of(alloc: Global, program: &Program) -> Result<Setup, ConfigFault>
    ensures value { Answers told result
        (made spec.setup_of (default.block_of (assembled_of program.now))) }
    ensures setup { IsErr result → IsErr
        (made spec.setup_of (default.block_of (assembled_of program.now))) }
{
    let address = program.origin.unwrap_or(0);
    if !fits_at(address, &program.words) {
        return Err(fault_at(alloc, "default", ConfigKind::DoesNotFit));
    }
    let memory = loaded(&[0; 32], address, &program.words);
    Ok(block_of(alloc, memory, machine_of(program, address)))
}

/// A block with machine 0 alone.
fn block_of(alloc: Global, memory: [u16; 32], machine: MachineSetup) -> Setup
    requires first { machine.id ≡ 0 }
    ensures { keys_of_block result
        ≡ default.quiet_block memory (Some (keys_of_machine machine) ∷ None ∷ None ∷ None ∷ []) }
{
    let mut setup = Setup::of(memory, Spans::empty(alloc));
    setup.place(machine);
    setup
}

/// Machine 0 with a program that is loaded at an address, and all else at its default.
fn machine_of(program: &Program, address: u8) -> MachineSetup
    requires { address + length program.now.words.items ≤ 32 }
    ensures { keys_of_machine result ≡ default.machine_keys 0 address (assembled_of program.now) }
{
    let mut machine = MachineSetup::of(0, program.side);
    machine.start = address;
    machine.wrap_bottom = address + program.wrap_bottom;
    machine.wrap_top = address + program.wrap_top;
    machine
}
