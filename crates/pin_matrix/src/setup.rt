//! What a run of a block begins with.
ghost use Rattle.std.specs.Prelude.{IsTrue};
ghost use Rattle.pin_matrix.specs.Setups.{ids_are_places};

use crate::machine::MachineSetup;
use crate::span::Spans;

/// A block at the start of a run, and the spans that are asked of it. In the pins bit i is for pin i.
#[derive(Drop)]
pub struct Setup {
    /// The instruction memory.
    pub memory: [u16; 32],
    /// The machines that are configured, each at the place of its number.
    pub machines: [Option<MachineSetup>; 4],
    /// The pins that the outside drives high.
    pub high: u32,
    /// The output levels.
    pub level: u32,
    /// The pins that are outputs.
    pub out: u32,
    /// The pins without input synchroniser.
    pub bypass: u32,
    pub spans: Spans,
    pub ghost at_their_places: { IsTrue (ids_are_places 0 machines) },
}

impl Setup {
    ghost use Rattle.std.specs.Prelude.{◌≡◌, None, Some, replicate, slice_set};
    ghost use Rattle.pin_matrix.specs.Placing.{IsEmptySetup, HasRestOf};

    /// A block without machines, all of whose pins are low, inputs and synchronised.
    pub fn of(memory: [u16; 32], spans: Spans) -> Setup
        ensures idle { IsEmptySetup result }
        ensures memory { result.memory ≡ memory }
        ensures spans { result.spans ≡ spans }
    {
        Setup {
            memory,
            machines: [None; 4],
            high: 0,
            level: 0,
            out: 0,
            bypass: 0,
            spans,
        }
    }

    /// Configures a machine, instead of the one that had its number.
    pub fn place(&mut self, machine: MachineSetup)
        ensures machines { self.new.machines
            ≡ slice_set self.old.machines machine.id (Some machine) }
        ensures rest { HasRestOf self.new self.old }
    {
        self.machines[usize::from(machine.id)] = Some(machine);
    }
}
