//! What is known of an instruction from its word, its address and the machine's setup: it is worked out when the word
//! is decoded.
ghost use Rattle.std.specs.Prelude.{◌≡◌, ◌≤◌, if◌then◌else◌};
ghost use Rattle.sm_registers.specs.Plans as spec;
ghost use Rattle.sm_registers.specs.Tick.{next_after};
ghost use Rattle.sm_registers.specs.declared.plan.Side.TheVariants as spec_side;

use pin_matrix::{MachineSetup, writes_of};
use pio_encode::{Act, Condition, OutDestination, SetDestination};

/// What is to be done in a simple tick of an instruction.
#[derive(Clone, Copy)]
pub(crate) enum Plan {
    /// JMP without a condition.
    Jump {
        target: u8,
    },
    /// JMP `x--`.
    CountX {
        target: u8,
    },
    /// JMP `y--`.
    CountY {
        target: u8,
    },
    /// SET to pins, with the write that it makes.
    Set {
        pins: u32,
        bits: u32,
    },
    /// OUT, without autopull.
    Out {
        destination: OutDestination,
        count: u8,
    },
    /// Any other act that never waits: it is done as in any tick.
    Other,
    /// An act that may wait, or wants something of FIFOs and flags: the tick isn't a simple one.
    Whole,
}

impl Plan {
    /// The plan of an act.
    pub fn of(act: &Act, setup: &MachineSetup) -> Plan
        ensures { result ≡ spec.plan_of setup.now act.now }
    {
        match *act {
            Act::Jmp {
                condition: Condition::Always,
                address,
            } => Plan::Jump { target: address },
            Act::Jmp {
                condition: Condition::XDecrement,
                address,
            } => Plan::CountX { target: address },
            Act::Jmp {
                condition: Condition::YDecrement,
                address,
            } => Plan::CountY { target: address },
            Act::Set {
                destination: SetDestination::Pins,
                value,
            } => {
                let (pins, bits) = writes_of(&setup.set, u32::from(value));
                Plan::Set { pins, bits }
            }
            Act::Out { destination, count } => Plan::Out { destination, count },
            Act::Jmp { .. } | Act::Mov { .. } | Act::Set { .. } | Act::Nothing => Plan::Other,
            _ => Plan::Whole,
        }
    }
}

/// What side-set writes in the first tick of an instruction: the pins and their bits.
#[derive(Clone, Copy)]
pub(crate) enum Side {
    /// The instruction has no side-set.
    Nothing,
    Levels((u32, u32)),
    Directions((u32, u32)),
}

impl Side {
    /// That of a side-set value.
    pub fn of(value: Option<u8>, setup: &MachineSetup) -> Side
        ensures { result ≡ spec.side_of setup.now value }
    {
        match value {
            None => Side::Nothing,
            Some(value) if setup.side_rule.pindirs => {
                Side::Directions(writes_of(&setup.side, u32::from(value)))
            }
            Some(value) => Side::Levels(writes_of(&setup.side, u32::from(value))),
        }
    }

    /// What is written in a tick: side-set writes in the first one of an instruction alone.
    #[inline(always)]
    pub fn in_tick(self, begun: bool) -> Side
        ensures { result ≡ if begun then spec_side.Nothing else self }
    {
        if begun { Side::Nothing } else { self }
    }
}

/// The address after another: the program wraps after `wrap_top`, and the memory after 31.
pub(crate) fn next_after(setup: &MachineSetup, address: u8) -> u8
    requires { address ≤ 32 }
    ensures { result ≡ next_after setup.now address }
{
    if address == setup.wrap_top {
        setup.wrap_bottom
    } else {
        (address + 1) % 32
    }
}
