//! What a tick wants of its block: all that it does outside the machine's registers.
ghost use Rattle.std.specs.Prelude.{◌≡◌, [], ◌∷◌, if◌then◌else◌};
ghost use Rattle.sm_registers.specs.Ends.{end_level, end_direction, end_stalls};
ghost use Rattle.sm_registers.specs.declared.intent.Kind.TheVariants.{Late, First};
ghost use Rattle.sm_registers.specs.Intents.{no_intent};
ghost use Rattle.sm_registers.specs.Plans.{side_level, side_direction};

use crate::end::End;
use crate::plan::Side;

/// Which tick of its instruction a tick is.
#[derive(Clone, Copy)]
pub enum Kind {
    /// None: the machine has no tick in the clock.
    Off,
    /// The first tick of an instruction.
    First,
    /// One of an instruction that has begun: it stalled in each tick before.
    Late,
    /// One of the delay after an instruction.
    Delay,
}

impl Kind {
    /// That of a tick of an instruction, by whether the instruction had begun.
    #[inline(always)]
    pub(crate) fn of(begun: bool) -> Kind
        ensures { result ≡ if begun then Late else First }
    {
        if begun { Kind::Late } else { Kind::First }
    }
}

/// What a tick does outside the machine's registers, which `settle` and the block carry out. A write to pins is the
/// pins and the bits that they get.
#[derive(Clone, Copy)]
pub struct Intent {
    /// The writes to levels: the instruction's, and then side-set's, which takes precedence.
    pub level: [(u32, u32); 2],
    /// The writes to directions, in the same order.
    pub direction: [(u32, u32); 2],
    /// The flags that it lowers. Bit i is that of flag i.
    pub clears: u8,
    /// The flags that it raises.
    pub sets: u8,
    /// Whether it takes the oldest word of TX.
    pub take: bool,
    /// The word that it gives to RX, if any.
    pub word: Option<u32>,
    /// The sticky FIFO flags that it raises.
    pub sticky: u8,
    /// Which tick of its instruction this is.
    pub kind: Kind,
    /// Whether the instruction stalled.
    pub stalled: bool,
}

impl Intent {
    /// That of a clock without a tick.
    #[inline(always)]
    pub fn none() -> Intent
        ensures { result ≡ no_intent }
    {
        Intent {
            level: [(0, 0); 2],
            direction: [(0, 0); 2],
            clears: 0,
            sets: 0,
            take: false,
            word: None,
            sticky: 0,
            kind: Kind::Off,
            stalled: false,
        }
    }

    /// That of an instruction's tick, by what the instruction wants of FIFOs and flags.
    #[inline(always)]
    pub(crate) fn of(kind: Kind, end: End, side: Side, wants: Intent) -> Intent
        ensures { result ≡ record wants {
          level = end_level end ∷ side_level side ∷ [];
          direction = end_direction end ∷ side_direction side ∷ [];
          kind = kind;
          stalled = end_stalls end;
        } }
    {
        let mut intent = Intent {
            level: [(0, 0); 2],
            direction: [(0, 0); 2],
            kind,
            stalled: false,
            ..wants
        };
        match end {
            End::Stalls => intent.stalled = true,
            End::Levels(write) => intent.level[0] = write,
            End::Directions(write) => intent.direction[0] = write,
            _ => {}
        }
        match side {
            Side::Nothing => {}
            Side::Levels(write) => intent.level[1] = write,
            Side::Directions(write) => intent.direction[1] = write,
        }
        intent
    }
}
