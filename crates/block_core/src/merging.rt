//! What becomes of pins and flags in a clock, machine by machine in order of their numbers.
ghost use Rattle.std.specs.Prelude.{◌≡◌};
ghost use Rattle.irq_flags.specs.Flags.{merged_flags};
ghost use Rattle.block_core.specs.Merging.{nothing_wanted, with_intent};
ghost use Rattle.block_core.specs.Block as spec;
ghost use Rattle.block_core.specs.Slots.{doing};

use dreq_pacing::Due;
use irq_flags::Flags;
use sm_registers::{Intent, Outputs};

/// The levels that the outside drives, after the lines of a clock.
pub(crate) fn outside_after(outside: u32, due: Option<&Due>) -> u32
    ensures { result ≡ spec.outside_after (doing due.entry) outside }
{
    match due {
        Some(due) if due.pins != 0 => due.values | (outside & !due.pins),
        _ => outside,
    }
}

/// What the machines so far want of the block: the pins as they leave them, and the flags that they lower and raise.
#[derive(Clone, Copy)]
pub(crate) struct Wanted {
    pub outputs: Outputs,
    pub clears: u8,
    pub sets: u8,
}

impl Wanted {
    /// A clock's start: no flag is lowered or raised, and the pins stay.
    #[inline(always)]
    #[tactic(auto, unfolding(crate::specs::Merging::nothing_wanted))]
    pub fn begin(&mut self)
        ensures { self.new ≡ nothing_wanted self.old.outputs.levels self.old.outputs.directions }
    {
        self.clears = 0;
        self.sets = 0;
    }

    /// What the next machine wants, too.
    #[inline(always)]
    #[tactic(auto, unfolding(crate::specs::Merging::with_intent))]
    pub fn add(&mut self, intent: &Intent)
        ensures { self.new ≡ with_intent self.old intent.now }
    {
        self.outputs.write(intent);
        self.clears |= intent.clears;
        self.sets |= intent.sets;
    }

    /// Lowers and then raises the flags.
    pub fn merge_flags(&self, flags: &mut Flags)
        ensures { flags.new.up ≡ merged_flags flags.old.up self.now.clears self.now.sets }
    {
        flags.merge(self.clears, self.sets);
    }
}
