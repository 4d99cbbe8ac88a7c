//! A place of a block: its machine, where one is configured.
ghost use Rattle.std.specs.Prelude.{◌≡◌, ◌<◌, ◌||◌, true, false, Some, option_map, IfOk};
ghost use Rattle.block_core.specs.Inside.{machine_inside};
ghost use Rattle.block_core.specs.Kept.{IsInTime};
ghost use Rattle.block_core.specs.Kept as kept;
ghost use Rattle.block_core.specs.Merging.{with_intent};
ghost use Rattle.block_core.specs.Shown.{Shows, shown_in, moved_in, with_shown};
ghost use Rattle.dreq_pacing.specs.Due.{quiet};
ghost use Rattle.block_core.specs.Slots.{doing, first_slot, has_tick, place_after, place_intent, place_uses_fifos, slot_after, slot_intent, slot_uses_fifos};

use crate::Sample;
use crate::inside::MachineInside;
use crate::merging::Wanted;
use crate::slot::Slot;
use dreq_pacing::Due;
use fifo_pair::{Fifo, a_quiet_clock_changes_nothing};
use pin_matrix::MachineSetup;
use sm_registers::{Intent, Shown, View};
use std::alloc::{AllocError, Global};

/// The place of a setup's machine.
pub(crate) fn slot_of<F: Fifo>(
    alloc: Global,
    setup: &Option<MachineSetup>,
) -> Result<Option<Slot<F>>, AllocError>
    ensures { IfOk result (λ slot. slot ≡ option_map first_slot setup.now) }
{
    match setup {
        Some(setup) => Ok(Some(Slot::new(alloc, setup)?)),
        None => Ok(None),
    }
}

/// Whether three places of a setup are empty.
pub(crate) fn are_empty(
    second: &Option<MachineSetup>,
    third: &Option<MachineSetup>,
    fourth: &Option<MachineSetup>,
) -> bool
    ensures { result ≡ kept.are_empty second.now third.now fourth.now }
{
    second.is_none() && third.is_none() && fourth.is_none()
}

/// A clock of a place, whose machine adds what it wants of the block. The sample, which has what was seen of the place,
/// gets what is seen of it now. True where anything was done at its FIFOs, or at those of the machines before it.
#[inline(always)]
#[tactic(auto, using(crate::proofs::MergedWants::nothing_added))]
pub(crate) fn step<F: Fifo>(
    slot: &mut Option<Slot<F>>,
    view: &View,
    due: Option<&Due>,
    wanted: &mut Wanted,
    place: usize,
    sample: &mut Sample,
    used: bool,
) -> bool
    requires time { IsInTime slot.old }
    requires place { place < 4 }
    requires shows { Shows place slot.old sample.old }
    ensures after { slot.new ≡ place_after view.now (doing due.entry) slot.old }
    ensures wanted { wanted.new ≡ with_intent wanted.old
        (place_intent view.now (doing due.entry) slot.old) }
    ensures used { result ≡ (used || place_uses_fifos view.now (doing due.entry) slot.old) }
    ensures sample { sample.new ≡ with_shown place (shown_in slot.new) sample.old }
{
    a_quiet_clock_changes_nothing();
    let Some(slot) = slot else {
        return used;
    };
    let Some(due) = due else {
        if slot
            .simple_clock(view, &mut wanted.outputs, false)
            .is_done()
        {
            return used;
        }
        return used | quiet_tick(slot, view, wanted, place, sample);
    };
    used | due_step(slot, view, due, wanted, place, sample)
}

/// A tick of a machine in a clock in which the system does nothing. It is one piece of code, which all four call.
#[inline(never)]
fn quiet_tick<F: Fifo>(
    slot: &mut Slot<F>,
    view: &View,
    wanted: &mut Wanted,
    place: usize,
    sample: &mut Sample,
) -> bool
    requires tick { has_tick slot.old ≡ true }
    requires time { IsInTime (Some slot.old) }
    requires place { place < 4 }
    requires shows { Shows place (Some slot.old) sample.old }
    ensures after { slot.new ≡ slot_after view.now quiet slot.old }
    ensures wanted { wanted.new ≡ with_intent wanted.old (slot_intent view.now quiet slot.old) }
    ensures used { result ≡ slot_uses_fifos view.now quiet slot.old }
    ensures sample { sample.new ≡ with_shown place (shown_in (Some slot.new)) sample.old }
{
    a_quiet_clock_changes_nothing();
    let (intent, used) = slot.quiet_tick(view);
    tell(&intent, used, slot, wanted, place, sample);
    used
}

/// A clock of a machine in which the system does something.
#[inline(never)]
fn due_step<F: Fifo>(
    slot: &mut Slot<F>,
    view: &View,
    due: &Due,
    wanted: &mut Wanted,
    place: usize,
    sample: &mut Sample,
) -> bool
    requires time { IsInTime (Some slot.old) }
    requires place { place < 4 }
    requires shows { Shows place (Some slot.old) sample.old }
    ensures after { slot.new ≡ slot_after view.now due.now slot.old }
    ensures wanted { wanted.new ≡ with_intent wanted.old (slot_intent view.now due.now slot.old) }
    ensures used { result ≡ slot_uses_fifos view.now due.now slot.old }
    ensures sample { sample.new ≡ with_shown place (shown_in (Some slot.new)) sample.old }
{
    a_quiet_clock_changes_nothing();
    let (intent, used) = slot.clock(view, due);
    tell(&intent, used, slot, wanted, place, sample);
    used
}

/// Adds what a machine wanted of the block in a clock. The sample gets what is seen of the machine, where that may be
/// new.
#[inline(always)]
fn tell<F: Fifo>(
    intent: &Intent,
    used: bool,
    slot: &Slot<F>,
    wanted: &mut Wanted,
    place: usize,
    sample: &mut Sample,
)
    requires place { place < 4 }
    requires shows { used ≡ false → intent.now.sticky ≡ 0 → Shows place (Some slot.now) sample.old }
    ensures wanted { wanted.new ≡ with_intent wanted.old intent.now }
    ensures sample { sample.new ≡ with_shown place (shown_in (Some slot.now)) sample.old }
{
    wanted.add(intent);
    if used || intent.sticky != 0 {
        refresh(slot, place, sample);
    }
}

/// What is seen of a machine now, in the sample. It is rarely new, so the code of a clock goes without it.
#[inline(never)]
fn refresh<F: Fifo>(slot: &Slot<F>, place: usize, sample: &mut Sample)
    requires { place < 4 }
    ensures { sample.new ≡ with_shown place (shown_in (Some slot.now)) sample.old }
{
    sample.show(place, &slot.shown());
}

/// What is seen of a place.
pub(crate) fn shown<F: Fifo>(slot: &Option<Slot<F>>) -> Shown
    ensures { result ≡ shown_in slot.now }
{
    match slot {
        Some(slot) => slot.shown(),
        None => Shown {
            tx: 0,
            rx: 0,
            tx_full: true,
            rx_empty: true,
            got: 0,
            sticky: 0,
        },
    }
}

/// What is inside the machine of a place, over this memory.
#[inline(always)]
pub(crate) fn inside<F: Fifo>(slot: &Option<Slot<F>>, memory: &[u16; 32]) -> Option<MachineInside>
    ensures { result ≡ option_map (machine_inside memory.now) slot.now }
{
    match slot {
        Some(slot) => Some(slot.inside(memory)),
        None => None,
    }
}

/// What transfers moved at a place.
pub(crate) fn moved<F: Fifo>(slot: &Option<Slot<F>>) -> (u64, u64)
    ensures { result ≡ moved_in slot.now }
{
    match slot {
        Some(slot) => slot.moved(),
        None => (0, 0),
    }
}
