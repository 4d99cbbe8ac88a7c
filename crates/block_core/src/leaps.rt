//! A place of the block over clocks in which nothing stirs: how many there are, and all of them at once.
ghost use Rattle.std.specs.Prelude.{◌≡◌, ℕ, ◌<◌, ◌≤◌, ◌^◌, ◌+◌, ◌||◌, Bool, Some, None, false};
ghost use Rattle.dreq_pacing.specs.Ports as ports;
ghost use Rattle.block_core.specs.Kept.{HasTime};
ghost use Rattle.block_core.specs.Leaps.{leapt_place, stirs_after};
ghost use Rattle.block_core.specs.Stirring as spec;

use crate::slot::Slot;
use dreq_pacing::earlier;
use fifo_pair::Fifo;
use sm_registers::View;

/// Whether the machine of a place begins an instruction in the present clock.
#[inline(always)]
pub(crate) fn begins_now<F: Fifo>(place: &Option<Slot<F>>) -> bool
    ensures { result ≡ spec.begins_now place.now }
{
    match place {
        Some(slot) => slot.begins_now(),
        None => false,
    }
}

/// The least number of clocks after which a test passes or the machine of a place stirs, from that of the test alone.
/// The machine isn't asked where the test passes at once.
pub(crate) fn next_stir<F: Fifo>(
    tested: Option<u64>,
    place: &Option<Slot<F>>,
    view: &View,
) -> Option<u64>
    ensures { (test : ℕ → Bool) → ports.IsFirst test 0 tested →
        ports.IsFirst (λ n. test n || stirs_after view.now place.now n) 0 result }
{
    match (tested, place) {
        (Some(0), _) | (_, None) => tested,
        (_, Some(slot)) => earlier(tested, slot.next_stir(view)),
    }
}

/// So many clocks of a place at once, in none of which its machine stirs.
pub(crate) fn leap<F: Fifo>(place: &mut Option<Slot<F>>, view: &View, clocks: u64)
    requires clock { HasTime clocks place.old }
    requires calm { (k : ℕ) → k < clocks → stirs_after view.now place.old k ≡ false }
    ensures { place.new ≡ leapt_place clocks place.old }
{
    if let Some(slot) = place {
        slot.leap(view, clocks);
    }
}
