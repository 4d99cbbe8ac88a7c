//! Laws of runs in which the machines see any pads, each on a function that does nothing.
ghost use Rattle.std.specs.Prelude.{◌≡◌, ℕ, suc, ◌<◌, ◌↔◌, List, option_map, map, slice_index_or, None, IsTrue};
ghost use Rattle.std.specs.Int.{bit_at};
ghost use Rattle.pin_matrix.specs.Pads.{seen_of};
ghost use Rattle.pin_matrix.specs.Pins.{last_of};
ghost use Rattle.pin_matrix.specs.declared.setup.Setup.{Setup};
ghost use Rattle.pin_matrix.specs.declared.span.PinSignal.TheVariants.{Level, Direction};
ghost use Rattle.dreq_pacing.specs.declared.due.Due.{Due};
ghost use Rattle.dreq_pacing.specs.declared.line.Line.{Line};
ghost use Rattle.sm_registers.specs.Intents.{two_writes};
ghost use Rattle.block_core.specs.Block.{BlockState, run_at, first_run, first_state, first_place, view_of};
ghost use Rattle.block_core.specs.Following.{Follows, OthersLeave, place_at, intent_in};
ghost use Rattle.block_core.specs.History.{pad_at, pad_before, Ticks, OfEach};
ghost use Rattle.block_core.specs.Hosted.{hosted_at, host_of};
ghost use Rattle.block_core.specs.Slots.{lined, has_tick, place_after};

use clock_divider::tick_test;
use pin_matrix::{no_write_changes_nothing, the_last_write_counts};
use sm_registers::{a_tick_writes_its_own_pins, writes_are_of_pins};

/// The run of a setup is the one in which the machines see the block's own pads, two clocks late where they don't
/// bypass the synchroniser; with a stimulus too.
pub fn a_block_sees_its_own_pads()
    ensures run { (s : Setup) (host : ℕ → Due) →
        Follows s.memory (λ c. seen_of s.bypass (pad_at s host c) (pad_before s host c)) host
        (λ c. (run_at s host c).state) }
    ensures hosted { (s : Setup) (lines : List Line) → let host = host_of (first_run s) lines in
        Follows s.memory (λ c. seen_of s.bypass (pad_at s host c) (pad_before s host c)) host
        (λ c. (hosted_at (first_run s) lines c).run.state) }
{}

/// Whatever the machines see, one has a tick in a clock exactly where it is enabled and, for some k, k periods of its
/// divider after the last restart fall into the clock; and setups never change.
pub fn ticks_follow_the_divider_over_any_pads()
    ensures ticks { (s : Setup) (memory : List ℕ) (seen : ℕ → ℕ) (host : ℕ → Due) (states : ℕ → BlockState) →
        states 0 ≡ first_state s → Follows memory seen host states → (clock : ℕ) →
        OfEach (λ m. IsTrue (has_tick (lined (host clock) m)) ↔ (Ticks host m.machine.setup clock))
        (states clock).machines }
    ensures setups { (s : Setup) (memory : List ℕ) (seen : ℕ → ℕ) (host : ℕ → Due) (states : ℕ → BlockState) →
        states 0 ≡ first_state s → Follows memory seen host states → (clock : ℕ) →
        map (option_map (λ m. m.machine.setup)) (states clock).machines
        ≡ map (option_map (λ m. m.machine.setup)) (first_state s).machines }
{
    tick_test();
}

/// What becomes of a machine in a clock depends on its own place alone, and on what all machines see.
pub fn each_place_goes_its_own_way()
    ensures start { (s : Setup) (id : ℕ) → id < 4 → place_at (first_state s) id ≡ first_place s id }
    ensures after { (memory : List ℕ) (seen : ℕ → ℕ) (host : ℕ → Due) (states : ℕ → BlockState) →
        Follows memory seen host states → (clock id : ℕ) → place_at (states (suc clock)) id
        ≡ place_after (view_of memory (seen clock) (states clock)) (host clock) (place_at (states clock) id) }
{}

/// The level of a pin to which no other machine is mapped changes only by what this machine writes: its instruction,
/// and then side-set; and so does a direction.
pub fn a_pin_of_one_machine()
    ensures level { (s : Setup) (memory : List ℕ) (seen : ℕ → ℕ) (host : ℕ → Due) (states : ℕ → BlockState) →
        states 0 ≡ first_state s → Follows memory seen host states → (id p : ℕ) → p < 32 →
        OthersLeave Level id p s.machines → (clock : ℕ) →
        bit_at (states (suc clock)).levels p ≡ last_of p (bit_at (states clock).levels p)
        (two_writes (intent_in memory (seen clock) (host clock) (states clock) id).level) }
    ensures direction { (s : Setup) (memory : List ℕ) (seen : ℕ → ℕ) (host : ℕ → Due) (states : ℕ → BlockState) →
        states 0 ≡ first_state s → Follows memory seen host states → (id p : ℕ) → p < 32 →
        OthersLeave Direction id p s.machines → (clock : ℕ) →
        bit_at (states (suc clock)).directions p ≡ last_of p (bit_at (states clock).directions p)
        (two_writes (intent_in memory (seen clock) (host clock) (states clock) id).direction) }
{
    the_last_write_counts();
    no_write_changes_nothing();
    writes_are_of_pins();
    a_tick_writes_its_own_pins();
}
