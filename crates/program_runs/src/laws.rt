//! Laws of one machine in a run with a stimulus, each on a function that does nothing.
ghost use Rattle.std.specs.Prelude.{◌≡◌, ℕ, suc, ◌+◌, ◌*◌, ◌^◌, ◌<◌, ◌≤◌, ◌++◌, true, false, Some, List};
ghost use Rattle.std.specs.List.{AllByRecursion};
ghost use Rattle.clock_divider.specs.Timing.{period_of};
ghost use Rattle.clock_divider.specs.Ticks.{is_tick};
ghost use Rattle.pin_matrix.specs.declared.machine.MachineSetup.{MachineSetup};
ghost use Rattle.pin_matrix.specs.declared.setup.Setup.{Setup};
ghost use Rattle.dreq_pacing.specs.Lines.{IsSchedule};
ghost use Rattle.dreq_pacing.specs.declared.line.Line.{Line};
ghost use Rattle.block_core.specs.Block.{Run, first_run};
ghost use Rattle.block_core.specs.Following.{place_at};
ghost use Rattle.block_core.specs.Hosted.{host_of};
ghost use Rattle.program_runs.specs.Accepted.{accepted};
ghost use Rattle.program_runs.specs.Clocks.{IsOwn, IsPause, level_in, regs_in, slots, state_in, taken_in, tx_in};
ghost use Rattle.program_runs.specs.Feeding.{IsSupplied, fed};
ghost use Rattle.program_runs.specs.Levels.{levels_in, row, up_in};
ghost use Rattle.program_runs.specs.Runs.{GoesByTicks};
ghost use Rattle.program_runs.specs.Steady.{IsLeft, IsSteady};
ghost use Rattle.program_runs.specs.Steps.{IsStep, takes};
ghost use Rattle.program_runs.specs.Words.{AreWords};

use block_core::{a_block_sees_its_own_pads, a_pin_of_one_machine, each_place_goes_its_own_way};
use clock_divider::tick_test;

/// Beside a steady stimulus nothing enables, disables or restarts a machine in any clock.
pub fn a_steady_stimulus_leaves_the_ticks()
    ensures { (start : Run) (lines : List Line) → IsSteady lines → (clock id : ℕ)
        → IsLeft (host_of start lines clock) id }
{}

/// A machine beside a steady stimulus, and a pin that no other machine is mapped to. Its place in the block is the one
/// that its own clocks make. A clock that is a tick of its divider is a tick of the machine; in any other nothing of it
/// changes. The words that its TX accepted are those that it took, and then those that wait.
pub fn a_machine_goes_clock_by_clock()
    ensures place { (u : Setup) (lines : List Line) (id : ℕ) (s : MachineSetup) (pin : ℕ)
        → IsOwn u id s pin → IsSteady lines → (clock : ℕ)
        → place_at (state_in u lines clock) id ≡ Some (slots u lines s clock) }
    ensures tick { (u : Setup) (lines : List Line) (id : ℕ) (s : MachineSetup) (pin : ℕ)
        → IsOwn u id s pin → IsSteady lines → (clock : ℕ) → is_tick 0 (period_of s.int s.frac) clock ≡ true
        → IsStep s u.memory pin (regs_in u lines s clock) (level_in u lines pin clock)
        (regs_in u lines s (suc clock)) (level_in u lines pin (suc clock)) (taken_in u lines s clock) }
    ensures pause { (u : Setup) (lines : List Line) (id : ℕ) (s : MachineSetup) (pin : ℕ)
        → IsOwn u id s pin → IsSteady lines → (clock : ℕ) → is_tick 0 (period_of s.int s.frac) clock ≡ false
        → IsPause u lines s pin clock }
    ensures words { (u : Setup) (lines : List Line) (id : ℕ) (s : MachineSetup) (pin : ℕ)
        → IsOwn u id s pin → IsSteady lines → (n : ℕ)
        → accepted (first_run u) lines id n ≡ takes (taken_in u lines s) 0 n ++ tx_in u lines s n }
{
    a_block_sees_its_own_pads();
    each_place_goes_its_own_way();
    a_pin_of_one_machine();
    tick_test();
}

/// Without fraction the ticks of a divider are the multiples of its whole part, from clock 0 on.
pub fn ticks_are_multiples_of_the_divider()
    ensures tick { (int t : ℕ) → 1 ≤ int → is_tick 0 (period_of int 0) (int * t) ≡ true }
    ensures none { (int t e : ℕ) → 0 < e → e < int → is_tick 0 (period_of int 0) (int * t + e) ≡ false }
{
    tick_test();
}

/// So with a whole divider the machine goes tick by tick: each tick is a step, and between two ticks nothing changes.
pub fn a_machine_goes_tick_by_tick()
    ensures { (u : Setup) (lines : List Line) (id : ℕ) (s : MachineSetup) (pin int : ℕ)
        → IsOwn u id s pin → IsSteady lines → 1 ≤ int → s.int ≡ int → s.frac ≡ 0
        → GoesByTicks u lines id s pin int }
{
    a_block_sees_its_own_pads();
    each_place_goes_its_own_way();
    a_pin_of_one_machine();
    tick_test();
}

/// Beside a stimulus whose words have 32 bits, so have those that a TX accepts.
pub fn accepted_words_have_32_bits()
    ensures { (start : Run) (lines : List Line) → AreWords lines → (id n : ℕ)
        → AllByRecursion (λ w. w < 2 ^ 32) (accepted start lines id n) }
{}

/// A feed from clock 0 on with a word a clock is a steady stimulus. Beside it the TX of machine 0, of four words, has a
/// word at each tick from the second one on, wherever one is left.
pub fn a_feed_never_lets_tx_run_dry()
    ensures stimulus { (words : List ℕ) → IsSchedule (fed words) }
    ensures steady { (words : List ℕ) → IsSteady (fed words) }
    ensures words { (words : List ℕ) → AllByRecursion (λ w. w < 2 ^ 32) words → AreWords (fed words) }
    ensures supply { (u : Setup) (words : List ℕ) (s : MachineSetup) (pin int : ℕ)
        → IsOwn u 0 s pin → 1 ≤ int → s.int ≡ int → s.frac ≡ 0 → s.join_tx ≡ false → s.join_rx ≡ false
        → IsSupplied words (λ t. taken_in u (fed words) s (int * t)) (λ t. tx_in u (fed words) s (int * t)) }
{
    a_block_sees_its_own_pads();
    each_place_goes_its_own_way();
    a_pin_of_one_machine();
    tick_test();
}

/// The levels that a run's samples tell of a pin are those of its states, one after each clock.
pub fn samples_tell_the_levels()
    ensures { (u : Setup) (lines : List Line) (pin n : ℕ)
        → levels_in u lines pin n ≡ row (up_in u lines pin) 0 n }
{}
