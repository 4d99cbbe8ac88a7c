//! Laws of two blocks on one set of pins, each on a function that does nothing.
ghost use Rattle.std.specs.Prelude.{◌≡◌, ℕ, ◌+◌, ◌^◌, ◌<◌, ◌==◌, ◌&&◌, not, true, false, if◌then◌else◌, List};
ghost use Rattle.std.specs.Int.{bit_at};
ghost use Rattle.pin_matrix.specs.Pads.{seen_of};
ghost use Rattle.pin_matrix.specs.declared.setup.Setup.{Setup};
ghost use Rattle.dreq_pacing.specs.declared.due.Due.{Due};
ghost use Rattle.dreq_pacing.specs.Due.{quiet};
ghost use Rattle.dreq_pacing.specs.declared.line.Line.{Line};
ghost use Rattle.block_core.specs.Block.{BlockState, Run, next_over, uses_fifos_over};
ghost use Rattle.block_core.specs.Following.{Follows};
ghost use Rattle.block_core.specs.HostedTwin.{twin_of, hosted_twin_at, first_host_of, second_host_of};
ghost use Rattle.block_core.specs.Shown.{requests_of};
ghost use Rattle.block_core.specs.Twin.{TwinRun, shared_pads, twin_at, twin_from, twin_pad_at, last_twin_pad, twin_pad_before, twin_pads_change, twin_moves_on, twin_begins_or_changes};

use fifo_pair::a_quiet_clock_changes_nothing;
use pin_matrix::each_pad;
use sm_registers::a_first_tick_stirs;

/// Each pad is the level of the block that owns the pin where the direction of this block is out, else the outside
/// level.
pub fn each_pad_is_its_owners()
    ensures { (own : ℕ) (first second : BlockState) (outside p : ℕ) → own < 2 ^ 32 →
        first.directions < 2 ^ 32 → second.directions < 2 ^ 32 → p < 32 →
        bit_at (shared_pads own first second outside) p
        ≡ (if bit_at own p == 1 then (if bit_at second.directions p == 1 then bit_at second.levels p else bit_at outside p)
        else (if bit_at first.directions p == 1 then bit_at first.levels p else bit_at outside p)) }
{
    each_pad();
}

/// The pads of two blocks change in a clock exactly where they aren't the same in it, in the clock before and in the
/// one before that.
pub fn pads_of_two_change_until_seen()
    ensures { (own : ℕ) (s t : Setup) (first second : ℕ → Due) (clock : ℕ) →
        let pad = twin_pad_at own s t first second clock in
        twin_pads_change pad (twin_at own s t first second clock)
        ≡ not ((pad == last_twin_pad own s t first second clock) && (pad == twin_pad_before own s t first second clock)) }
{}

/// Each of two blocks is in a run in which its machines see the pads that both share, two clocks late where its own
/// setup doesn't bypass the synchroniser. So a law of runs over any pads holds of each of them.
pub fn two_blocks_see_the_same_pads()
    ensures first { (own : ℕ) (s t : Setup) (first second : ℕ → Due) →
        Follows s.memory (λ c. seen_of s.bypass (twin_pad_at own s t first second c) (twin_pad_before own s t first second c))
        first (λ c. (twin_at own s t first second c).first.state) }
    ensures second { (own : ℕ) (s t : Setup) (first second : ℕ → Due) →
        Follows t.memory (λ c. seen_of t.bypass (twin_pad_at own s t first second c) (twin_pad_before own s t first second c))
        second (λ c. (twin_at own s t first second c).second.state) }
{}

/// Beside two stimuli, two blocks are in a run in which the system does at each, in each clock, what its lines and the
/// requests of its machines say.
pub fn two_stimuli_are_a_system()
    ensures { (start : TwinRun) (first second : List Line) (clock : ℕ) →
        twin_of (hosted_twin_at start first second clock)
        ≡ twin_from start (first_host_of start first second) (second_host_of start first second) clock }
{}

/// The numbers of the clock of both.
pub fn clocks_of_two_are_counted()
    ensures first { (start : TwinRun) (first second : ℕ → Due) (clock : ℕ) →
        (twin_from start first second clock).first.clock ≡ start.first.clock + clock }
    ensures second { (start : TwinRun) (first second : ℕ → Due) (clock : ℕ) →
        (twin_from start first second clock).second.clock ≡ start.second.clock + clock }
{}

/// Where nothing is done at a FIFO in a clock, whatever the pads, the machines ask for the same after it.
pub fn unused_fifos_ask_as_before_over_any_pads()
    ensures { (pad : ℕ) (d : Due) (r : Run) → uses_fifos_over pad d r ≡ false →
        requests_of (next_over pad d r).state ≡ requests_of r.state }
{
    a_quiet_clock_changes_nothing();
}

/// A clock in which the pads change, or a machine of either begins an instruction, moves one of the two on, whatever
/// the machines see.
pub fn what_begins_moves_two_on()
    ensures { (t : TwinRun) → twin_begins_or_changes t ≡ true → twin_moves_on quiet quiet t ≡ true }
{
    a_first_tick_stirs();
}
