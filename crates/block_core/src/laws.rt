//! Laws of a run, each on a function that does nothing.
ghost use Rattle.std.specs.Prelude.{◌≡◌, ℕ, suc, ◌+◌, ◌<◌, ◌++◌, ◌==◌, ◌&&◌, ◌↔◌, not, None, true, false, [], List, Option, option_map, option_to_list, map, slice_get, slice_index_or, if◌then◌else◌, IsTrue};
ghost use Rattle.std.specs.List.{AllByRecursion};
ghost use Rattle.std.specs.Int.{bit_at};
ghost use Rattle.fifo_pair.specs.Fifos.{is_over, got_word};
ghost use Rattle.pin_matrix.specs.Pins.{IsWrite, last_of};
ghost use Rattle.sm_registers.specs.View.{View};
ghost use Rattle.pin_matrix.specs.Pads.{seen_of};
ghost use Rattle.pin_matrix.specs.declared.setup.Setup.{Setup};
ghost use Rattle.dreq_pacing.specs.declared.due.Due.{Due};
ghost use Rattle.dreq_pacing.specs.Due.{quiet};
ghost use Rattle.dreq_pacing.specs.declared.line.Line.{Line};
ghost use Rattle.dreq_pacing.specs.Ports.{transfers_at, due_at};
ghost use Rattle.block_core.specs.Block.{BlockState, Run, next, run_at, run_from, uses_fifos_in, stepped, first_state, view_of, intents_of, level_writes, direction_writes};
ghost use Rattle.block_core.specs.Conduct.{is_lined_by, rests_in};
ghost use Rattle.block_core.specs.History.{pad_at, last_pad, pad_before, Ticks, OfEach};
ghost use Rattle.block_core.specs.Slots.{Slot, lined, has_tick, slot_after, slot_intent};
ghost use Rattle.block_core.specs.Hosted.{hosted_at, host_of, asked_at};
ghost use Rattle.block_core.specs.Inside.{inside_of, is_of_an_instruction, machine_inside};
ghost use Rattle.block_core.specs.Leaps.{leapt};
ghost use Rattle.block_core.specs.Shown.{requests_of, sample_of};
ghost use Rattle.block_core.specs.Stirring.{pads_change, moves_on, begins_or_changes};

use clock_divider::tick_test;
use fifo_pair::{a_quiet_clock_changes_nothing, rx_loses_nothing, tx_loses_only_overruns};
use pin_matrix::the_last_write_counts;
use sm_registers::a_first_tick_stirs;

/// A machine sees of each pin the pad of two clocks ago, or of now where the pin bypasses its synchroniser: the state
/// after each clock follows from the state before it and from the history of the pads.
pub fn pads_are_seen_two_clocks_late()
    ensures { (s : Setup) (host : ℕ → Due) (clock : ℕ) →
        (run_at s host (suc clock)).state
        ≡ stepped s.memory (seen_of s.bypass (pad_at s host clock) (pad_before s host clock))
        (host clock) (run_at s host clock).state }
{}

/// The pads change in a clock exactly where they aren't the same in it, in the clock before and in the one before that.
pub fn pads_change_until_seen()
    ensures { (s : Setup) (host : ℕ → Due) (clock : ℕ) →
        pads_change (host clock) (run_at s host clock)
        ≡ not ((pad_at s host clock == last_pad s host clock) && (pad_at s host clock == pad_before s host clock)) }
{}

/// The number of a run's clock, and its memory, which stays.
pub fn clocks_are_counted()
    ensures clock { (start : Run) (host : ℕ → Due) (clock : ℕ) →
        (run_from start host clock).clock ≡ start.clock + clock }
    ensures memory { (start : Run) (host : ℕ → Due) (clock : ℕ) →
        (run_from start host clock).memory ≡ start.memory }
{}

/// Beside a stimulus a run is one in which the system does, in each clock, what the lines and the requests of this
/// clock and those before say.
pub fn a_stimulus_is_a_system()
    ensures run { (start : Run) (lines : List Line) (clock : ℕ) →
        (hosted_at start lines clock).run ≡ run_from start (host_of start lines) clock }
    ensures system { (start : Run) (lines : List Line) (clock : ℕ) → start.clock ≡ 0 →
        host_of start lines clock ≡ due_at lines (asked_at start lines) clock }
{}

/// A machine has a tick in a clock exactly where it is enabled and, for some k, k periods of its divider after the last
/// restart fall into the clock.
pub fn ticks_follow_the_divider()
    ensures ticks { (s : Setup) (host : ℕ → Due) (clock : ℕ) →
        OfEach (λ m. IsTrue (has_tick (lined (host clock) m)) ↔ (Ticks host m.machine.setup clock))
        (run_at s host clock).state.machines }
    ensures setups { (s : Setup) (host : ℕ → Due) (clock : ℕ) →
        map (option_map (λ m. m.machine.setup)) (run_at s host clock).state.machines
        ≡ map (option_map (λ m. m.machine.setup)) (first_state s).machines }
{
    tick_test();
}

/// After a clock each pin has the level, and the direction, that the last of the clock's writes to it gives, in order
/// of the machines' numbers, side-set's after the instruction's; one that nothing writes stays.
pub fn each_pin_gets_the_last_write()
    ensures levels { (memory : List ℕ) (seen : ℕ) (d : Due) (b : BlockState) (p : ℕ) → p < 32 →
        let writes = level_writes (intents_of (view_of memory seen b) d b.machines) in
        AllByRecursion IsWrite writes →
        bit_at (stepped memory seen d b).levels p ≡ last_of p (bit_at b.levels p) writes }
    ensures directions { (memory : List ℕ) (seen : ℕ) (d : Due) (b : BlockState) (p : ℕ) → p < 32 →
        let writes = direction_writes (intents_of (view_of memory seen b) d b.machines) in
        AllByRecursion IsWrite writes →
        bit_at (stepped memory seen d b).directions p ≡ last_of p (bit_at b.directions p) writes }
{
    the_last_write_counts();
}

/// In a clock, the words of a machine's FIFO with the one that comes in are those that go out and those still there, in
/// order. Only an overrun's word doesn't come in.
pub fn words_go_through_in_order()
    ensures tx { (v : View) (d : Due) (s : Slot) →
        let fifos = s.machine.ports.fifos in
        let word = slice_index_or d.word s.machine.setup.id None in
        fifos.tx ++ (if is_over word fifos then [] else option_to_list word)
        ≡ (if (slot_intent v d s).take then option_to_list (slice_get fifos.tx 0) else [])
        ++ (slot_after v d s).machine.ports.fifos.tx }
    ensures rx { (v : View) (d : Due) (s : Slot) →
        let fifos = s.machine.ports.fifos in
        let read = slice_index_or d.read s.machine.setup.id false in
        fifos.rx ++ option_to_list (slot_intent v d s).word
        ≡ option_to_list (got_word read fifos) ++ (slot_after v d s).machine.ports.fifos.rx }
{
    tx_loses_only_overruns();
    rx_loses_nothing();
}

/// Where nothing is done at a FIFO in a clock, the machines ask for the same after it.
pub fn unused_fifos_ask_as_before()
    ensures { (d : Due) (r : Run) → uses_fifos_in d r ≡ false →
        requests_of (next d r).state ≡ requests_of r.state }
{
    a_quiet_clock_changes_nothing();
}

/// A clock in which the pads change, or a machine begins an instruction, moves the block on, whatever the machines see.
pub fn what_begins_moves_on()
    ensures { (r : Run) → begins_or_changes r ≡ true → moves_on quiet r ≡ true }
{
    a_first_tick_stirs();
}

/// After clocks in which nothing stirs and the system does nothing, a run shows what it showed, and the machines ask
/// for the same.
pub fn a_leap_shows_nothing_new()
    ensures requests { (r : Run) (n : ℕ) → requests_of (leapt n r).state ≡ requests_of r.state }
    ensures sample { (r : Run) (n : ℕ) → sample_of (leapt n r).state ≡ sample_of r.state }
{}

/// Nor is anything else inside: each register is what it was, and no delay's count is seen.
pub fn a_leap_changes_nothing_inside()
    ensures { (r : Run) (n : ℕ) → inside_of (leapt n r) ≡ inside_of r }
{}

/// The pads that are inside after a clock are those of the clock, by its history: a machine that bypasses the
/// synchroniser of a pin saw them in it, and the others see them two clocks later.
pub fn pads_inside_are_the_clocks_own()
    ensures { (s : Setup) (host : ℕ → Due) (clock : ℕ) →
        (inside_of (run_at s host (suc clock))).pads ≡ pad_at s host clock }
{}

/// Where a machine has a tick of an instruction, it waits after the clock exactly where the instruction stalls in it;
/// without a tick, and in a delay, it waits where it waited before.
pub fn a_machine_waits_where_it_stalls()
    ensures { (memory : List ℕ) (v : View) (d : Due) (s : Slot) →
        (machine_inside memory (slot_after v d s)).waits
        ≡ (if is_of_an_instruction (slot_intent v d s).kind then (slot_intent v d s).stalled else (machine_inside memory s).waits) }
{}

/// Where a machine is in a delay and no line acts on it, a clock leaves what was told of the delay's end. So the clock
/// that was told, if any, is the one after which no delay is left.
pub fn a_delay_ends_when_it_is_told()
    ensures { (v : View) (d : Due) (clock : ℕ) (s : Slot) → s.timing.clock ≡ clock + 1 →
        0 < s.machine.registers.delay → is_lined_by d s.machine.setup.id ≡ false →
        rests_in (clock + 1) (slot_after v d s) ≡ rests_in clock s }
{}
