//! The law of isolation: what a machine that is alone does depends on what is its own, and on nothing else.
ghost use Rattle.std.specs.Prelude.{◌≡◌, ℕ, ◌<◌, List, Some};
ghost use Rattle.pin_matrix.specs.declared.machine.MachineSetup as machine_setup;
ghost use Rattle.pin_matrix.specs.declared.setup.Setup.{Setup};
ghost use Rattle.dreq_pacing.specs.declared.line.Line.{Line};
ghost use Rattle.dreq_pacing.specs.Lines.{IsSchedule};
ghost use Rattle.block_core.specs.Block.{first_run};
ghost use Rattle.block_core.specs.Hosted.{hosted_at};
ghost use Rattle.block_shares.specs.Shares.{IsAlone, touches_of};
ghost use Rattle.block_isolation.specs.Isolation.{AreAlikeTo, HasWords, IsSameTo, own_lines};

use dreq_pacing::the_last_pin_line_counts;
use pin_matrix::{
    each_mapped_pin, each_pad, each_pin_from, no_write_changes_nothing, the_last_write_counts,
    what_a_machine_sees, words_stay_words,
};
use sm_registers::{
    a_tick_sees_what_it_reads, a_tick_writes_its_own_pins, ranges_are_kept, writes_are_of_pins,
};

/// A machine that is alone goes its own way, whatever the other machines are and do. Take two setups in each of which
/// it is alone and which agree on what is its own (`AreAlikeTo`), and two schedules with the same lines that name it or
/// a pin that it reads. Then in each clock all of the machine, the levels and directions of its pins and its flags are
/// the same in both runs. What it touches is the same in both setups (`touches`), so it doesn't matter by which of them
/// that is asked.
pub fn a_machine_alone_is_isolated()
    ensures touches { (m : ℕ) (own : machine_setup.MachineSetup) (s t : Setup)
        → AreAlikeTo m own (touches_of s m) s t → touches_of s m ≡ touches_of t m }
    ensures run { (m : ℕ) (own : machine_setup.MachineSetup) (s t : Setup) (lines others : List Line)
        → m < 4 → HasWords s → HasWords t → IsSchedule lines → IsSchedule others
        → IsAlone s m → IsAlone t m → AreAlikeTo m own (touches_of s m) s t
        → own_lines m (touches_of s m).reads lines ≡ own_lines m (touches_of s m).reads others
        → (clock : ℕ) → IsSameTo m (touches_of s m)
        (hosted_at (first_run s) lines clock).run.state (hosted_at (first_run t) others clock).run.state }
{
    ranges_are_kept();
    writes_are_of_pins();
    a_tick_writes_its_own_pins();
    a_tick_sees_what_it_reads();
    each_mapped_pin();
    each_pin_from();
    the_last_write_counts();
    no_write_changes_nothing();
    each_pad();
    what_a_machine_sees();
    words_stay_words();
    the_last_pin_line_counts();
}
