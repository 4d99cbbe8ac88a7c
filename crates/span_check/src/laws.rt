//! Laws of the timing checker, each on a function that does nothing.
ghost use Rattle.std.specs.Prelude.{◌≡◌, ◌↔◌, ℕ, suc, IsSome, List, None, Some, false, slice_index_or};
ghost use Rattle.pin_matrix.specs.declared.setup.Setup.{Setup};
ghost use Rattle.pin_matrix.specs.declared.span.Span.{Span};
ghost use Rattle.pin_matrix.specs.declared.span.SpanUnit.{SpanUnit};
ghost use Rattle.dreq_pacing.specs.declared.due.Due.{Due};
ghost use Rattle.dreq_pacing.specs.declared.line.Line.{Line};
ghost use Rattle.block_core.specs.Block.{BlockState};
ghost use Rattle.span_bounds.specs.Tables.{IsProvable};
ghost use Rattle.span_verdict.specs.Sharing.{IsUnshared};
ghost use Rattle.span_check.specs.Asked.{HoldsBetween, IsNeverEarly, IsOfEdges, IsPlain};
ghost use Rattle.span_check.specs.Holding.{Holds, IsSpokenOf, IsUnbrokenIn};
ghost use Rattle.span_check.specs.Marks.{Mark, has_signal_edge};
ghost use Rattle.span_check.specs.Proved.{HoldsInEveryRun};
ghost use Rattle.span_check.specs.Runs.{has_breaking, marks_in, marks_over};

use block_core::{
    a_pin_of_one_machine, a_stimulus_is_a_system, clocks_are_counted, each_place_goes_its_own_way,
};
use clock_divider::tick_test;
use span_bounds::each_entry_is_that_of_a_row;
use span_ticks::{
    a_start_is_under_way, a_tick_follows_the_table, levels_are_last_writes, open_ages_have_room,
};

/// Where some table is closed and good, and no other machine's mapping holds a pin of the span, the span holds in every
/// run of its setup, whatever the stimulus and the length, and whatever pads the machines see. The span's machine is
/// configured.
pub fn a_provable_span_holds_in_every_run()
    ensures { (u : Setup) (sp : Span) → IsSome (slice_index_or u.machines sp.machine None)
        → IsProvable u sp → IsUnshared u sp → HoldsInEveryRun u sp }
{
    a_tick_follows_the_table();
    open_ages_have_room();
    a_start_is_under_way();
    levels_are_last_writes();
    each_entry_is_that_of_a_row();
    each_place_goes_its_own_way();
    a_pin_of_one_machine();
    tick_test();
    a_stimulus_is_a_system();
    clocks_are_counted();
}

/// A clock of a run breaks a span in clocks exactly where a line of it disables the span's machine, or restarts its
/// divider. No other line does, nor a transfer, nor what is done to another machine.
pub fn only_a_disable_or_a_restart_breaks_a_span()
    ensures { (u : Setup) (sp : Span) (lines : List Line) (clock : ℕ) →
        (marks_in sp u lines clock).breaks ≡ has_breaking sp.machine lines clock }
{
    a_stimulus_is_a_system();
    clocks_are_counted();
}

/// What a span asks. With a greatest bound it asks all that both bounds ask (`bounded`); without one it asks of a first
/// to-event alone that it doesn't come too early (`unbounded`), however long it takes and wherever the machine waits.
/// So with a greatest bound it asks more (`more`). All is asked of the from-events of which it speaks.
pub fn what_a_span_asks()
    ensures bounded { (unit : SpanUnit) (min max : ℕ) (m : ℕ → Mark) (n : ℕ)
        → Holds unit min (Some max) m n ↔ HoldsBetween unit min max m n }
    ensures unbounded { (unit : SpanUnit) (min : ℕ) (m : ℕ → Mark) (n : ℕ)
        → Holds unit min None m n ↔ IsNeverEarly unit min m n }
    ensures more { (unit : SpanUnit) (min max : ℕ) (m : ℕ → Mark) (n : ℕ)
        → Holds unit min (Some max) m n → Holds unit min None m n }
{}

/// A span with neither `prompt` nor `without` nor an assumption excuses nothing (`excused`) and misses nothing
/// (`misses`). So in ticks it speaks of each from-event, and in clocks of each after which no line disables or restarts
/// its machine (`spoken`).
pub fn a_plain_span_excuses_nothing()
    ensures excused { (sp : Span) (memory : List ℕ) (seen : ℕ → ℕ) (host : ℕ → Due) (states : ℕ → BlockState)
        (clock : ℕ) → IsPlain sp → (marks_over sp memory seen host states clock).excused ≡ false }
    ensures misses { (sp : Span) (memory : List ℕ) (seen : ℕ → ℕ) (host : ℕ → Due) (states : ℕ → BlockState)
        (clock : ℕ) → IsPlain sp → (marks_over sp memory seen host states clock).misses ≡ false }
    ensures spoken { (sp : Span) (memory : List ℕ) (seen : ℕ → ℕ) (host : ℕ → Due) (states : ℕ → BlockState)
        (unit : SpanUnit) (s end : ℕ) → IsPlain sp
        → IsSpokenOf unit (marks_over sp memory seen host states) s end
        ↔ IsUnbrokenIn unit (marks_over sp memory seen host states) s end }
{}

/// Of a span between edges that any instruction may make, the events are the edges: what comes of the two pins says
/// whether one comes, whatever instruction makes it.
pub fn any_edge_is_an_event()
    ensures from { (sp : Span) (memory : List ℕ) (seen : ℕ → ℕ) (host : ℕ → Due) (states : ℕ → BlockState)
        (clock : ℕ) → IsOfEdges sp
        → (marks_over sp memory seen host states clock).from
        ≡ has_signal_edge sp.from_signal sp.from_pin sp.from_rise (states clock) (states (suc clock)) }
    ensures to { (sp : Span) (memory : List ℕ) (seen : ℕ → ℕ) (host : ℕ → Due) (states : ℕ → BlockState)
        (clock : ℕ) → IsOfEdges sp
        → (marks_over sp memory seen host states clock).to
        ≡ has_signal_edge sp.to_signal sp.to_pin sp.to_rise (states clock) (states (suc clock)) }
{}
