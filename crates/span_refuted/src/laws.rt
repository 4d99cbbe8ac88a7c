//! Laws of spans of machines without choice, each on a function that does nothing.
ghost use Rattle.std.specs.Prelude.{◌≡◌, ◌⊎◌, ◌↔◌, ℕ, None, []};
ghost use Rattle.pin_matrix.specs.declared.setup.Setup.{Setup};
ghost use Rattle.pin_matrix.specs.declared.span.Span.{Span};
ghost use Rattle.pin_matrix.specs.declared.span.SpanUnit.TheVariants.{Ticks};
ghost use Rattle.span_step.specs.declared.cause.Cause.{Cause};
ghost use Rattle.span_step.specs.Contexts.{Context};
ghost use Rattle.span_bounds.specs.Tables.{IsProvable};
ghost use Rattle.span_verdict.specs.declared.verdict.Verdict.TheVariants.{Unproved};
ghost use Rattle.span_verdict.specs.Sharing.{IsUnshared};
ghost use Rattle.span_verdict.specs.Verdicts.{IsVerdict};
ghost use Rattle.span_check.specs.Runs.{HoldsUpTo};
ghost use Rattle.span_refuted.specs.Broken.{IsBroken};
ghost use Rattle.span_refuted.specs.OneWay.{LeavesNoChoice};
ghost use Rattle.span_refuted.specs.Visits.{HasBadVisit, cause_at};

use block_core::{
    a_pin_of_one_machine, a_stimulus_is_a_system, clocks_are_counted, each_place_goes_its_own_way,
};
use clock_divider::tick_test;
use span_bounds::{each_context_has_its_number, each_entry_is_that_of_a_row};
use span_check::{a_plain_span_excuses_nothing, a_provable_span_holds_in_every_run};
use span_step::{a_step_is_monotone, next_contexts_are_in_range};
use span_ticks::levels_are_last_writes;

/// Where a span of a machine without choice is provable, no visit of the machine's instructions is bad.
pub fn a_provable_span_has_no_bad_visit()
    ensures { (u : Setup) (sp : Span) → LeavesNoChoice u sp → IsProvable u sp
        → (i : ℕ) → cause_at u sp i ≡ None }
{
    a_step_is_monotone();
    next_contexts_are_in_range();
    each_entry_is_that_of_a_row();
}

/// A span of a machine without choice is provable, or some visit of the machine's instructions is the first bad one: an
/// age is above the span's most, or a to-edge comes while an age is below its least.
pub fn an_unprovable_span_has_a_bad_visit()
    ensures { (u : Setup) (sp : Span) → LeavesNoChoice u sp → IsProvable u sp ⊎ HasBadVisit u sp }
{
    next_contexts_are_in_range();
    each_context_has_its_number();
}

/// Of a simple span in ticks of a machine without choice, whose pins no other machine may write, the checker is exact.
/// Where it is unprovable there is a clock of the run without stimulus up to which it doesn't hold; so it is provable
/// exactly where it holds up to each clock of this run; and the verdict that it is unproved says that it is broken.
pub fn a_refused_span_is_broken()
    ensures broken { (u : Setup) (sp : Span) → sp.unit ≡ Ticks → LeavesNoChoice u sp → IsUnshared u sp
        → (IsProvable u sp → ⊥) → IsBroken u sp }
    ensures exact { (u : Setup) (sp : Span) → sp.unit ≡ Ticks → LeavesNoChoice u sp → IsUnshared u sp
        → IsProvable u sp ↔ ((n : ℕ) → HoldsUpTo sp u [] n) }
    ensures verdict { (u : Setup) (sp : Span) (k : Context) (cause : Cause) → sp.unit ≡ Ticks
        → LeavesNoChoice u sp → IsVerdict u sp (Unproved k cause) → IsBroken u sp }
{
    an_unprovable_span_has_a_bad_visit();
    a_plain_span_excuses_nothing();
    a_provable_span_holds_in_every_run();
    next_contexts_are_in_range();
    levels_are_last_writes();
    each_place_goes_its_own_way();
    a_pin_of_one_machine();
    a_stimulus_is_a_system();
    clocks_are_counted();
    tick_test();
}
