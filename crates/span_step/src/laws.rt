//! Laws of a step, each on a function that does nothing.
ghost use Rattle.std.specs.Prelude.{◌≡◌, ℕ, ◌+◌, ◌&&◌, if◌then◌else◌, min, map, nat_lt, true, false, Some, IsSome, None, slice_index_or};
ghost use Rattle.pin_matrix.specs.declared.setup.Setup as setup;
ghost use Rattle.pin_matrix.specs.declared.span.Span as span;
ghost use Rattle.span_step.specs.Contexts as contexts;
ghost use Rattle.pin_matrix.specs.Followed.{followed};
ghost use Rattle.span_step.specs.Contexts.{IsInside, is_open};
ghost use Rattle.span_step.specs.Narrowing.{nexts_of};
ghost use Rattle.span_step.specs.Courses as courses;
ghost use Rattle.span_step.specs.Courses.{opens, watched};
ghost use Rattle.span_step.specs.declared.ages.Ages as ages;
ghost use Rattle.span_step.specs.declared.ages.Ages.TheVariants.{Empty, Between};
ghost use Rattle.span_step.specs.declared.course.Tick as tick;
ghost use Rattle.span_step.specs.declared.course.Watch as watch;
ghost use Rattle.span_step.specs.Steps.{context_steps, is_left_out};
ghost use Rattle.span_step.specs.Laws.{aim_of, IsNarrower, AreAlike, GoesLike, OpenAlike, SameAfterEdge, AllUpTo, AllReach, ReachesAge, most_of, first_cause, NonePass, AllPlaced};

/// Ages inside others give the same next contexts with ages inside, no more causes and the same from-event.
pub fn a_step_is_monotone()
    ensures { (u : setup.Setup) (sp : span.Span) (k : contexts.Context) (a b : ages.Ages)
        → IsInside a b → IsNarrower (context_steps u sp k a) (context_steps u sp k b) }
{}

/// The next contexts, which of them are reached by a course that passes, and whether a from-event comes don't depend on the
/// ages. Nor do the ages after a course that doesn't pass; and whether ages are open afterwards depends on no more than whether
/// they were.
pub fn next_contexts_do_not_depend_on_ages()
    ensures contexts { (u : setup.Setup) (sp : span.Span) (k : contexts.Context) (a b : ages.Ages)
        → map aim_of (nexts_of (context_steps u sp k a))
        ≡ map aim_of (nexts_of (context_steps u sp k b)) }
    ensures from_edge { (u : setup.Setup) (sp : span.Span) (k : contexts.Context) (a b : ages.Ages)
        → (context_steps u sp k a).from_edge ≡ (context_steps u sp k b).from_edge }
    ensures after_edge { (u : setup.Setup) (sp : span.Span) (k : contexts.Context) (a b : ages.Ages)
        → AreAlike (GoesLike SameAfterEdge) (nexts_of (context_steps u sp k a)) (nexts_of (context_steps u sp k b)) }
    ensures open_alike { (u : setup.Setup) (sp : span.Span) (k : contexts.Context) (a b : ages.Ages)
        → is_open a ≡ is_open b
        → AreAlike (GoesLike OpenAlike) (nexts_of (context_steps u sp k a)) (nexts_of (context_steps u sp k b)) }
{}

/// Ages grow by at least one tick along a course that passes, up to one above the span's greatest bound, and no further.
/// Where it has none they grow up to its least one, and to 1 at least.
pub fn ages_grow_up_to_the_cap()
    ensures grow { (u : setup.Setup) (sp : span.Span) (k : contexts.Context) (a : ages.Ages) (n : ℕ)
        → ReachesAge n a → AllReach (min n (most_of u sp) + 1) (nexts_of (context_steps u sp k a)) }
    ensures cap { (u : setup.Setup) (sp : span.Span) (k : contexts.Context) (a : ages.Ages)
        → AllUpTo (most_of u sp + 1) (nexts_of (context_steps u sp k a)) }
{}

/// Ages at the greatest bound of a span that has one, or above, are bad at each row but those left out, and a row is bad by
/// any such ages for one and the same cause, or by none. The span's machine is configured.
pub fn overdue_ages_are_bad()
    ensures bad { (u : setup.Setup) (sp : span.Span) (k : contexts.Context) (a : ages.Ages)
        → IsSome (slice_index_or u.machines sp.machine None) → IsSome sp.max
        → is_left_out sp k.address ≡ false → ReachesAge (most_of u sp) a
        → IsSome (first_cause (context_steps u sp k a).causes) }
    ensures alike { (u : setup.Setup) (sp : span.Span) (k : contexts.Context) (a b : ages.Ages)
        → IsSome (slice_index_or u.machines sp.machine None) → IsSome sp.max
        → ReachesAge (most_of u sp) a → ReachesAge (most_of u sp) b
        → first_cause (context_steps u sp k a).causes ≡ first_cause (context_steps u sp k b).causes }
{}

/// A row that is left out steps as if no ages were there, and no course of it passes.
pub fn rows_left_out_lose_ages()
    ensures ages { (u : setup.Setup) (sp : span.Span) (k : contexts.Context) (a : ages.Ages)
        → is_left_out sp k.address ≡ true → context_steps u sp k a ≡ context_steps u sp k Empty }
    ensures passes { (u : setup.Setup) (sp : span.Span) (k : contexts.Context) (a : ages.Ages)
        → is_left_out sp k.address ≡ true → NonePass (nexts_of (context_steps u sp k a)) }
{}

/// An excused tick, a late one where the row excuses, leaves no age but that of a from-event of its own. It adds no cause and
/// closes nothing.
pub fn an_excused_tick_leaves_a_fresh_age_at_most()
    ensures ages { (r : courses.Rules) (w : watch.Watch) (t : tick.Tick)
        → (t.late && r.excuses) ≡ true
        → (watched r w t).ages
        ≡ (if opens r w t then Between 0 0 else Empty) }
    ensures causes { (r : courses.Rules) (w : watch.Watch) (t : tick.Tick)
        → (t.late && r.excuses) ≡ true → (watched r w t).causes ≡ w.causes }
    ensures closes { (r : courses.Rules) (w : watch.Watch) (t : tick.Tick)
        → (t.late && r.excuses) ≡ true → (watched r w t).closes ≡ w.closes }
    ensures passes { (r : courses.Rules) (w : watch.Watch) (t : tick.Tick)
        → (t.late && r.excuses) ≡ true → (watched r w t).passes ≡ false }
{}

/// After a context whose address is in range, each next context's is, and its X and Y are followed so far.
pub fn next_contexts_are_in_range()
    ensures { (u : setup.Setup) (sp : span.Span) (k : contexts.Context) (a : ages.Ages)
        → nat_lt k.address 32 ≡ true → AllPlaced (followed sp) (nexts_of (context_steps u sp k a)) }
{}
