//! Laws of a machine's ticks along a table of the timing checker, each on a function that does nothing.
ghost use Rattle.std.specs.Prelude.{◌≡◌, ℕ, ◌+◌, ◌≤◌, ◌==◌, Bool, true, false, List, Option, Some, None, slice_index_or};
ghost use Rattle.pin_matrix.specs.Pins.{last_of};
ghost use Rattle.pin_matrix.specs.declared.machine.MachineSetup as setup;
ghost use Rattle.pin_matrix.specs.declared.setup.Setup as block;
ghost use Rattle.pin_matrix.specs.declared.span.Span as span;
ghost use Rattle.sm_registers.specs.Queues as queues;
ghost use Rattle.sm_registers.specs.State.{first_registers};
ghost use Rattle.sm_registers.specs.Tick.{tick_of};
ghost use Rattle.sm_registers.specs.declared.registers.Registers as registers;
ghost use Rattle.sm_registers.specs.View as view;
ghost use Rattle.span_step.specs.Contexts.{Context};
ghost use Rattle.span_step.specs.Courses.{start};
ghost use Rattle.span_step.specs.Steps.{bounds_of, is_bounded, is_named};
ghost use Rattle.span_step.specs.declared.ages.Ages.{Ages};
ghost use Rattle.span_step.specs.declared.ages.Ages.TheVariants as variants;
ghost use Rattle.span_ticks.specs.Following.{InAges, IsFollowed, level_after};
ghost use Rattle.span_ticks.specs.Rows.{IsInRow, IsSoundTable};
ghost use Rattle.span_ticks.specs.UnderWay.{IsContextOf, IsUnderWay, Watch, flow_of, is_excused_in};

use span_step::next_contexts_are_in_range;

/// A machine that is under way along the rows of a sound table is so after each tick, whatever it sees of the pins, the
/// flags and the FIFOs. Its open ages grow as the table says, or more of a span without a greatest bound, and stay
/// within the span's bounds, unless the machine is excused before the tick. `kept` says that the last instruction left X
/// and Y as the span assumes.
pub fn a_tick_follows_the_table()
    ensures { (u : block.Setup) (sp : span.Span) (rows : Context → Option Ages) (s : setup.MachineSetup)
        (v : view.View) (q : queues.Queues) (r : registers.Registers) (kept : Bool) (w : Watch)
        → slice_index_or u.machines sp.machine None ≡ Some s → IsSoundTable u sp rows
        → v.memory ≡ u.memory → IsUnderWay u sp rows s kept (flow_of r) w
        → IsFollowed u sp rows s kept r.pc (is_excused_in sp (flow_of r)) w (tick_of s v q r) }
{
    next_contexts_are_in_range();
}

/// Where the span has a greatest bound and names no address, each open age of a machine that is under way and isn't
/// excused may be one tick more: its next tick is not late, or nothing is open.
pub fn open_ages_have_room()
    ensures { (u : block.Setup) (sp : span.Span) (rows : Context → Option Ages) (s : setup.MachineSetup)
        (r : registers.Registers) (kept : Bool) (w : Watch)
        → slice_index_or u.machines sp.machine None ≡ Some s → IsSoundTable u sp rows → is_bounded sp ≡ true
        → ((address : ℕ) → is_named sp address ≡ false) → is_excused_in sp (flow_of r) ≡ false
        → IsUnderWay u sp rows s kept (flow_of r) w → (n : ℕ) → InAges (is_bounded sp) n w.ages → n + 1 ≤ (bounds_of sp s).1 }
{
    next_contexts_are_in_range();
}

/// At its start a machine is under way in any context of a sound table that agrees with it and has a row. No age is
/// open. A machine that begins with a pending word has no sound table with a row.
pub fn a_start_is_under_way()
    ensures { (u : block.Setup) (sp : span.Span) (rows : Context → Option Ages) (s : setup.MachineSetup) (k : Context)
        → slice_index_or u.machines sp.machine None ≡ Some s → IsSoundTable u sp rows
        → IsContextOf sp k (flow_of (first_registers s)) → IsInRow variants.Empty (rows k)
        → IsUnderWay u sp rows s true (flow_of (first_registers s)) (start false k variants.Empty) }
{}

/// A pin's level after writes is the bit of the last one that holds it, as `pin_matrix` says of a block's pins.
pub fn levels_are_last_writes()
    ensures { (p : ℕ) (writes : List (ℕ × ℕ)) (old : ℕ)
        → level_after p writes (old == 1) ≡ (last_of p old writes == 1) }
{}
