//! One step of the timing checker.
ghost use Rattle.std.specs.Prelude.{◌≡◌, ◌≤◌, ◌^◌, [], None, Some, IsSome, slice_index_or};
ghost use Rattle.pio_encode.specs.Ranges.{IsInRange};
ghost use Rattle.span_step.specs.Laws.{cap_of};
ghost use Rattle.span_step.specs.Narrowing as narrowing;
ghost use Rattle.span_step.specs.Steps as spec;

use crate::acts::{is_wild, outcomes};
use crate::ages::Ages;
use crate::cause::Causes;
use crate::context::Context;
use crate::narrowing::Narrowing;
use crate::rules::cap_in;
use crate::stepped::Stepped;
use crate::visit::Visit;
use pin_matrix::{MachineSetup, Setup, Span};
use pio_encode::{Op, decode};

/// The step of a row: what can come after the instruction at the context's address, with the ages then. The span's machine
/// is configured.
pub fn step(setup: &Setup, span: &Span, context: &Context, ages: &Ages) -> Stepped
    requires { IsSome (slice_index_or setup.now.machines span.now.machine None) }
    ensures { result ≡ spec.context_steps setup.now span.now context.now ages.now }
{
    let mut found = Stepped::none();
    find_step(setup, span, context, ages, &mut found);
    found
}

/// The same, found where nothing was found yet, so that it needn't be moved.
#[tactic(auto, unfolding(crate::specs::Steps::context_steps))]
pub fn find_step(setup: &Setup, span: &Span, context: &Context, ages: &Ages, found: &mut Stepped)
    requires configured { IsSome (slice_index_or setup.now.machines span.now.machine None) }
    requires nothing { found.old.ends ≡ [] }
    ensures { found.new ≡ spec.context_steps setup.now span.now context.now ages.now }
{
    found.narrowing = Narrowing::after(span, context.address);
    found.causes = Causes::none();
    found.from_edge = false;
    found.closes = false;
    match &setup.machines[usize::from(span.machine)] {
        Some(machine) => {
            let word = setup.memory[usize::from(context.address)];
            let op = decode(word, &machine.side_rule);
            step_by(machine, span, &op, context, *ages, found);
        }
        None => unreachable!(),
    }
}

/// The age at which the ages of a span stop. The span's machine is configured.
#[tactic(auto, unfolding(crate::specs::Laws::most_of))]
pub fn age_cap(setup: &Setup, span: &Span) -> u32
    requires { IsSome (slice_index_or setup.now.machines span.now.machine None) }
    ensures value { result ≡ cap_of setup.now span.now }
    ensures fits { result ≤ 2 ^ 24 }
{
    match &setup.machines[usize::from(span.machine)] {
        Some(machine) => cap_in(machine, span),
        None => unreachable!(),
    }
}

/// The step of a row whose instruction this is. The word that a machine begins with isn't followed.
#[tactic(auto, unfolding(crate::specs::Steps::step_by))]
fn step_by(
    machine: &MachineSetup,
    span: &Span,
    op: &Op,
    context: &Context,
    ages: Ages,
    found: &mut Stepped,
)
    requires range { IsInRange op.now.act }
    requires nothing { found.old ≡ spec.nothing_found (narrowing.narrowing_after span.now context.now.address) }
    ensures { found.new ≡ spec.step_by machine.now span.now op.now context.now ages }
{
    if is_wild(op.act) || machine.pending.is_some() {
        found.causes.u4 = true;
        return;
    }
    let visit = Visit::of(machine, span, op, context, ages);
    let outcomes = outcomes(op.act, machine, span, context);
    for outcome in outcomes.as_slice() {
        visit.add_outcome(outcome, found);
    }
    found.causes.u6 = is_unmet(found);
}

/// Whether at the end of a course X or Y is known to be where it is assumed not to be.
fn is_unmet(found: &Stepped) -> bool
    ensures { result ≡ narrowing.is_unmet_at_an_end found.now }
{
    let narrowing = found.narrowing;
    if narrowing.is_wide() {
        return false;
    }
    found
        .ends
        .as_slice()
        .iter()
        .any(|end| narrowing.is_unmet(end))
}
