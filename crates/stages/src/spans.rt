//! The verdicts on the spans of a setup.
ghost use Rattle.std.specs.Prelude.{◌≡◌, ◌≢◌, ◌++◌, ◌∷◌, [], IfOk, IsSome, None, Err, slice_index_or};
ghost use Rattle.stages.specs.Spans.{AreRequired, AreJudged, IsFirstOf, IsNextVerdict, IsVerdictOn};
ghost use Rattle.stages.specs.Configured.{AreConfigured};
ghost use Rattle.stages.specs.Spans as spec;

use fault_lines::Fault;
use pin_matrix::{Setup, Span};
use pio_encode::Name;
use span_check::{a_provable_span_holds_in_every_run, check};
use span_texts::{Finding, Refusal, found_by};
use std::alloc::{AllocError, Global};

/// The verdicts on all spans of a setup, in order; and the fault of the first one that isn't provable, where there is
/// one.
#[derive(Drop)]
pub struct Verdicts {
    pub found: Vec<Result<Finding, Refusal>>,
    pub refused: Option<Fault>,
}

/// Requires that each span is provable; then each holds in every run. The machines of the spans are configured. The fault
/// is that of the first span that isn't provable, or out of memory.
pub fn require_spans(alloc: Global, setup: &Setup) -> Result<(), Fault>
    requires { AreConfigured setup.now }
    ensures { AreRequired setup.now result }
{
    let verdicts = judge_spans(alloc, setup)?;
    unless_refused(setup, verdicts.refused)
}

/// Ends with the fault of the first span that isn't provable, where there is one. Else each holds in every run. The
/// setup is there for the clauses.
pub fn unless_refused(setup: &Setup, refused: Option<Fault>) -> Result<(), Fault>
    requires configured { AreConfigured setup.now }
    requires first { IsFirstOf setup.now setup.now.spans refused }
    ensures required { AreRequired setup.now result }
    ensures memory { result ≢ Err Fault.Memory }
{
    a_provable_span_holds_in_every_run();
    match refused {
        Some(fault) => Err(fault),
        None => Ok(()),
    }
}

/// The verdicts on the spans of a setup, whose machines are configured. Room for all is made first, and each table is
/// dropped as it comes. The error is out of memory.
pub fn judge_spans(alloc: Global, setup: &Setup) -> Result<Verdicts, AllocError>
    requires { AreConfigured setup.now }
    ensures { IfOk result (λ verdicts.
        AreJudged setup.now setup.now.spans verdicts.found.items verdicts.refused) }
{
    let spans = setup.spans.as_slice();
    let mut verdicts = Verdicts {
        found: Vec::with_capacity(alloc, spans.len())?,
        refused: None,
    };
    for place in 0..spans.len() {
        judge_next(alloc, setup, place, &spans[place], &mut verdicts)?;
    }
    Ok(verdicts)
}

/// Adds the verdict on the span at this place, whose machine is configured. The error is out of memory.
fn judge_next(
    alloc: Global,
    setup: &Setup,
    place: usize,
    span: &Span,
    verdicts: &mut Verdicts,
) -> Result<(), AllocError>
    requires { IsSome (slice_index_or setup.now.machines span.now.machine None) }
    ensures { IfOk result (λ _. IsNextVerdict setup.now place span.now verdicts.old.found.items
        verdicts.new.found.items verdicts.old.refused verdicts.new.refused) }
{
    let found = judge_span(alloc, setup, span)?;
    note_refusal(alloc, place, span, &found, &mut verdicts.refused)?;
    keep(&mut verdicts.found, found)
}

/// Adds a verdict to those that are found. The error is out of memory.
fn keep(
    verdicts: &mut Vec<Result<Finding, Refusal>>,
    found: Result<Finding, Refusal>,
) -> Result<(), AllocError>
    ensures { IfOk result (λ _. verdicts.new.items ≡ verdicts.old.items ++ found ∷ []) }
{
    verdicts.push(found)?;
    Ok(())
}

/// The verdict on a span, whose machine is configured, without its table. The error is out of memory.
fn judge_span(
    alloc: Global,
    setup: &Setup,
    span: &Span,
) -> Result<Result<Finding, Refusal>, AllocError>
    requires { IsSome (slice_index_or setup.now.machines span.now.machine None) }
    ensures { IfOk result (λ found. IsVerdictOn setup.now span.now found) }
{
    let verdict = check(alloc, setup, span)?;
    Ok(found_by(verdict, span))
}

/// Keeps the refusal that came before, else takes that of the span at this place, if it isn't proved. The error is want
/// of memory.
fn note_refusal(
    alloc: Global,
    place: usize,
    span: &Span,
    found: &Result<Finding, Refusal>,
    refused: &mut Option<Fault>,
) -> Result<(), AllocError>
    ensures { IfOk result (λ _. refused.new ≡ spec.first_refused refused.old place span.now.name found.now) }
{
    if refused.is_some() {
        return Ok(());
    }
    match found {
        Ok(_) => Ok(()),
        Err(refusal) => {
            let text = String::from_str(alloc, span.name.as_str())?;
            *refused = Some(Fault::Unproved(place, Name::new(text), *refusal));
            Ok(())
        }
    }
}
