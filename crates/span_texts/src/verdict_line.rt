//! The line of a verdict, piece by piece.
ghost use Rattle.std.specs.Prelude.{◌≡◌, []};
ghost use Rattle.pio_edge.specs.Edge.{Takes, PutCounts};
ghost use Rattle.span_texts.specs.VerdictLines as spec;

use crate::refusal::{Finding, Refusal};
use crate::words::{cause_ending, put_told_at, put_told_number};
use pio_edge::{Sink, SinkFailed, put_all};
use pio_encode::Name;

/// Puts the line of a verdict on the span with this name: whether it opens, and where the line has them whether it closes and under
/// which premise; or why it isn't proved.
pub fn put_verdict<S: Sink>(
    sink: &mut S,
    name: &Name,
    found: &Result<Finding, Refusal>,
) -> Result<(), SinkFailed>
    ensures bytes { Takes (S.taken sink.old) (spec.verdict_line [] name.now found.now) (S.taken sink.new) result }
    ensures cause { PutCounts (S.faults sink.old) (S.faults sink.new) result }
{
    match found {
        Ok(finding) => put_proved(sink, name.as_bytes(), *finding),
        Err(refusal) => put_refusal(sink, "", name, refusal),
    }
}

/// Puts the line of a span that is proved.
fn put_proved<S: Sink>(sink: &mut S, name: &[u8], finding: Finding) -> Result<(), SinkFailed>
    ensures bytes { Takes (S.taken sink.old) (spec.proved_line [] name.now finding) (S.taken sink.new) result }
    ensures cause { PutCounts (S.faults sink.old) (S.faults sink.new) result }
{
    match finding.closes {
        None => put_opening(sink, name, yes_text(finding.opens)),
        Some(closes) => put_closing(
            sink,
            name,
            yes_text(finding.opens),
            yes_text(closes),
            premise_text(finding.prompt, finding.assumes),
        ),
    }
}

/// Puts the pieces of the line that says whether a span opens and closes.
fn put_closing<S: Sink>(
    sink: &mut S,
    name: &[u8],
    opens: &str,
    closes: &str,
    premise: &str,
) -> Result<(), SinkFailed>
    ensures bytes { Takes (S.taken sink.old)
        (spec.closing_line [] name.now opens.now closes.now premise.now) (S.taken sink.new) result }
    ensures cause { PutCounts (S.faults sink.old) (S.faults sink.new) result }
{
    put_all(
        sink,
        &[
            "span ".as_bytes(),
            name,
            " proved opens ".as_bytes(),
            opens.as_bytes(),
            " closes ".as_bytes(),
            closes.as_bytes(),
            premise.as_bytes(),
            "\n".as_bytes(),
        ],
    )
}

/// Puts the pieces of the line that says whether a span opens.
fn put_opening<S: Sink>(sink: &mut S, name: &[u8], opens: &str) -> Result<(), SinkFailed>
    ensures bytes { Takes (S.taken sink.old) (spec.opening_line [] name.now opens.now) (S.taken sink.new) result }
    ensures cause { PutCounts (S.faults sink.old) (S.faults sink.new) result }
{
    put_all(
        sink,
        &[
            "span ".as_bytes(),
            name,
            " proved opens ".as_bytes(),
            opens.as_bytes(),
            "\n".as_bytes(),
        ],
    )
}

/// Puts the line of a span that isn't proved, with a text before it.
pub fn put_refusal<S: Sink>(
    sink: &mut S,
    front: &str,
    name: &Name,
    refusal: &Refusal,
) -> Result<(), SinkFailed>
    ensures bytes { Takes (S.taken sink.old) (spec.refusal_line front.now name.now refusal.now) (S.taken sink.new) result }
    ensures cause { PutCounts (S.faults sink.old) (S.faults sink.new) result }
{
    match refusal {
        Refusal::Unproved(context, cause) => {
            put_told_at(
                sink,
                front,
                name.as_bytes(),
                " unproved at ",
                context,
                cause_ending(*cause),
            )
        }
        Refusal::Shared(machine) => put_told_number(
            sink,
            front,
            name.as_bytes(),
            " unproved by machine ",
            *machine,
            ": U5\n",
        ),
    }
}

/// Whether a span opens, or closes.
fn yes_text(is_so: bool) -> &'static str
    ensures { result.now ≡ spec.yes_text is_so }
{
    if is_so { "yes" } else { "no" }
}

/// Under which premises a span is proved.
fn premise_text(prompt: bool, assumes: bool) -> &'static str
    ensures { result.now ≡ spec.premise_text prompt assumes }
{
    match (prompt, assumes) {
        (false, false) => "",
        (true, false) => " under prompt",
        (false, true) => " under assume",
        (true, true) => " under prompt, assume",
    }
}
