//! What a verdict comes to without its table.
ghost use Rattle.std.specs.Prelude.{◌≡◌};
ghost use Rattle.span_texts.specs.Refusals as spec;

use pin_matrix::{Addresses, PinSignal, Span};
use span_bounds::{Cause, Context};
use span_verdict::Verdict;

/// What the line of a proved span says.
#[derive(Clone, Copy)]
pub struct Finding {
    /// Whether it opens.
    pub opens: bool,
    /// Whether it closes. It is told exactly where the span has no greatest bound, an event that isn't any edge of a
    /// level, or from-events of which it says nothing.
    pub closes: Option<bool>,
    /// Whether nothing is said of a from-edge after which the machine waits.
    pub prompt: bool,
    /// Whether nothing is said once X or Y isn't as the span assumes.
    pub assumes: bool,
}

/// Why a span isn't proved.
#[derive(Clone, Copy)]
pub enum Refusal {
    /// The first bad context of the least closed table, and its first cause.
    Unproved(Context, Cause),
    /// The least other machine (0 to 3) one of whose mappings holds a pin of the span.
    Shared(u8),
}

/// What the line of a span with this verdict says, or why it isn't proved. The table is dropped.
pub fn found_by(verdict: Verdict, span: &Span) -> Result<Finding, Refusal>
    ensures { result ≡ spec.found_by span.now verdict }
{
    match verdict {
        Verdict::Proved {
            table,
            opens,
            closes,
        } => {
            drop(table);
            Ok(Finding {
                opens,
                closes: if says_more(span) { Some(closes) } else { None },
                prompt: span.prompt,
                assumes: assumes(span),
            })
        }
        Verdict::Unproved(context, cause) => Err(Refusal::Unproved(context, cause)),
        Verdict::Shared(machine) => Err(Refusal::Shared(machine)),
    }
}

/// Whether a span has no greatest bound, an event that isn't any edge of a level, or from-events of which nothing is said.
fn says_more(span: &Span) -> bool
    ensures { result ≡ spec.says_more span.now }
{
    span.max.is_none()
        || !is_any_edge(span.from_signal, &span.from_at)
        || !is_any_edge(span.to_signal, &span.to_at)
        || span.prompt
        || !span.without.as_slice().is_empty()
        || assumes(span)
}

/// Whether a span assumes something.
fn assumes(span: &Span) -> bool
    ensures { result ≡ spec.assumes span.now }
{
    !span.assume.as_slice().is_empty()
}

/// Whether an event is an edge of a level that any instruction may make.
fn is_any_edge(signal: Option<PinSignal>, named: &Addresses) -> bool
    ensures { result ≡ spec.is_any_edge signal named.now }
{
    match signal {
        Some(PinSignal::Level) => named.as_slice().is_empty(),
        Some(PinSignal::Direction) | None => false,
    }
}
