//! Which spans speak not of every pair of their edges.
ghost use Rattle.std.specs.Prelude.{◌≡◌};
ghost use Rattle.span_meter.specs.Events as spec;

use pin_matrix::Span;

/// Whether some of these spans is under `prompt`, leaves out ways, names instructions, or assumes something of X or Y: what it
/// measures isn't to be seen from the pins alone.
pub fn is_any_selective(spans: &[Span]) -> bool
    ensures { result ≡ spec.is_any_selective spans.now }
{
    spans.iter().any(|span| is_selective(span))
}

/// Whether a span is under `prompt`, leaves out ways, names instructions, or assumes something of X or Y.
pub(crate) fn is_selective(span: &Span) -> bool
    ensures { result ≡ spec.is_selective span.now }
{
    ((span.prompt || !span.without.as_slice().is_empty())
        || (!span.from_at.as_slice().is_empty() || !span.to_at.as_slice().is_empty()))
        || !span.assume.as_slice().is_empty()
}
