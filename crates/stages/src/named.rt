//! The span that has a name.
ghost use Rattle.std.specs.Prelude.{◌≡◌, None, IfSome, IsSome, option_map, slice_index_or};
ghost use Rattle.std.specs.Str.{bytes_eq};
ghost use Rattle.stages.specs.Configured.{AreConfigured};
ghost use Rattle.stages.specs.Named as spec;

use pin_matrix::{Setup, Span};

/// The first span of this name of a setup, where there is one, with its place, from 0 on. The machines of the spans are
/// configured.
pub fn span_named<'a>(setup: &'a Setup, name: &str) -> Option<(usize, &'a Span)>
    requires { AreConfigured setup.now }
    ensures first { option_map (λ found. (found.0, found.1.now)) result
        ≡ spec.named_from 0 name.now setup.now.spans }
    ensures configured { IfSome result
        (λ found. IsSome (slice_index_or setup.now.machines found.1.now.machine None)) }
{
    let spans = setup.spans.as_slice();
    for place in 0..spans.len() {
        let span = &spans[place];
        if has_name(span, name) {
            return Some((place, span));
        }
    }
    None
}

/// Whether a span has this name.
fn has_name(span: &Span, name: &str) -> bool
    ensures { result ≡ bytes_eq span.now.name name.now }
{
    span.name.as_str() == name
}
