//! What a meter of spans has measured, of one kind or the other.
ghost use Rattle.std.specs.Prelude.{◌≡◌, ◌<◌, Some, length, slice_get};
ghost use Rattle.commands.specs.Metered as spec;

use span_meter::{SeenDistances, SpanMeter, SpokenMeter};

/// A meter of spans that all speak of every pair of their edges, or of some that don't.
#[derive(Drop)]
pub(crate) enum Metered<'a> {
    Plain(SpanMeter),
    Spoken(SpokenMeter<'a>),
}

impl<'a> Metered<'a> {
    /// What was measured of a span, by its place in the list that the meter was made for.
    pub(crate) fn seen(&self, span: usize) -> SeenDistances
        requires { span < length (spec.seen_of_each self.now) }
        ensures { slice_get (spec.seen_of_each self.now) span ≡ Some result }
    {
        match self {
            Metered::Plain(meter) => meter.seen(span),
            Metered::Spoken(meter) => meter.seen(span),
        }
    }
}
