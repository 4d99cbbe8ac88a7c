//! The edges that a span goes between.
ghost use Rattle.std.specs.Prelude.{◌≡◌, ◌<◌};

use crate::levels::has_edge;
use crate::pins::ShownPins;
use pin_matrix::{PinSignal, Span};

/// The edges of a span: each a rise of a pin's level or its direction, which becomes out, else a fall. None comes where no signal is
/// watched.
#[derive(Clone, Copy)]
pub(crate) struct Edges {
    from_pin: u8,
    from_signal: Option<PinSignal>,
    from_rise: bool,
    to_pin: u8,
    to_signal: Option<PinSignal>,
    to_rise: bool,
    ghost from_pin_is_a_pin: { from_pin < 32 },
    ghost to_pin_is_a_pin: { to_pin < 32 },
}

impl Edges {
    ghost use Rattle.span_meter.specs.Measured as spec;
    ghost use Rattle.span_meter.specs.Measured.{ends_in};
    ghost use Rattle.span_meter.specs.Kept.{ends_of};

    /// The edges of a span.
    pub(crate) fn of(span: &Span) -> Edges
        ensures { ends_of result ≡ ends_in span.now }
    {
        Edges {
            from_pin: span.from_pin,
            from_signal: span.from_signal,
            from_rise: span.from_rise,
            to_pin: span.to_pin,
            to_signal: span.to_signal,
            to_rise: span.to_rise,
        }
    }

    /// Whether the from-edge comes, by what is shown before and after a clock.
    pub(crate) fn is_from(&self, before: ShownPins, after: ShownPins) -> bool
        ensures { result ≡ spec.is_from (ends_of self.now) before after }
    {
        let (was, is) = (
            before.signal(self.from_signal),
            after.signal(self.from_signal),
        );
        has_edge(self.from_pin, self.from_rise, was, is)
    }

    /// Whether the to-edge comes.
    pub(crate) fn is_to(&self, before: ShownPins, after: ShownPins) -> bool
        ensures { result ≡ spec.is_to (ends_of self.now) before after }
    {
        let (was, is) = (before.signal(self.to_signal), after.signal(self.to_signal));
        has_edge(self.to_pin, self.to_rise, was, is)
    }
}
