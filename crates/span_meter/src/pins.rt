//! What a clock shows of the pins.
ghost use Rattle.std.specs.Prelude.{◌≡◌};
ghost use Rattle.span_meter.specs.Measured as spec;

use pin_matrix::{PinSignal, signal_bits};

/// The output levels and the directions after a clock, or before the first one; bit i is pin i.
#[derive(Clone, Copy)]
pub struct ShownPins {
    pub level: u32,
    /// 1 is out.
    pub direction: u32,
}

impl ShownPins {
    /// Of all pins, the watched signal.
    pub(crate) fn signal(&self, watched: Option<PinSignal>) -> u32
        ensures { result ≡ spec.signal_of watched self.now }
    {
        signal_bits(watched, self.level, self.direction)
    }
}
