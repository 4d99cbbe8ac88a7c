//! The level of one pin.
ghost use Rattle.std.specs.Prelude.{◌≡◌, ◌<◌};
ghost use Rattle.pin_matrix.specs.Pins as spec;

/// Whether a pin (0 to 31) is high in these levels.
pub fn is_high(levels: u32, pin: u8) -> bool
    requires { pin < 32 }
    ensures { result ≡ spec.is_high levels pin }
{
    (levels >> pin) % 2 == 1
}
