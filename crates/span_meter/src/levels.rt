//! Edges of pins.
ghost use Rattle.std.specs.Prelude.{◌≡◌, ◌<◌};
ghost use Rattle.block_core.specs.Edges as spec;

use pin_matrix::is_high;

/// Whether the pin rises, or falls.
pub(crate) fn has_edge(pin: u8, rise: bool, before: u32, after: u32) -> bool
    requires { pin < 32 }
    ensures { result ≡ spec.has_edge pin rise before after }
{
    let (was, is) = (is_high(before, pin), is_high(after, pin));
    if rise { !was && is } else { was && !is }
}
