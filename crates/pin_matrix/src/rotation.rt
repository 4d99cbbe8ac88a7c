//! The 32 pins counted from another pin than 0: a word turned round.
ghost use Rattle.std.specs.Prelude.{◌≡◌, ◌<◌, ◌≤◌};
ghost use Rattle.pin_matrix.specs.Pins as spec;

/// The pins counted from a base (0 to 31): bit i is pin (base + i) mod 32.
pub fn pins_from(pins: u32, base: u8) -> u32
    requires { base < 32 }
    ensures { result ≡ spec.rotated_right pins base }
{
    rotate_right(pins, base)
}

/// The word turned right by up to 32 bits.
pub(crate) fn rotate_right(word: u32, by: u8) -> u32
    requires { by ≤ 32 }
    ensures { result ≡ spec.rotated_right word by }
{
    word.rotate_right(u32::from(by))
}
