//! The bits of a frame: where each is read, and what a data bit adds to the byte.
ghost use Rattle.std.specs.Prelude.{◌≡◌, ◌<◌, ◌≤◌};
ghost use Rattle.serial_receiver.specs.Frames as spec;

/// What a data bit adds to the byte.
pub(crate) fn bit_value(level: bool, place: u8) -> u8
    requires { place < 8 }
    ensures { result ≡ spec.bit_value level place }
{
    if level { 1 << place } else { 0 }
}

/// The clocks from a frame's fall up to the middle of a bit; bit 8 is the stop bit.
pub(crate) fn middle(bit: u16, place: u8) -> u64
    requires { place ≤ 8 }
    ensures { result ≡ spec.middle bit place }
{
    let bit = u64::from(bit);
    bit / 2 + bit * (1 + u64::from(place))
}
