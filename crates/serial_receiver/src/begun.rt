//! A frame that has begun, bit by bit.
ghost use Rattle.std.specs.Prelude.{◌≡◌, ◌+◌, ◌^◌, ◌<◌, ◌≤◌};

use crate::bits::bit_value;

/// A frame that isn't ended: the clock of its fall, and its first data bits.
#[derive(Clone, Copy)]
pub(crate) struct Begun {
    pub(crate) start: u64,
    /// How many data bits are known.
    pub(crate) known: u8,
    /// What they come to.
    pub(crate) byte: u8,
    ghost eight_bits: { known ≤ 8 },
    ghost fits: { byte < 2 ^ known },
}

impl Begun {
    ghost use Rattle.serial_receiver.specs.Frames as spec;

    /// One data bit more is known.
    pub(crate) fn with_bit(self, level: bool) -> Begun
        requires { self.known < 8 }
        ensures start { result.start ≡ self.start }
        ensures known { result.known ≡ self.known + 1 }
        ensures byte { result.byte ≡ self.byte + spec.bit_value level self.known }
    {
        Begun {
            start: self.start,
            known: self.known + 1,
            byte: self.byte + bit_value(level, self.known),
        }
    }
}
