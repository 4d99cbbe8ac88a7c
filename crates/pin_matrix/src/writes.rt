//! What an instruction writes to the pins of a mapping.
ghost use Rattle.std.specs.Prelude.{◌≡◌, ◌<◌, ◌≤◌, ◌%◌, ◌^◌};
ghost use Rattle.pin_matrix.specs.Pins as spec;
ghost use Rattle.pin_matrix.specs.Pins.{IsWrite};

use crate::mapping::Mapping;
use crate::rotation::rotate_right;

/// The pins that a value is written to, and the bits that they get: pin (base + i) mod 32 gets bit i of the value,
/// for each i below the mapping's count. A pin that isn't written has bit 0.
pub fn writes_of(mapping: &Mapping, value: u32) -> (u32, u32)
    ensures value { result ≡ spec.writes_of mapping.now value }
    ensures write { IsWrite result }
{
    let turn = 32 - mapping.base;
    (
        rotate_right(low_bits(u32::MAX, mapping.count), turn),
        rotate_right(low_bits(value, mapping.count), turn),
    )
}

/// The low `n` bits of a word.
fn low_bits(word: u32, n: u8) -> u32
    requires { n ≤ 32 }
    ensures { result ≡ word % 2 ^ n }
{
    (u64::from(word) % (1 << n)) as u32
}
