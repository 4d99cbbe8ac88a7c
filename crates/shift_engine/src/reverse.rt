//! A word with its 32 bits in the opposite order.
ghost use Rattle.std.specs.Prelude.{◌≡◌, ℕ, ◌-◌, ◌<◌};
ghost use Rattle.std.specs.Int.{bit_at};
ghost use Rattle.shift_engine.specs.Reverse.{reversed_bits, reversed_signed};

/// The word whose bit i is bit 31 - i of this one.
pub fn reverse_bits(word: u32) -> u32
    ensures value { result ≡ reversed_bits word }
    ensures bits { (i : ℕ) → i < 32 → bit_at result i ≡ bit_at word (31 - i) }
{
    word.reverse_bits()
}

/// The same on the two's complement of a signed number.
pub fn reverse_bits_signed(number: i32) -> i32
    ensures { result ≡ reversed_signed number }
{
    number.reverse_bits()
}
