//! Laws of the definitions: where each bit of a shifted register comes from.
//! Each is the contract of a function that does nothing.
ghost use Rattle.std.specs.Prelude.{◌≡◌, ℕ, ◌+◌, ◌-◌, ◌^◌, ◌<◌, ◌≤◌, true, false, nat_lt, if◌then◌else◌};
ghost use Rattle.std.specs.Int.{bit_at};
ghost use Rattle.shift_engine.specs.Shift.{shifted_in, shifted_out};

/// After an IN of n bits to the right, the top n bits are the low ones of the source, and the others are those of the
/// ISR from n bits higher. To the left, the low n bits are those of the source, and the others are from n bits lower.
pub fn bits_in()
    ensures right { (isr source n i : ℕ) → isr < 2 ^ 32 → n ≤ 32 → i < 32 →
        bit_at (shifted_in isr source n true) i ≡
        (if nat_lt (i + n) 32 then bit_at isr (i + n) else bit_at source (i + n - 32)) }
    ensures left { (isr source n i : ℕ) → i < 32 →
        bit_at (shifted_in isr source n false) i ≡
        (if nat_lt i n then bit_at source i else bit_at isr (i - n)) }
{}

/// An OUT of n bits to the right gives the low n bits, and leaves the others n bits lower. To the left it gives the high
/// n bits, and leaves the others n bits higher.
pub fn bits_out()
    ensures right { (osr n i : ℕ) →
        bit_at (shifted_out osr n true).0 i ≡ (if nat_lt i n then bit_at osr i else 0) }
    ensures rest_right { (osr n i : ℕ) → bit_at (shifted_out osr n true).1 i ≡ bit_at osr (i + n) }
    ensures left { (osr n i : ℕ) →
        bit_at (shifted_out osr n false).0 i ≡ bit_at osr (i + (32 - n)) }
    ensures rest_left { (osr n i : ℕ) → i < 32 →
        bit_at (shifted_out osr n false).1 i ≡ (if nat_lt i n then 0 else bit_at osr (i - n)) }
{}
