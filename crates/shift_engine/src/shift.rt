//! Bits that enter the ISR and leave the OSR, by up to a whole word of 32 bits.
//! The sums are of 64 bits, so that a shift by 32 needs no case of its own.
ghost use Rattle.std.specs.Prelude.{◌≡◌, ◌%◌, ◌^◌, ◌<◌, ◌≤◌};
ghost use Rattle.shift_engine.specs.Shift.{shifted_in, shifted_out};

/// The ISR after the low `n` bits of `source` were shifted in. Higher bits of `source` don't count.
///
/// To the right they enter at the top, to the left at the bottom. At 32 bits the ISR is the source.
pub fn shift_in(isr: u32, source: u32, n: u8, right: bool) -> u32
    requires { n ≤ 32 }
    ensures { result ≡ shifted_in isr source n right }
{
    let data = u64::from(low_bits(source, n));
    let isr = u64::from(isr);
    if right {
        ((isr >> n) + (data << (32 - n))) as u32
    } else {
        low_word((isr << n) + data)
    }
}

/// The `n` bits that leave the OSR, as a number with zeros above, and the OSR after it.
///
/// To the right they are its lowest bits, to the left its highest. Zeros enter at the other end.
pub fn shift_out(osr: u32, n: u8, right: bool) -> (u32, u32)
    requires { n ≤ 32 }
    ensures { result ≡ shifted_out osr n right }
{
    let whole = u64::from(osr);
    if right {
        (low_bits(osr, n), (whole >> n) as u32)
    } else {
        ((whole >> (32 - n)) as u32, low_word(whole << n))
    }
}

/// The low `n` bits of a word.
pub fn low_bits(word: u32, n: u8) -> u32
    requires { n ≤ 32 }
    ensures value { result ≡ word % 2 ^ n }
    ensures below { result < 2 ^ n }
{
    (u64::from(word) % (1 << n)) as u32
}

// The low 32 bits.
fn low_word(bits: u64) -> u32
    ensures { result ≡ bits % 2 ^ 32 }
{
    (bits % (1 << 32)) as u32
}
