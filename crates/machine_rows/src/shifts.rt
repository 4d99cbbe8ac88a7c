//! Rows of a shift or a reversal: `in 0x12 0x5 8 right` of ISR, source and bits, `out 0x12 8 left` of OSR and bits,
//! `reverse 0xf`, and `reverse_signed -1`.
use crate::lines::{number, up_to};
use shift_engine::{reverse_bits, reverse_bits_signed, shift_in, shift_out};

/// Adds the ISR after IN, the data and the OSR after OUT, or the bits in the opposite order.
pub fn tell_shift(asked: &str, text: &mut String) -> Option<()> {
    let (verb, rest) = asked.split_once(' ')?;
    match verb {
        "in" => tell_in(rest, text),
        "out" => tell_out(rest, text),
        "reverse" => write!(text, "0x{:x}", reverse_bits(number(rest)?)).ok(),
        "reverse_signed" => write!(text, "{}", reverse_bits_signed(rest.parse().ok()?)).ok(),
        _ => None,
    }
}

fn tell_in(rest: &str, text: &mut String) -> Option<()> {
    let (isr, rest) = rest.split_once(' ')?;
    let (source, rest) = rest.split_once(' ')?;
    let (bits, right) = way_of(rest)?;
    let isr = shift_in(number(isr)?, number(source)?, bits.min(32), right);
    write!(text, "0x{isr:x}").ok()
}

fn tell_out(rest: &str, text: &mut String) -> Option<()> {
    let (osr, rest) = rest.split_once(' ')?;
    let (bits, right) = way_of(rest)?;
    let (data, osr) = shift_out(number(osr)?, bits.min(32), right);
    write!(text, "0x{data:x} 0x{osr:x}").ok()
}

/// The bits of a shift, and whether it is to the right.
fn way_of(rest: &str) -> Option<(u8, bool)> {
    let (bits, way) = rest.split_once(' ')?;
    let bits = up_to(32, bits)?;
    match way {
        "right" => Some((bits, true)),
        "left" => Some((bits, false)),
        _ => None,
    }
}
