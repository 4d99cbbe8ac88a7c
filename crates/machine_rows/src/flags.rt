//! Rows of flags: `resolve 24 1` of an index and a machine, and `merge 0b11 0b110 0b1010` of the flags that are up,
//! lowered and raised.
use crate::lines::{number, up_to};
use irq_flags::{Flags, resolve};

/// Adds the flag that an index means, or the flags that are up after a clock.
pub fn tell_flags(asked: &str, text: &mut String) -> Option<()> {
    let (verb, rest) = asked.split_once(' ')?;
    match verb {
        "resolve" => tell_resolved(rest, text),
        "merge" => tell_merged(rest, text),
        _ => None,
    }
}

fn tell_resolved(rest: &str, text: &mut String) -> Option<()> {
    let (index, machine) = rest.split_once(' ')?;
    let index = up_to(31, index)?;
    let machine = up_to(3, machine)?;
    write!(text, "{}", resolve(index.min(31), machine.min(3))).ok()
}

fn tell_merged(rest: &str, text: &mut String) -> Option<()> {
    let (up, rest) = rest.split_once(' ')?;
    let (clears, sets) = rest.split_once(' ')?;
    let mut flags = Flags { up: byte(up)? };
    flags.merge(byte(clears)?, byte(sets)?);
    write!(text, "0b{:08b}", flags.up).ok()
}

fn byte(text: &str) -> Option<u8> {
    u8::try_from(number(text)?).ok()
}
