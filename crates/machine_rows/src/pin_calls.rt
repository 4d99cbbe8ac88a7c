//! Rows of pins: `write 4 8 0x123` of a mapping's base and count and a value, `from 0x81 3` of pins and a base,
//! `merge 16; - 3:1 - - - - - -` of the pins before and two writes of each machine, `pad 1 0 1` of levels, directions and
//! the outside, and `sync 1 0; 0 3 2` of the pads before, the pins without synchroniser, and the pads of clocks.
use crate::lines::{number, numbers, up_to};
use pin_matrix::{Mapping, Sync, merge4, pad_of, pins_from, writes_of};
use std::alloc::{AllocError, Global};

/// Adds the pins and bits that are written, the pins, or what is seen.
pub fn tell_pins(alloc: Global, asked: &str, text: &mut String) -> Option<()> {
    let (verb, rest) = asked.split_once(' ')?;
    match verb {
        "write" => tell_write(rest, text),
        "from" => tell_from(rest, text),
        "merge" => tell_merge(rest, text),
        "pad" => tell_pad(rest, text),
        "sync" => tell_sync(alloc, rest, text),
        _ => None,
    }
}

fn tell_write(rest: &str, text: &mut String) -> Option<()> {
    let (base, rest) = rest.split_once(' ')?;
    let (count, value) = rest.split_once(' ')?;
    let mapping = Mapping {
        base: up_to(31, base)?.min(31),
        count: up_to(32, count)?.min(32),
    };
    let (pins, bits) = writes_of(&mapping, number(value)?);
    write!(text, "0x{pins:x} 0x{bits:x}").ok()
}

fn tell_from(rest: &str, text: &mut String) -> Option<()> {
    let (pins, base) = rest.split_once(' ')?;
    let pins = pins_from(number(pins)?, up_to(31, base)?.min(31));
    write!(text, "0x{pins:x}").ok()
}

fn tell_merge(rest: &str, text: &mut String) -> Option<()> {
    let (before, list) = rest.split_once("; ")?;
    let mut writes = [(0, 0); 8];
    for (place, each) in writes.iter_mut().zip(list.split(' ')) {
        *place = write_of(each)?;
    }
    if list.split(' ').count() != 8 {
        return None;
    }
    write!(text, "0x{:x}", merge4(number(before)?, &writes)).ok()
}

/// Pins and their bits; none of either in `-`.
fn write_of(text: &str) -> Option<(u32, u32)> {
    if text == "-" {
        return Some((0, 0));
    }
    let (pins, bits) = text.split_once(':')?;
    Some((number(pins)?, number(bits)?))
}

fn tell_pad(rest: &str, text: &mut String) -> Option<()> {
    let (level, rest) = rest.split_once(' ')?;
    let (direction, outside) = rest.split_once(' ')?;
    let pad = pad_of(number(level)?, number(direction)?, number(outside)?);
    write!(text, "0x{pad:x}").ok()
}

fn tell_sync(alloc: Global, rest: &str, text: &mut String) -> Option<()> {
    let (before, list) = rest.split_once("; ")?;
    let (before, bypass) = before.split_once(' ')?;
    let mut sync = Sync::new(number(before)?, number(bypass)?);
    let pads = numbers(alloc, list)?;
    tell_pads(&mut sync, &pads, text).ok()
}

/// Adds what is seen in each clock with one of these pads, and whether they settled.
fn tell_pads(sync: &mut Sync, pads: &[u32], text: &mut String) -> Result<(), AllocError> {
    for pad in pads {
        let gap = if text.is_empty() { "" } else { ", " };
        let settled = if sync.settled(*pad) { " settled" } else { "" };
        write!(text, "{gap}0x{:x}{settled}", sync.seen(*pad))?;
        sync.step(*pad);
    }
    Ok(())
}
