//! What a row says that is seen after which clocks, and what is seen.
ghost use Rattle.std.specs.Prelude.{◌≤◌};

use crate::insides::value_inside;
use crate::lines::{number, up_to};
use block_core::{Inside, Sample};
use std::alloc::{AllocError, Global};

/// The last clock that a row may look at.
const LAST: u64 = 100_000;

/// What is seen after a clock, as `p 1, t0 3`.
#[derive(Clone, Copy)]
pub struct After<'a> {
    pub clock: u64,
    pub list: &'a str,
}

/// What there is to be seen after a clock.
#[derive(Clone, Copy)]
pub struct Shown<'a> {
    pub clock: u64,
    pub sample: &'a Sample,
    /// What is inside the block, where that is known.
    pub inside: Option<&'a Inside>,
    /// The sample of the second block, where there are two.
    pub second: Option<&'a Sample>,
    /// How many clocks go by before the next one that stirs, where that is known.
    pub stir: Option<Option<u64>>,
}

/// What the lines that begin with `after` say; none where there is no such line, or one isn't well written.
pub fn afters<'a>(alloc: Global, lines: &'a str) -> Option<Vec<After<'a>>> {
    let mut afters = Vec::new(alloc);
    for line in lines.lines() {
        if let Some(rest) = line.strip_prefix("after ") {
            afters.push(after_of(rest)?).ok()?;
        }
    }
    if afters.is_empty() {
        return None;
    }
    Some(afters)
}

fn after_of(line: &str) -> Option<After<'_>> {
    let (clock, list) = line.split_once(": ")?;
    let clock: u64 = clock.parse().ok()?;
    if clock > LAST {
        return None;
    }
    Some(After { clock, list })
}

/// How many clocks a row takes.
pub fn clocks_of(afters: &[After]) -> u64
    ensures { result ≤ 100001 }
{
    let mut last = 0;
    for after in afters {
        if after.clock > last {
            last = after.clock;
        }
    }
    last.min(LAST) + 1
}

/// Adds what a row says that is seen after a clock, and what is seen; none where memory runs out, or a name is of
/// nothing.
pub fn tell(
    afters: &[After],
    shown: &Shown,
    expected: &mut String,
    seen: &mut String,
) -> Option<()> {
    for after in afters {
        if after.clock == shown.clock {
            tell_list(after.list, shown, expected, seen)?;
        }
    }
    Some(())
}

/// The same of a list. One that begins with `only` names all that isn't 0 of the sample.
pub fn tell_list(
    list: &str,
    shown: &Shown,
    expected: &mut String,
    seen: &mut String,
) -> Option<()> {
    let Some(whole) = list.strip_prefix("only ") else {
        return tell_items(list, shown, expected, seen);
    };
    tell_items(whole, shown, expected, seen)?;
    tell_others(whole, shown, seen)
}

fn tell_items(list: &str, shown: &Shown, expected: &mut String, seen: &mut String) -> Option<()> {
    for item in list.split(", ") {
        let (name, value) = item.split_once(' ')?;
        add_clock(shown.clock, name, expected).ok()?;
        add_clock(shown.clock, name, seen).ok()?;
        if name == "stir" {
            add_stir(value, expected)?;
            tell_stir(shown.stir?, seen).ok()?;
        } else {
            tell_number(number(value)?, expected).ok()?;
            tell_number(found(name, shown)?, seen).ok()?;
        }
    }
    Some(())
}

fn add_clock(clock: u64, name: &str, text: &mut String) -> Result<(), AllocError> {
    write!(text, "after {clock}: {name} ")
}

/// Adds how many clocks go by, or `none`.
fn add_stir(value: &str, text: &mut String) -> Option<()> {
    let stir = if value == "none" {
        None
    } else {
        Some(value.parse().ok()?)
    };
    tell_stir(stir, text).ok()
}

fn tell_stir(stir: Option<u64>, text: &mut String) -> Result<(), AllocError> {
    match stir {
        Some(clocks) => write!(text, "{clocks}\n"),
        None => text.push_str("none\n"),
    }
}

fn tell_number(value: u32, text: &mut String) -> Result<(), AllocError> {
    write!(text, "0x{value:x}\n")
}

/// The values of a sample as a trace names them, each at all its places together.
const NAMES: [&str; 19] = [
    "p", "d", "f", "t0", "t1", "t2", "t3", "r0", "r1", "r2", "r3", "w0", "w1", "w2", "w3", "s0",
    "s1", "s2", "s3",
];

/// Adds the values that aren't 0 though a list doesn't name them.
fn tell_others(list: &str, shown: &Shown, seen: &mut String) -> Option<()> {
    for name in NAMES {
        let value = found(name, shown)?;
        if value != 0 && !is_named(list, name) {
            add_clock(shown.clock, name, seen).ok()?;
            tell_number(value, seen).ok()?;
        }
    }
    Some(())
}

fn is_named(list: &str, name: &str) -> bool {
    for item in list.split(", ") {
        if let Some((named, _)) = item.split_once(' ') {
            if named == name {
                return true;
            }
        }
    }
    false
}

/// The value of a name. A tilde is before one of the second block.
fn found(name: &str, shown: &Shown) -> Option<u32> {
    if name == "pads" || name.contains('.') {
        return value_inside(name, shown.inside?);
    }
    match name.strip_prefix('~') {
        Some(name) => value_of(name, shown.second?),
        None => value_of(name, shown.sample),
    }
}

/// The value of a name as in a trace: of `p`, `d` and `f` all pins or flags together, and of `p5` that of pin 5.
fn value_of(name: &str, sample: &Sample) -> Option<u32> {
    match name {
        "p" => Some(sample.level),
        "d" => Some(sample.direction),
        "f" => Some(u32::from(sample.flags)),
        _ => value_at(name, sample),
    }
}

fn value_at(name: &str, sample: &Sample) -> Option<u32> {
    let (letter, place) = name.split_at_checked(1)?;
    match letter {
        "p" => bit_of(sample.level, up_to(31, place)?),
        "d" => bit_of(sample.direction, up_to(31, place)?),
        "f" => bit_of(u32::from(sample.flags), up_to(7, place)?),
        _ => value_of_machine(letter, usize::from(up_to(3, place)?), sample),
    }
}

fn bit_of(word: u32, place: u8) -> Option<u32> {
    Some(word.checked_shr(u32::from(place))? & 1)
}

fn value_of_machine(letter: &str, machine: usize, sample: &Sample) -> Option<u32> {
    match letter {
        "t" => Some(u32::from(*sample.tx.get(machine)?)),
        "r" => Some(u32::from(*sample.rx.get(machine)?)),
        "w" => sample.got.get(machine).copied(),
        "s" => Some(u32::from(*sample.sticky.get(machine)?)),
        _ => None,
    }
}
