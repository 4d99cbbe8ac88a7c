//! The samples and the text of a row of traces. Its lines:
//!
//! | A line | says |
//! |---|---|
//! | `3: level 1, direction 1` | what is shown at clock 3; of two blocks `3: quiet / level 2` |
//! | `end 8` | the clock of the end |
//! | `> $upscope $end` | a line of the text |
//! | `v b0 p` | a line of the dump; it has another value where `dump` says one of this variable |
//! | `dump 1A, b1 p` | the values of the dump that aren't 0 |
//! | `lines 183` | how many lines the text has |
//! | `fails 3 4` | the third call of the sink fails, and takes four bytes |
//! | `bytes 48` | just the first bytes of the text are there |
//! | `lent` | the sink is the caller's own, which is lent and comes back |
//! | `room 7` | how many samples a list has room for |
//! | `kept 6` | how many samples a list has |
//! | `s level 1` | a sample of the list |
//!
//! A sample has its values in hexadecimal digits: `level`, `direction` and `flags`, and of the four machines `tx`,
//! `rx`,
//! `got` and `sticky`. Those that it doesn't name are 0, as all are in `quiet`.
use super::sinks::failure_of;
use block_core::Sample;
use std::alloc::Global;

/// All is 0.
const QUIET: Sample = Sample {
    level: 0,
    direction: 0,
    flags: 0,
    tx: [0; 4],
    rx: [0; 4],
    got: [0; 4],
    sticky: [0; 4],
};

/// The sample of a list: `level 1, tx 0 0 0 8`.
pub fn sample_of(list: &str) -> Option<Sample> {
    let mut sample = QUIET;
    if list == "quiet" {
        return Some(sample);
    }
    for part in list.split(", ") {
        let (key, value) = part.split_once(' ')?;
        take(&mut sample, key, value)?;
    }
    Some(sample)
}

fn take(sample: &mut Sample, key: &str, value: &str) -> Option<()> {
    match key {
        "level" => sample.level = number(value)?,
        "direction" => sample.direction = number(value)?,
        "flags" => sample.flags = small(value)?,
        "tx" => sample.tx = four_small(value)?,
        "rx" => sample.rx = four_small(value)?,
        "got" => sample.got = four(value)?,
        "sticky" => sample.sticky = four_small(value)?,
        _ => return None,
    }
    Some(())
}

/// A number in hexadecimal digits.
pub fn number(digits: &str) -> Option<u32> {
    u32::from_str_radix(digits, 16).ok()
}

/// A small one.
pub fn small(digits: &str) -> Option<u8> {
    u8::from_str_radix(digits, 16).ok()
}

fn four(list: &str) -> Option<[u32; 4]> {
    let mut words = list.split(' ');
    Some([
        number(words.next()?)?,
        number(words.next()?)?,
        number(words.next()?)?,
        number(words.next()?)?,
    ])
}

fn four_small(list: &str) -> Option<[u8; 4]> {
    let mut words = list.split(' ');
    Some([
        small(words.next()?)?,
        small(words.next()?)?,
        small(words.next()?)?,
        small(words.next()?)?,
    ])
}

/// The clock and the samples of a line that has some.
pub fn told_at(line: &str) -> Option<(u64, &str)> {
    let (clock, samples) = line.split_once(": ")?;
    Some((clock.parse().ok()?, samples))
}

/// What a line with this head says, where there is one.
pub fn value_of<'a>(lines: &'a str, head: &str) -> Option<&'a str> {
    for line in lines.lines() {
        if let Some((own, value)) = line.split_once(' ') {
            if own == head {
                return Some(value);
            }
        }
    }
    None
}

/// The number after this head.
pub fn number_of(lines: &str, head: &str) -> Option<u64> {
    value_of(lines, head)?.parse().ok()
}

/// Whether each line is one that a row knows.
pub fn are_known(lines: &str) -> bool {
    lines.lines().all(is_known)
}

fn is_known(line: &str) -> bool {
    let (head, _) = line.split_once(' ').unwrap_or((line, ""));
    match head {
        ">" | "v" | "dump" | "end" | "lines" | "fails" | "bytes" | "lent" => true,
        "room" | "kept" | "s" | "configured" => true,
        _ => told_at(line).is_some(),
    }
}

/// Whether the sink is the caller's own.
pub fn is_lent(lines: &str) -> bool {
    lines.lines().any(|line| line == "lent")
}

/// The text of a row's lines; none where a line isn't known, or it has another number of lines than the row says.
fn text_of(alloc: Global, lines: &str) -> Option<String> {
    if !are_known(lines) {
        return None;
    }
    let dump = value_of(lines, "dump").unwrap_or("");
    let mut text = String::new(alloc);
    for line in lines.lines() {
        if let Some(own) = line.strip_prefix("> ") {
            write!(text, "{own}\n").ok()?;
        } else if let Some(zero) = line.strip_prefix("v ") {
            write!(text, "{}\n", value_in(dump, zero)).ok()?;
        }
    }
    match number_of(lines, "lines") {
        Some(count) if text.lines().count() as u64 != count => None,
        _ => Some(text),
    }
}

/// The value of a variable in a list of those that aren't 0, or the line in which it is 0.
fn value_in<'a>(list: &'a str, zero: &'a str) -> &'a str {
    for value in list.split(", ") {
        if variable_of(value) == variable_of(zero) {
            return value;
        }
    }
    zero
}

/// The identifier of the variable whose value this is: `A` of `1A`, `p` of `b101 p`.
fn variable_of(value: &str) -> &str {
    match value.split_once(' ') {
        Some((_, variable)) => variable,
        None => value.strip_prefix(['0', '1']).unwrap_or(""),
    }
}

/// The call of the sink that fails in a row, or none.
pub fn failure_in(alloc: Global, lines: &str) -> Option<Vec<(u64, usize)>> {
    let mut fails = Vec::new(alloc);
    if let Some(failure) = value_of(lines, "fails") {
        fails.push(failure_of(failure)?).ok()?;
    }
    Some(fails)
}

/// Adds the text of a row, or the first bytes of it that are to be there, and whether the trace is whole.
pub fn add_text(alloc: Global, lines: &str, expected: &mut String) -> Option<()> {
    let text = text_of(alloc, lines)?;
    match number_of(lines, "bytes") {
        None => write!(expected, "{}whole, faults 0", text.as_str()).ok(),
        Some(count) => {
            let first = text.as_str().get(..usize::try_from(count).ok()?)?;
            write!(expected, "{first}broken, faults 1").ok()
        }
    }
}

/// Adds what a sink has taken, and whether the trace is whole: `passes` says whether each call of it passed.
pub fn add_taken(
    bytes: &[u8],
    passes: bool,
    has_failed: bool,
    faults: u64,
    seen: &mut String,
) -> Option<()> {
    seen.push_str(str::from_utf8(bytes).ok()?).ok()?;
    write!(seen, "{}, faults {faults}", state(passes, has_failed)).ok()
}

/// Whether a trace is whole or broken.
pub fn state(passes: bool, has_failed: bool) -> &'static str {
    match (passes, has_failed) {
        (true, false) => "whole",
        (false, true) => "broken",
        _ => "neither whole nor broken",
    }
}
