//! Calls whose outside fails: each put, each finish and each fetch once, and the error output within its line.
use super::call::{CallOutcome, Failing, QUIET, seen};
use super::lines::{has, only};
use super::row::Row;
use std::alloc::Global;

/// No call here makes as many calls of its output.
const MOST: u64 = 1000;

/// Whether each call of the output fails as it should. Where each line is put by one call, there are as many calls as
/// lines, and one more.
pub fn puts_fail(alloc: Global, row: &Row) -> Option<bool> {
    let by_lines = has(row.lines, ">lines");
    let mut count = 0;
    for call in 1..=MOST {
        match put_fails(alloc, row, by_lines, call)? {
            Put::NoneSuch => break,
            Put::Fails => count = call,
            Put::Wrong => return Some(false),
        }
    }
    let lines = lines_in(&row.out);
    Some(lines < count && count < MOST && (!by_lines || count == lines.saturating_add(1)))
}

/// What comes of a call of the output that is to fail.
#[derive(Clone, Copy)]
enum Put {
    /// There are fewer calls.
    NoneSuch,
    Fails,
    Wrong,
}

/// A call of the output that fails after no byte leaves status 5 and a first part of the text; after one byte, one
/// byte more of it, or the same where the call was `finish` or put nothing. Where each line is put by one call, just
/// those before are there.
fn put_fails(alloc: Global, row: &Row, by_lines: bool, call: u64) -> Option<Put> {
    let none = failing_put(alloc, row, call, 0)?;
    if none.out.faults() == 0 {
        return Some(Put::NoneSuch);
    }
    let one = failing_put(alloc, row, call, 1)?;
    let before = none.out.bytes();
    let with_one = one.out.bytes();
    let right = is_stopped(&none)
        && is_stopped(&one)
        && row.out.starts_with(before)
        && row.out.starts_with(with_one)
        && with_one.len().saturating_sub(before.len()) <= 1
        && (!by_lines || is_by_lines(&row.out, before, with_one, call));
    Some(if right { Put::Fails } else { Put::Wrong })
}

/// Whether the lines before a call are there, and one byte more, or all of the text.
fn is_by_lines(text: &[u8], before: &[u8], with_one: &[u8], call: u64) -> bool {
    lines_in(before) == call.saturating_sub(1)
        && (before.is_empty() || before.ends_with(b"\n"))
        && (before.len() == text.len() || with_one.len() > before.len())
}

/// How many newlines there are.
fn lines_in(text: &[u8]) -> u64 {
    let mut count = 0_u64;
    for byte in text {
        if *byte == b'\n' {
            count = count.saturating_add(1);
        }
    }
    count
}

fn failing_put(alloc: Global, row: &Row, call: u64, taken: usize) -> Option<CallOutcome> {
    let failing = Failing {
        out: &[(call, taken)],
        ..QUIET
    };
    seen(alloc, &row.call, failing)
}

/// The call ended since the output failed.
fn is_stopped(found: &CallOutcome) -> bool {
    found.status == 5 && found.err.bytes() == "piotool: out\n".as_bytes()
}

/// Whether each fetch that fails ends the call, and the output is empty.
pub fn fetches_fail(alloc: Global, row: &Row) -> Option<bool> {
    let mut number = 0_u64;
    for file in only(row.lines, "fetches")?.split(' ') {
        number = number.saturating_add(1);
        if !file.is_empty() && !fetch_fails(alloc, row, file, number)? {
            return Some(false);
        }
    }
    Some(true)
}

fn fetch_fails(alloc: Global, row: &Row, file: &str, number: u64) -> Option<bool> {
    let failing = Failing {
        fetches: &[number],
        ..QUIET
    };
    let found = seen(alloc, &row.call, failing)?;
    let line = format!(in alloc; "piotool: shelf {file}\n").ok()?;
    Some(found.status == 4 && found.out.bytes().is_empty() && found.err.bytes() == line.as_bytes())
}

/// Whether the status and the output stay wherever the error output fails within its line, and it has a first part of
/// it.
pub fn line_fails(alloc: Global, row: &Row) -> Option<bool> {
    for taken in 0..row.err.len() {
        if !is_cut(alloc, row, 1, taken)? {
            return Some(false);
        }
    }
    Some(
        row.ends(alloc)?
            && is_cut(alloc, row, 2, 0)?
            && is_cut(alloc, row, 3, 0)?
            && is_cut(alloc, row, 4, 0)?,
    )
}

/// Where this call of the error output fails after so many bytes, the status and the output stay, and a first part of
/// the line is told; of the first call, which begins with the program's name, just these bytes up to the name's end.
fn is_cut(alloc: Global, row: &Row, call: u64, taken: usize) -> Option<bool> {
    let failing = Failing {
        err: &[(call, taken)],
        ..QUIET
    };
    let found = seen(alloc, &row.call, failing)?;
    let has = found.err.bytes();
    let first = call > 1 || taken > 8 || has.len() == taken;
    Some(
        found.status == row.status
            && found.out.bytes() == row.out.as_slice()
            && row.err.starts_with(has)
            && first,
    )
}
