//! Rows of whole calls of the program over files in memory. The lines of a row:
//!
//! | A line | says |
//! |---|---|
//! | `# a square wave` | a note |
//! | `$ piotool run --source s --clocks 8` | the words of the call; `''` is an empty word |
//! | `s .program p` | a line of the file `s`; so `c`, `d` and `t` |
//! | `= 0` | the status |
//! | `> #1` | a line of the output |
//! | `! piotool: usage` | a line of the error output |
//! | `>fails 3 0` | the third call of the output fails, and takes no byte; `!fails` of the error output |
//! | `>room 84` | the output has room for so many bytes |
//! | `>lines` | each line of the output is put by one call |
//! | `fetches source config` | the files that the call fetches, in order |
//!
//! A file that no line is of isn't there. `s: .program p|nop` gives the bytes that `spelling` says, with no newline
//! after them; so with the other files and outputs. `>header pio` gives the lines of a trace up to `#0`, and `>values
//! 1!, b100 u` its first sample, in which just these values aren't 0. An output that begins with `..` is compared by
//! its end alone: what comes after the dots.
mod call;
mod failing;
mod lines;
mod row;
mod trace;

use failing::{fetches_fail, line_fails, puts_fail};
use row::Row;
use std::alloc::Global;

/// What is asked of a call.
#[derive(Clone, Copy)]
pub enum CallKind {
    /// How it ends.
    Ends,
    /// The same; and whether each call of the output and each fetch fails as it should.
    Writes,
    /// The same; and whether the error output fails as it should wherever in its line.
    Tells,
}

/// The kinds with their names.
pub static CALL_KINDS: [(&str, CallKind); 3] = [
    ("calls", CallKind::Ends),
    ("calls that write", CallKind::Writes),
    ("calls that tell a fault", CallKind::Tells),
];

/// Adds how a row says that its call ends, and how it ends; none where memory runs out, or a line isn't well written.
pub fn tell_call(
    alloc: Global,
    kind: CallKind,
    lines: &str,
    expected: &mut String,
    seen: &mut String,
) -> Option<()> {
    let row = Row::of(alloc, lines)?;
    row.tell(alloc, expected, seen)?;
    match kind {
        CallKind::Ends => Some(()),
        CallKind::Writes => {
            add_failing("each put", puts_fail(alloc, &row)?, expected, seen)?;
            add_failing("each fetch", fetches_fail(alloc, &row)?, expected, seen)
        }
        CallKind::Tells => add_failing("the line", line_fails(alloc, &row)?, expected, seen),
    }
}

/// Adds that something fails as it should, and whether it does.
fn add_failing(what: &str, does: bool, expected: &mut String, seen: &mut String) -> Option<()> {
    let how = if does { "" } else { " not" };
    write!(expected, "{what} fails as it should\n").ok()?;
    write!(seen, "{what} fails{how} as it should\n").ok()
}
