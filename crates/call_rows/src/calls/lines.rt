//! The lines of a row. The first word of a line, its head, says what the line is of; after one blank comes what it
//! says.
use super::call::ROOM;
use super::trace::{add_first_sample, add_header};
use row_tables::spell;
use std::alloc::Global;

/// The head of a line, and what comes after it.
fn parted(line: &str) -> (&str, &str) {
    line.split_once(' ').unwrap_or((line, ""))
}

/// What comes after this head in the one line that has it; none where no line has it, or two.
pub fn only<'a>(lines: &'a str, head: &str) -> Option<&'a str> {
    let mut found = None;
    for line in lines.lines() {
        let (own, rest) = parted(line);
        if own == head {
            if found.is_some() {
                return None;
            }
            found = Some(rest);
        }
    }
    found
}

/// Whether a line has this head.
pub fn has(lines: &str, head: &str) -> bool {
    for line in lines.lines() {
        let (own, _) = parted(line);
        if own == head {
            return true;
        }
    }
    false
}

/// Whether a line is of this part: the file `s`, `c`, `d` or `t`, the output `>`, or the error output `!`.
pub fn is_given(lines: &str, part: &str) -> bool {
    for line in lines.lines() {
        let (head, _) = parted(line);
        if head.starts_with(part) {
            return true;
        }
    }
    false
}

/// The bytes of a part, line by line; none where memory runs out, or a line is not well written.
pub fn text_of(alloc: Global, lines: &str, part: &str) -> Option<Vec<u8>> {
    let mut bytes = Vec::new(alloc);
    for line in lines.lines() {
        let (head, rest) = parted(line);
        if let Some(form) = head.strip_prefix(part) {
            add(alloc, form, rest, &mut bytes)?;
        }
    }
    Some(bytes)
}

/// Adds what a line of this form gives.
fn add(alloc: Global, form: &str, rest: &str, bytes: &mut Vec<u8>) -> Option<()> {
    match form {
        "" => add_line(rest, bytes),
        ":" => spell(rest, bytes),
        "header" => add_header(alloc, rest, bytes).ok(),
        "values" => add_first_sample(alloc, rest, bytes).ok(),
        "fails" | "lines" | "room" => Some(()),
        _ => None,
    }
}

fn add_line(line: &str, bytes: &mut Vec<u8>) -> Option<()> {
    bytes.extend_from_slice(line.as_bytes()).ok()?;
    bytes.push(b'\n').ok()
}

/// The calls of a sink that fail, each with the bytes that it takes: `3 0` is the third, which takes none.
pub fn fails_of(alloc: Global, lines: &str, head: &str) -> Option<Vec<(u64, usize)>> {
    let mut fails = Vec::new(alloc);
    for line in lines.lines() {
        let (own, rest) = parted(line);
        if own == head {
            let (call, taken) = rest.split_once(' ')?;
            fails.push((call.parse().ok()?, taken.parse().ok()?)).ok()?;
        }
    }
    Some(fails)
}

/// The room of the output, in bytes: ample, where no line says one.
pub fn room_of(lines: &str) -> Option<usize> {
    if !has(lines, ">room") {
        return Some(ROOM);
    }
    only(lines, ">room")?.parse().ok()
}

/// Whether each line begins with a letter that a row knows.
pub fn are_known(lines: &str) -> bool {
    for line in lines.lines() {
        if !line.starts_with(['#', '[', '$', 's', 'c', 'd', 't', '=', '>', '!', 'f']) {
            return false;
        }
    }
    true
}
