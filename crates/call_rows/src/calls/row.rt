//! A call, and what it comes to.
use super::call::{CallOutcome, Failing, RowCall, seen};
use super::lines::{are_known, fails_of, only, room_of, text_of};
use std::alloc::Global;

/// The lines of a row, its call, and what they say that it leaves.
#[derive(Drop)]
pub struct Row<'a> {
    pub lines: &'a str,
    pub call: RowCall,
    pub status: u8,
    pub out: Vec<u8>,
    pub err: Vec<u8>,
}

impl<'a> Row<'a> {
    /// The row of these lines; none where memory runs out, or they aren't well written.
    pub fn of(alloc: Global, lines: &'a str) -> Option<Row<'a>> {
        if !are_known(lines) {
            return None;
        }
        let call = RowCall::of(alloc, lines)?;
        let status: u8 = only(lines, "=")?.parse().ok()?;
        let out = text_of(alloc, lines, ">")?;
        let err = text_of(alloc, lines, "!")?;
        Some(Row {
            lines,
            call,
            status,
            out,
            err,
        })
    }

    /// Adds what the row says that its call leaves, and what it leaves where just what the row says fails.
    pub fn tell(&self, alloc: Global, expected: &mut String, seen: &mut String) -> Option<()> {
        let found = self.found(alloc)?;
        let out = found.out.bytes();
        let is_end = self.out.starts_with(b"..");
        let out = if is_end {
            end_of(out, self.out.len().saturating_sub(2))
        } else {
            out
        };
        let wanted = if is_end {
            end_of(&self.out, self.out.len().saturating_sub(2))
        } else {
            &self.out
        };
        add_end(self.status, wanted, &self.err, expected)?;
        add_end(found.status, out, found.err.bytes(), seen)
    }

    /// Whether the call ends as the row says.
    pub fn ends(&self, alloc: Global) -> Option<bool> {
        let mut expected = String::new(alloc);
        let mut seen = String::new(alloc);
        self.tell(alloc, &mut expected, &mut seen)?;
        Some(expected == seen)
    }

    /// What the call leaves, where just what the row says fails.
    fn found(&self, alloc: Global) -> Option<CallOutcome> {
        let out = fails_of(alloc, self.lines, ">fails")?;
        let err = fails_of(alloc, self.lines, "!fails")?;
        let failing = Failing {
            fetches: &[],
            out: &out,
            err: &err,
            room: room_of(self.lines)?,
        };
        seen(alloc, &self.call, failing)
    }
}

/// The last bytes of a text, or all of a shorter one.
fn end_of(bytes: &[u8], count: usize) -> &[u8] {
    let begun = bytes.len().saturating_sub(count);
    bytes.get(begun..).unwrap_or(bytes)
}

/// Adds a status and both outputs.
fn add_end(status: u8, out: &[u8], err: &[u8], text: &mut String) -> Option<()> {
    let out = str::from_utf8(out).ok()?;
    let err = str::from_utf8(err).ok()?;
    write!(text, "= {status}\n{out}{err}").ok()
}
