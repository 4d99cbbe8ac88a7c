//! Tables of rows. The first line of a table says what its rows are of: `rows of tokens`. Where its kind has a row a line,
//!
//! | A line | says |
//! |---|---|
//! | `nop => nop newline` | what is asked, and what is told of it; both as `spelling` says |
//! | `### a note` | a note |
//! | `before: .program p\|` | what the rows from here on begin with |
//!
//! and a line that ends with `\` goes on in the next one, without the blanks that this begins with. Where a row is a block of
//! lines, an empty line is between two rows; `@ square` stands for the lines of the block that begins with `[square]`, and a
//! block of notes alone, which begin with `#`, is no row. What the lines say is told by the kind.
use crate::spelling::spell;
use std::alloc::{AllocError, Global};
use std::fmt;
use std::rt::Files;

/// What is wrong with a table.
#[derive(Drop)]
pub enum Fault {
    /// The file can't be read.
    NotRead,
    /// The first line names no kind.
    NoKind,
    /// There are no rows.
    NoRows,
    /// A row isn't well written.
    NotWritten {
        line: usize,
        row: String,
    },
    /// A row says another thing than what is seen.
    Wrong {
        line: usize,
        row: String,
        told: Telling,
    },
    /// A row that has to fail holds.
    Holds {
        line: usize,
        row: String,
    },
    Memory,
}

/// What the rows of a table are of, as its first line names it.
pub trait RowKind: Copy {
    /// The kind of this name.
    fn named(name: &str) -> Option<Self>;

    /// What a row of this kind is.
    fn shape(self) -> Shape;

    /// Adds to `told` what is seen, and of a block also what it says; `row` is what a line asks, or the lines of a block. None
    /// where memory runs out, or the row is none of this kind.
    fn tell<R: Files>(self, rt: &R, alloc: Global, row: &[u8], told: &mut Telling) -> Option<()>;
}

/// What a row is.
#[derive(Clone, Copy)]
pub enum Shape {
    /// A line: what is asked, ` => `, and what is told of it.
    Line,
    /// A block of lines.
    Block,
}

/// What a list has under a name.
pub fn found<K: Copy>(kinds: &[(&str, K)], name: &str) -> Option<K> {
    for (known, kind) in kinds {
        if *known == name {
            return Some(*kind);
        }
    }
    None
}

/// What a row says, and what is seen.
#[derive(Drop)]
pub struct Telling {
    pub expected: String,
    pub seen: String,
}

impl fmt::Display for Fault {
    fn fmt<W: fmt::Write>(&self, f: &mut fmt::Formatter<W>) -> fmt::Result {
        match self {
            Fault::NotRead => write!(f, ": the file can't be read"),
            Fault::NoKind => write!(f, ":1: no kind of rows"),
            Fault::NoRows => write!(f, ": a table without rows"),
            Fault::NotWritten { line, row } => write!(f, ":{line}: not well written:\n{row}"),
            Fault::Wrong { line, row, told } => {
                write!(
                    f,
                    ":{line}:\n{row}\nexpected: {}\nseen: {}",
                    told.expected, told.seen
                )
            }
            Fault::Holds { line, row } => write!(f, ":{line}: this row has to fail:\n{row}"),
            Fault::Memory => write!(f, ": out of memory"),
        }
    }
}

impl From<AllocError> for Fault {
    fn from(_: AllocError) -> Fault {
        Fault::Memory
    }
}

/// What the rows of a table have to do.
#[derive(Clone, Copy)]
pub enum Wanted {
    Hold,
    Fail,
}

/// Runs the rows of a table, up to the first one that doesn't do what is wanted: how many there are.
pub fn run_table<K: RowKind, R: Files>(
    rt: &R,
    alloc: Global,
    text: &str,
    wanted: Wanted,
) -> Result<u32, Fault> {
    let (head, rows) = text.split_once('\n').ok_or(Fault::NoKind)?;
    let name = head.strip_prefix("rows of ").ok_or(Fault::NoKind)?;
    let kind = K::named(name).ok_or(Fault::NoKind)?;
    let count = match kind.shape() {
        Shape::Line => run_lines(rt, alloc, kind, rows, wanted)?,
        Shape::Block => run_blocks(rt, alloc, kind, rows, wanted)?,
    };
    if count == 0 {
        return Err(Fault::NoRows);
    }
    Ok(count)
}

/// Runs rows of a line each. The first one of the text is the second line of its file.
fn run_lines<K: RowKind, R: Files>(
    rt: &R,
    alloc: Global,
    kind: K,
    text: &str,
    wanted: Wanted,
) -> Result<u32, Fault> {
    let mut count = 0_u32;
    let mut before = String::new(alloc);
    let mut row = String::new(alloc);
    for (number, line) in text.lines().enumerate() {
        let part = if row.is_empty() {
            line
        } else {
            line.trim_start()
        };
        if let Some(begun) = part.strip_suffix('\\') {
            row.push_str(begun)?;
            continue;
        }
        if let Some(head) = part.strip_prefix("before:") {
            before.clear();
            before.push_str(head.trim_start())?;
            continue;
        }
        row.push_str(part)?;
        if is_row(&row) {
            let told = line_told(rt, alloc, kind, &before, &row);
            judge(alloc, number.saturating_add(2), &row, told, wanted)?;
            count = count.saturating_add(1);
        }
        row.clear();
    }
    Ok(count)
}

/// A line is a row, unless it is empty or a note.
fn is_row(line: &str) -> bool {
    !line.is_empty() && !line.starts_with("###")
}

/// What a line says, and what is seen; none where memory runs out, or the row isn't well written.
fn line_told<K: RowKind, R: Files>(
    rt: &R,
    alloc: Global,
    kind: K,
    before: &str,
    row: &str,
) -> Option<Telling> {
    let (asked, expected) = row.split_once(" => ")?;
    let mut bytes = Vec::new(alloc);
    spell(before, &mut bytes)?;
    spell(asked, &mut bytes)?;
    let mut wanted = Vec::new(alloc);
    spell(expected, &mut wanted)?;
    let mut told = Telling {
        expected: String::from_utf8(wanted).ok()?,
        seen: String::new(alloc),
    };
    kind.tell(rt, alloc, &bytes, &mut told)?;
    Some(told)
}

/// Passes a row that does what is wanted.
fn judge(
    alloc: Global,
    line: usize,
    row: &str,
    told: Option<Telling>,
    wanted: Wanted,
) -> Result<(), Fault> {
    let row = String::from_str(alloc, row)?;
    let Some(told) = told else {
        return Err(Fault::NotWritten { line, row });
    };
    match (wanted, told.expected == told.seen) {
        (Wanted::Hold, true) | (Wanted::Fail, false) => Ok(()),
        (Wanted::Hold, false) => Err(Fault::Wrong { line, row, told }),
        (Wanted::Fail, true) => Err(Fault::Holds { line, row }),
    }
}

/// Runs rows of a block each. The first line of the text is the second one of its file.
fn run_blocks<K: RowKind, R: Files>(
    rt: &R,
    alloc: Global,
    kind: K,
    text: &str,
    wanted: Wanted,
) -> Result<u32, Fault> {
    let mut count = 0_u32;
    let mut line = 2_usize;
    for block in text.split("\n\n") {
        if is_block(block) {
            let told = block_told(rt, alloc, kind, text, block);
            judge(alloc, line, block, told, wanted)?;
            count = count.saturating_add(1);
        }
        line = line.saturating_add(block.lines().count()).saturating_add(1);
    }
    Ok(count)
}

/// A block is a row, unless it is a named one or has notes alone.
fn is_block(block: &str) -> bool {
    let mut has_line = false;
    for line in block.lines() {
        has_line = has_line || !line.is_empty() && !line.starts_with('#');
    }
    has_line && name_of(block).is_none()
}

/// The name of a block that has one.
fn name_of(block: &str) -> Option<&str> {
    for line in block.lines() {
        if line.starts_with('[') {
            return line.strip_prefix('[')?.strip_suffix(']');
        }
    }
    None
}

/// What a block says, and what is seen; none where memory runs out, or the row isn't well written.
fn block_told<K: RowKind, R: Files>(
    rt: &R,
    alloc: Global,
    kind: K,
    table: &str,
    block: &str,
) -> Option<Telling> {
    let lines = lines_of(alloc, table, block)?;
    let mut told = Telling {
        expected: String::new(alloc),
        seen: String::new(alloc),
    };
    kind.tell(rt, alloc, lines.as_bytes(), &mut told)?;
    Some(told)
}

/// The lines of a row without its notes, with those of a named block in the place of `@` and its name.
fn lines_of(alloc: Global, table: &str, block: &str) -> Option<String> {
    let mut lines = String::new(alloc);
    for line in block.lines() {
        match line.strip_prefix("@ ") {
            Some(name) => add_lines(named(table, name)?, &mut lines).ok()?,
            None => add_lines(line, &mut lines).ok()?,
        }
    }
    Some(lines)
}

/// The block of this name.
fn named<'a>(table: &'a str, name: &str) -> Option<&'a str> {
    for block in table.split("\n\n") {
        if name_of(block) == Some(name) {
            return Some(block);
        }
    }
    None
}

/// Adds the lines of a text that say something: those that aren't empty, no notes and no names.
fn add_lines(text: &str, lines: &mut String) -> Result<(), AllocError> {
    for line in text.lines() {
        if !line.is_empty() && !line.starts_with(['#', '[']) {
            lines.push_str(line)?;
            lines.push('\n')?;
        }
    }
    Ok(())
}
