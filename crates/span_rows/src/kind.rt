//! Rows of the timing checker. Most are programs on machine 0 with a span of it. The lines of a row that is a block:
//!
//! | A line | says |
//! |---|---|
//! | `e101  set pins, 1 [1]` | a word of the program from address 0 on, and its text under the row's side-set |
//! | `side_set 1 opt, stalls 0` | keys of machine 0 and of the span, with a comma and a blank between |
//! | `machine 2: side_set 1, set_count 0` | another machine, and its keys |
//! | `t 0 0 0 0 0 -` | a line of a table |
//! | `= proved, opens` | what is told |
//!
//! The keys have the names that a configuration has for them. A machine's side-set has as many pins as its rule has
//! bits, unless `side_count` says another number after it. Machine 0 wraps after the program's last word, and another
//! machine after address 31, unless `wrap_top` says another. The span is from an edge of pin 0, unless `from_done` says
//! the instructions whose end it is from.

use crate::lines::{tell_refusal_line, tell_verdict_line};
use crate::steps::tell_step;
use crate::tables::{tell_derived, tell_file, tell_flaw};
use crate::verdicts::tell_verdict;
use row_tables::{RowKind, Shape, Telling, found};
use std::alloc::Global;
use std::rt::Files;

/// What the rows of a table are of.
#[derive(Clone, Copy)]
pub enum Kind {
    /// A row is a line.
    Line(SpanLineKind),
    /// A row is the lines of a program with a span.
    Block(SpanBlockKind),
}

impl RowKind for Kind {
    fn named(name: &str) -> Option<Kind> {
        if let Some(kind) = found(&SPAN_LINE_KINDS, name) {
            return Some(Kind::Line(kind));
        }
        Some(Kind::Block(found(&SPAN_BLOCK_KINDS, name)?))
    }

    fn shape(self) -> Shape {
        match self {
            Kind::Line(_) => Shape::Line,
            Kind::Block(_) => Shape::Block,
        }
    }

    fn tell<R: Files>(self, _: &R, alloc: Global, row: &[u8], told: &mut Telling) -> Option<()> {
        let row = str::from_utf8(row).ok()?;
        match self {
            Kind::Line(kind) => tell_line(alloc, kind, row, &mut told.seen),
            Kind::Block(kind) => tell_block(alloc, kind, row, told),
        }
    }
}

/// What is asked of a line.
#[derive(Clone, Copy)]
pub enum SpanLineKind {
    /// The least closed table of a program on the whole memory, or the bad context.
    Step,
    /// The first fault of a file of a table.
    TableFile,
    /// The line of a verdict.
    VerdictLine,
    /// The line of a refusal, after a text.
    RefusalLine,
}

/// The kinds of lines with their names.
static SPAN_LINE_KINDS: [(&str, SpanLineKind); 4] = [
    ("steps", SpanLineKind::Step),
    ("files of tables", SpanLineKind::TableFile),
    ("lines of verdicts", SpanLineKind::VerdictLine),
    ("lines of refusals", SpanLineKind::RefusalLine),
];

/// What is asked of a program with a span.
#[derive(Clone, Copy)]
pub enum SpanBlockKind {
    /// The verdict; a table that proves it has to pass when it is looked through anew.
    Verdict,
    /// The first flaw of a table.
    Flaw,
    /// The table that is derived.
    Derived,
}

/// The kinds of blocks with their names.
static SPAN_BLOCK_KINDS: [(&str, SpanBlockKind); 3] = [
    ("verdicts", SpanBlockKind::Verdict),
    ("flaws of tables", SpanBlockKind::Flaw),
    ("derived tables", SpanBlockKind::Derived),
];

/// Adds what a line gives; none where memory runs out, or the line is none of its table's kind.
fn tell_line(alloc: Global, kind: SpanLineKind, asked: &str, text: &mut String) -> Option<()> {
    match kind {
        SpanLineKind::Step => tell_step(alloc, asked, text),
        SpanLineKind::TableFile => tell_file(alloc, asked, text),
        SpanLineKind::VerdictLine => tell_verdict_line(alloc, asked, text),
        SpanLineKind::RefusalLine => tell_refusal_line(alloc, asked, text),
    }
}

/// Adds what a block says and what is seen; none where memory runs out, or the block is none of its table's kind.
fn tell_block(alloc: Global, kind: SpanBlockKind, lines: &str, told: &mut Telling) -> Option<()> {
    match kind {
        SpanBlockKind::Verdict => tell_verdict(alloc, lines, &mut told.expected, &mut told.seen),
        SpanBlockKind::Flaw => tell_flaw(alloc, lines, &mut told.expected, &mut told.seen),
        SpanBlockKind::Derived => tell_derived(alloc, lines, &mut told.expected, &mut told.seen),
    }
}
