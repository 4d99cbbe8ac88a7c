//! Tables: the first fault of a file, the first flaw of a table, and the table that is derived.
ghost use Rattle.std.specs.Prelude.{◌≡◌};
ghost use Rattle.pin_matrix.specs.Followed.{followed};

use crate::programs::{keys_of, setup_of, table_of, told_of};
use crate::setups::{is_configured, span_of};
use pin_matrix::{Follow, Setup, Span};
use pio_edge::MemSink;
use span_bounds::Table;
use span_texts::{TableFault, put_flaw, put_rechecked, put_table, read_table};
use span_verdict::{Verdict, flaw, is_proof, judge};
use std::alloc::Global;

/// Adds the line and the code of a file's first fault, or `read`. A row asks for the file; on a line before it, for how far X and Y
/// are followed, if it isn't to 31.
pub fn tell_file(alloc: Global, asked: &str, text: &mut String) -> Option<()> {
    let (follow, file) = follow_of(asked)?;
    match read_table(alloc, follow, file.as_bytes()) {
        Ok(table) => {
            drop(table);
            text.push_str("read").ok()
        }
        Err(TableFault::At { line, kind }) => write!(text, "{line} {}", kind.code()).ok(),
        Err(TableFault::Memory) => None,
    }
}

/// How far X and Y are followed, as the line `follow 40 3` says it, and what comes after this line.
fn follow_of(asked: &str) -> Option<(Follow, &str)> {
    let Some(rest) = asked.strip_prefix("follow ") else {
        return Some((Follow { x: 31, y: 31 }, asked));
    };
    let (numbers, file) = rest.split_once('\n')?;
    let (x, y) = numbers.split_once(' ')?;
    let x = x.parse().ok()?;
    let y = y.parse().ok()?;
    Some((Follow { x, y }, file))
}

/// Adds the line of a table's first flaw as a row says it and as it is put, and whether the table passes.
pub fn tell_flaw(
    alloc: Global,
    lines: &str,
    expected: &mut String,
    seen: &mut String,
) -> Option<()> {
    let told = told_of(lines)?;
    let passes = told == "span h rechecked";
    write!(expected, "{told}\npasses: {passes}").ok()?;
    let keys = keys_of(lines)?;
    let span = span_of(alloc, &keys, "h")?;
    let setup = setup_of(alloc, lines, &keys)?;
    let follow = span.assume.follow();
    let table = read_table(alloc, follow, table_of(alloc, lines)?.as_bytes()).ok()?;
    tell_flaw_of(alloc, &table, &setup, &span, seen)
}

fn tell_flaw_of(
    alloc: Global,
    table: &Table,
    setup: &Setup,
    span: &Span,
    text: &mut String,
) -> Option<()>
    requires { table.now.follow ≡ followed span.now }
{
    if !is_configured(setup, span) {
        return None;
    }
    let mut sink = MemSink::with_room(alloc, 99, &[]).ok()?;
    match flaw(table, setup, span) {
        None => put_rechecked(&mut sink, &span.name).ok()?,
        Some(flaw) => put_flaw(&mut sink, "", &span.name, &flaw).ok()?,
    }
    let passes = is_proof(table, setup, span);
    text.push_str(str::from_utf8(sink.bytes()).ok()?).ok()?;
    write!(text, "passes: {passes}").ok()
}

/// Adds the table that a row says, and the one that is derived.
pub fn tell_derived(
    alloc: Global,
    lines: &str,
    expected: &mut String,
    seen: &mut String,
) -> Option<()> {
    expected.push_str(table_of(alloc, lines)?.as_str()).ok()?;
    let keys = keys_of(lines)?;
    let span = span_of(alloc, &keys, "h")?;
    let setup = setup_of(alloc, lines, &keys)?;
    tell_table(alloc, &setup, &span, seen)
}

fn tell_table(alloc: Global, setup: &Setup, span: &Span, text: &mut String) -> Option<()> {
    if !is_configured(setup, span) {
        return None;
    }
    let mut sink = MemSink::with_room(alloc, 99, &[]).ok()?;
    match judge(alloc, setup, span).ok()? {
        Verdict::Proved { table, .. } => put_table(&mut sink, &table).ok()?,
        _ => return None,
    }
    text.push_str(str::from_utf8(sink.bytes()).ok()?).ok()
}
