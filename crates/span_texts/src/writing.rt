//! The text of a table, row by row.
ghost use Rattle.std.specs.Prelude.{◌≡◌, ◌++◌};
ghost use Rattle.pio_edge.specs.Edge.{Takes, PutCounts};
ghost use Rattle.span_texts.specs.Rows as spec;

use crate::words::known_text;
use itoa::Buffer;
use pio_edge::{Sink, SinkFailed, put_all};
use span_bounds::{Ages, Context, Row, Table};

/// Puts the text of the table, in pieces of a field or less. It takes no memory.
pub fn put_table<S: Sink>(sink: &mut S, table: &Table) -> Result<(), SinkFailed>
    ensures bytes { Takes (S.taken sink.old) (spec.table_text table.now.rows) (S.taken sink.new) result }
    ensures cause { PutCounts (S.faults sink.old) (S.faults sink.new) result }
{
    sink.put(b"pio table 1\n")?;
    put_rows(sink, table)?;
    sink.put(b"end\n")
}

/// Puts the lines of all rows.
fn put_rows<S: Sink>(sink: &mut S, table: &Table) -> Result<(), SinkFailed>
    ensures bytes { Takes (S.taken sink.old) (spec.row_lines table.now.rows) (S.taken sink.new) result }
    ensures cause { PutCounts (S.faults sink.old) (S.faults sink.new) result }
{
    let mut rows = table.rows();
    while let Some(row) = rows.next() {
        put_row(sink, &row)?;
    }
    Ok(())
}

/// Puts the line of a row.
#[tactic(auto, unfolding(crate::specs::Rows::row_line))]
fn put_row<S: Sink>(sink: &mut S, row: &Row) -> Result<(), SinkFailed>
    ensures bytes { Takes (S.taken sink.old) (spec.row_line row.now) (S.taken sink.new) result }
    ensures cause { PutCounts (S.faults sink.old) (S.faults sink.new) result }
{
    match row.ages {
        Ages::Empty => put_context(sink, &row.context, "-", "", ""),
        Ages::Between(lo, hi) => put_open(sink, &row.context, lo, hi),
    }
}

/// Puts the line of a context with open ages, from the least to the greatest.
fn put_open<S: Sink>(sink: &mut S, context: &Context, lo: u32, hi: u32) -> Result<(), SinkFailed>
    ensures bytes { Takes (S.taken sink.old) (spec.context_line context.now (spec.open_text lo hi)) (S.taken sink.new) result }
    ensures cause { PutCounts (S.faults sink.old) (S.faults sink.new) result }
{
    let mut least = Buffer::new();
    let mut greatest = Buffer::new();
    put_context(sink, context, least.format(lo), " ", greatest.format(hi))
}

/// Puts the line of a context whose ages have this text, in three parts.
fn put_context<S: Sink>(
    sink: &mut S,
    context: &Context,
    lo: &str,
    gap: &str,
    hi: &str,
) -> Result<(), SinkFailed>
    ensures bytes { Takes (S.taken sink.old) (spec.context_line context.now (lo.now ++ gap.now ++ hi.now)) (S.taken sink.new) result }
    ensures cause { PutCounts (S.faults sink.old) (S.faults sink.new) result }
{
    let mut x = Buffer::new();
    let mut y = Buffer::new();
    put_fields(
        sink,
        context.address,
        known_text(context.x, &mut x),
        known_text(context.y, &mut y),
        levels_text(context.from, context.to),
        lo,
        gap,
        hi,
    )
}

/// Puts the pieces of this line.
fn put_fields<'a, S: Sink>(
    sink: &mut S,
    address: u8,
    x: &'a str,
    y: &'a str,
    levels: &'a str,
    lo: &'a str,
    gap: &'a str,
    hi: &'a str,
) -> Result<(), SinkFailed>
    ensures bytes { Takes (S.taken sink.old)
        (spec.fields_line address x.now y.now levels.now (lo.now ++ gap.now ++ hi.now)) (S.taken sink.new) result }
    ensures cause { PutCounts (S.faults sink.old) (S.faults sink.new) result }
{
    let mut number = Buffer::new();
    put_all(
        sink,
        &[
            number.format(address).as_bytes(),
            " ".as_bytes(),
            x.as_bytes(),
            " ".as_bytes(),
            y.as_bytes(),
            levels.as_bytes(),
            lo.as_bytes(),
            gap.as_bytes(),
            hi.as_bytes(),
            "\n".as_bytes(),
        ],
    )
}

/// The levels of the from-pin and the to-pin, with blanks around them.
fn levels_text(from: bool, to: bool) -> &'static str
    ensures { result.now ≡ spec.levels_text from to }
{
    match (from, to) {
        (false, false) => " 0 0 ",
        (false, true) => " 0 1 ",
        (true, false) => " 1 0 ",
        (true, true) => " 1 1 ",
    }
}
