//! The table of a file, line by line.
ghost use Rattle.std.specs.Prelude.{◌≡◌, [], IfOk, Some};
ghost use Rattle.answers.specs.Answers.{Gives, Refuses};
ghost use Rattle.byte_lines.specs.Lines.{lines_of};
ghost use Rattle.span_texts.specs.Faults.{told};
ghost use Rattle.span_texts.specs.Reading as spec;

use crate::fault::{TableFault, TableKind};
use crate::form::read_row;
use byte_lines::first_line;
use pin_matrix::Follow;
use span_bounds::{Table, number_of};
use std::alloc::Global;

/// The table of a file, where X and Y are followed so far, or its first fault: the least faulty line, counted from 1, and what is
/// wrong with it. How long the file may be is up to the caller. It takes the memory of the table, and that before it reads the first
/// row.
#[tactic(auto, unfolding(crate::specs::Reading::table_of))]
pub fn read_table(alloc: Global, follow: Follow, bytes: &[u8]) -> Result<Table, TableFault>
    ensures rows { Gives told (λ table. table.rows) result (spec.table_of follow bytes.now) }
    ensures follow { IfOk result (λ table. table.follow ≡ follow) }
{
    let (line, after) = first_line(bytes);
    match after {
        None => Err(left_open(1, line)),
        Some(text) => read_after(alloc, follow, line, text),
    }
}

/// The table of a file with this first line and these others.
fn read_after(alloc: Global, follow: Follow, line: &[u8], text: &[u8]) -> Result<Table, TableFault>
    ensures rows { Gives told (λ table. table.rows) result (spec.rows_after follow line.now (lines_of text.now)) }
    ensures follow { IfOk result (λ table. table.follow ≡ follow) }
{
    if line == b"pio table 1".as_slice() {
        read_rows(alloc, follow, text)
    } else {
        Err(wrong_at(1, TableKind::BadLine))
    }
}

/// The table of the lines after the first, or their first fault.
fn read_rows(alloc: Global, follow: Follow, text: &[u8]) -> Result<Table, TableFault>
    ensures rows { Gives told (λ table. table.rows) result (spec.rows_from follow 2 0 (lines_of text.now)) }
    ensures follow { IfOk result (λ table. table.follow ≡ follow) }
{
    let mut table = Table::new(alloc, follow)?;
    add_rows(&mut table, text)?;
    Ok(table)
}

/// Adds the rows of the lines after the first to the table without rows, up to the first fault.
fn add_rows(table: &mut Table, text: &[u8]) -> Result<(), TableFault>
    requires { table.old.rows ≡ [] }
    ensures rows { Gives told (λ _. table.new.rows) result (spec.rows_from table.old.follow 2 0 (lines_of text.now)) }
    ensures follow { table.new.follow ≡ table.old.follow }
{
    let follow = table.follow();
    let mut rest = Some(text);
    let mut number = 2;
    let mut least = 0;
    while let Some(text) = rest {
        let (line, after) = first_line(text);
        let Some(next) = after else {
            return Err(left_open(number, line));
        };
        if line == b"end".as_slice() {
            ended(number + 1, next)?;
            return Ok(());
        }
        match read_row(follow, line, least) {
            Err(kind) => return Err(wrong_at(number, kind)),
            Ok(row) => {
                least = number_of(follow, &row.context) + 1;
                table.push(row);
            }
        }
        rest = after;
        number += 1;
    }
    Err(wrong_at(number, TableKind::NoEnd))
}

/// That nothing comes after `end`.
fn ended(number: usize, text: &[u8]) -> Result<(), TableFault>
    ensures { Gives told (λ _. []) result (spec.ended number (lines_of text.now)) }
{
    match text {
        [] => Ok(()),
        [_, ..] => Err(wrong_at(number, TableKind::BadLine)),
    }
}

/// The fault of a file that ends before `end`, by what comes after its last newline.
fn left_open(number: usize, last: &[u8]) -> TableFault
    ensures { Refuses (told result) (spec.left_open number last.now) }
{
    match last {
        [] => wrong_at(number, TableKind::NoEnd),
        [_, ..] => wrong_at(number, TableKind::BadLine),
    }
}

/// A fault of a line.
fn wrong_at(line: usize, kind: TableKind) -> TableFault
    ensures { told result ≡ Some (record { line = line; kind = kind }) }
{
    TableFault::At { line, kind }
}
