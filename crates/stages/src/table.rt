//! From the name of a table file to its table.
ghost use Rattle.std.specs.Prelude.{◌≡◌, IfOk};
ghost use Rattle.stages.specs.Stages.{KeepsPlan, table_plan};

use crate::fetch::fetch_file;
use fault_lines::{Fault, File};
use pin_matrix::Follow;
use pio_edge::Shelf;
use span_bounds::Table;
use span_texts::{TableFault, read_table};
use std::alloc::Global;

/// The table of a table file, where X and Y are followed so far.
#[tactic(auto, unfolding(crate::specs::Judged::table_at))]
pub fn fetch_table<F: Shelf>(
    alloc: Global,
    shelf: &mut F,
    name: &str,
    follow: Follow,
) -> Result<Table, Fault>
    ensures plan { KeepsPlan F.Shelf (table_plan follow name.now)
        (λ table. table.rows) shelf.old shelf.new result }
    ensures follow { IfOk result (λ table. table.follow ≡ follow) }
{
    let bytes = fetch_file(alloc, shelf, File::Table, name)?;
    match read_table(alloc, follow, &bytes) {
        Ok(table) => Ok(table),
        Err(TableFault::Memory) => Err(Fault::Memory),
        Err(TableFault::At { line, kind }) => Err(Fault::Table(line, kind)),
    }
}
