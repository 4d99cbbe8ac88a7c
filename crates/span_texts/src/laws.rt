//! Laws of table files, each on a function that does nothing.
ghost use Rattle.std.specs.Prelude.{◌≡◌, ◌<◌, ◌^◌, ℕ, List, Ok};
ghost use Rattle.pin_matrix.specs.declared.assume.Follow as follow;
ghost use Rattle.pin_matrix.specs.declared.setup.Setup as setup;
ghost use Rattle.pin_matrix.specs.declared.span.Span as span;
ghost use Rattle.span_bounds.specs.declared.row.Row as row;
ghost use Rattle.span_bounds.specs.Tables.{IsTable, IsLeast};
ghost use Rattle.span_texts.specs.Reading.{table_of};
ghost use Rattle.span_texts.specs.Rows.{table_text};
ghost use Rattle.span_texts.specs.Told.{HaveAgeRanges};

use span_step::{a_step_is_monotone, ages_grow_up_to_the_cap};

/// The text of a table is read back as that table, where its ages can be written, and X and Y are followed up to numbers of 16 bits.
pub fn a_table_is_read_back()
    ensures { (d : follow.Follow) (rows : List row.Row) → d.x < 2 ^ 16 → d.y < 2 ^ 16
        → IsTable d rows → HaveAgeRanges rows → table_of d (table_text rows) ≡ Ok rows }
{}

/// A text that is read as a table is that table's text, so a table has one text; and its ages can be written.
pub fn a_table_has_one_text()
    ensures text { (d : follow.Follow) (bytes : List ℕ) (rows : List row.Row) → d.x < 2 ^ 16 → d.y < 2 ^ 16
        → table_of d bytes ≡ Ok rows → table_text rows ≡ bytes }
    ensures table { (d : follow.Follow) (bytes : List ℕ) (rows : List row.Row) → table_of d bytes ≡ Ok rows → IsTable d rows }
    ensures ages { (d : follow.Follow) (bytes : List ℕ) (rows : List row.Row) → table_of d bytes ≡ Ok rows → HaveAgeRanges rows }
{}

/// The ages of a least closed table can be written.
pub fn a_least_table_is_told()
    ensures { (u : setup.Setup) (sp : span.Span) (rows : List row.Row) → IsLeast u sp rows → HaveAgeRanges rows }
{
    a_step_is_monotone();
    ages_grow_up_to_the_cap();
}
