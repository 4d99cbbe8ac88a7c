//! What is written and read of spans: the line of a verdict, a table as a text that can be rechecked, its flaw's line.
#![tactic(auto)]

// the line of a verdict
mod refusal;
mod verdict_line;

// the text of a table
mod length;
mod writing;

// its reading
mod fault;
mod fields;
mod form;
mod number;
mod said;
mod table;

// the line of its flaw, and what the lines share
mod flaw_line;
mod laws;
mod words;

pub use fault::{TableFault, TableKind};
pub use flaw_line::{put_flaw, put_rechecked};
pub use laws::{a_least_table_is_told, a_table_has_one_text, a_table_is_read_back};
pub use length::text_len;
pub use refusal::{Finding, Refusal, found_by};
pub use table::read_table;
pub use verdict_line::{put_refusal, put_verdict};
pub use writing::put_table;
