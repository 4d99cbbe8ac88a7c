//! Tables of rows that were worked by hand: how they are read, and what a program does that runs them.
#![tactic(auto)]

mod program;
mod side_set;
mod spelling;
mod table;

pub use program::run_all;
pub use side_set::side_rule_of;
pub use spelling::spell;
pub use table::{RowKind, Shape, Telling, found};
