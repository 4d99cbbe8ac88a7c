//! The timing checker's table: the least that is closed under the steps of a span's machine.
#![tactic(auto)]

mod answer;
mod count;
mod derived;
mod entry;
mod grid;
mod laws;
mod marks;
mod number;
mod queue;
mod reach;
mod row;
mod row_step;
mod rows;
mod settle;
mod stack;
mod start;
mod table;
mod take;
mod tally;

pub use answer::derive;
pub use derived::Derived;
pub use laws::{
    a_least_closed_table_exists, each_context_has_its_number, each_entry_is_that_of_a_row,
};
pub use number::number_of;
pub use row::Row;
pub use rows::Rows;
pub use span_step::{Ages, Cause, Context, Next, Nexts, step};
pub use start::start_context;
pub use table::Table;
