//! What deriving a table answers.
use crate::table::Table;
use span_step::{Cause, Context};

/// The answer to whether a span's table is good.
#[derive(Drop)]
pub enum Derived {
    /// The least closed table, which is good.
    Closed(Table),
    /// No closed table is good. This is the first bad context of the least one in context order, and in it the first cause; in
    /// every closed table it has a row that is bad for this cause.
    Bad { context: Context, cause: Cause },
}
