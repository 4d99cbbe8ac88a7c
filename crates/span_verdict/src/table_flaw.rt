//! A flaw of a table.
use span_bounds::{Cause, Context};

/// What is wrong with a table.
#[derive(Clone, Copy)]
pub enum Flaw {
    /// There is no row where tables start.
    Start,
    /// A next of the row of this context doesn't lie within a row.
    Open(Context),
    /// The row of this context is bad, and this is the first cause of it.
    Bad(Context, Cause),
}
