//! A line of a source with what it says.

use pio_statement::{Statement, StatementKind};

/// A line of a source.
#[derive(Drop)]
pub struct SourceLine {
    /// The line of its first token, counted from 1.
    pub number: usize,
    /// Its statement, or why it is none.
    pub reading: Result<Statement, StatementKind>,
}
