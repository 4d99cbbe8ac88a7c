//! What a token does after an operand.

use crate::waiting::Waiting;

/// What a token does after an operand.
#[derive(Clone, Copy)]
pub enum Turn {
    /// It is an operation; its right operand is wanted.
    Operation(Waiting),
    /// It closes a parenthesis, whose value is an operand.
    Closed,
    /// It isn't part of the expression.
    End,
}
