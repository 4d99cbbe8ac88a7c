//! What a name is: a define or a label.

use crate::Expr;

/// What a name is.
#[derive(Drop)]
pub enum Symbol {
    /// A `.define` with its expression.
    Define(Expr),
    /// A label, with the number of words before it, 0 to 32.
    Label(u8),
}
