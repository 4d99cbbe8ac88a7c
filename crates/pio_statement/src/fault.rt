//! Why a line is no statement.
ghost use Rattle.std.specs.Prelude.{◌≡◌};
ghost use Rattle.pio_statement.specs.declared.fault.StatementFault.TheVariants.{Memory};

use std::alloc::{AllocError, AllocFailed};

/// What is wrong with a line: its first fault, from left to right.
#[derive(Clone, Copy, Debug)]
pub enum StatementKind {
    /// An unknown directive is anywhere on the line; it goes before any other fault.
    Directive,
    /// No statement goes on with a token, or the line ends too early.
    Syntax,
    /// More than 64 parentheses and signs are open at once in an expression.
    TooDeep,
    /// A `::` is beside a sign or an operation in its parenthesis.
    Ambiguous,
}

/// Why `read_statement` gave no statement.
#[derive(Drop)]
pub enum StatementFault {
    /// Memory ran out.
    Memory,
    /// What is wrong with the line.
    Found(StatementKind),
}

impl StatementFault {
    /// No statement goes on with a token, or the line ends too early.
    pub(crate) const SYNTAX: StatementFault = StatementFault::Found(StatementKind::Syntax);
}

impl From<AllocError> for StatementFault {
    ghost from_gives = { λ _ fault. fault ≡ Memory };

    fn from(_error: AllocError) -> Self {
        StatementFault::Memory
    }
}

impl<T: Drop> From<AllocFailed<T>> for StatementFault {
    ghost from_gives = { λ _ fault. fault ≡ Memory };

    fn from(_error: AllocFailed<T>) -> Self {
        StatementFault::Memory
    }
}
