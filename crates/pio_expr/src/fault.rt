//! Why there is no expression, and why an expression has no value.
ghost use Rattle.std.specs.Prelude.{◌≡◌};
ghost use Rattle.pio_expr.specs.declared.fault.ExprFault.TheVariants as expr_fault;
ghost use Rattle.pio_expr.specs.declared.fault.ValueFault.TheVariants as value_fault;

use pio_encode::Name;
use std::alloc::{AllocError, AllocFailed};

/// What is wrong at a token of an expression.
#[derive(Clone, Copy, Debug)]
pub enum ExprKind {
    /// No expression goes on with this token, or ends before it.
    Syntax,
    /// This token is the 65th parenthesis or sign that is open at once.
    TooDeep,
    /// This `::` is beside a sign or an operation in its parenthesis.
    Ambiguous,
}

/// What is wrong with an expression first, at this token, counted from 0: their number, where they end too early.
#[derive(Clone, Copy)]
pub struct ExprRefusal {
    pub place: usize,
    pub kind: ExprKind,
}

/// Why `parse_expr` gave no expression.
#[derive(Drop)]
pub enum ExprFault {
    /// Memory ran out.
    Memory,
    /// The first fault of the expression, at this token, counted from 0: their number, where they end too early.
    At { place: usize, kind: ExprKind },
}

impl From<AllocError> for ExprFault {
    ghost from_gives = { λ _ fault. fault ≡ expr_fault.Memory };

    fn from(_error: AllocError) -> Self {
        ExprFault::Memory
    }
}

impl<T: Drop> From<AllocFailed<T>> for ExprFault {
    ghost from_gives = { λ _ fault. fault ≡ expr_fault.Memory };

    fn from(_error: AllocFailed<T>) -> Self {
        ExprFault::Memory
    }
}

/// Why an expression has no value under its symbols.
#[derive(Drop)]
pub enum ValueKind {
    /// A name of no symbol.
    Unknown(Name),
    /// A name that is looked up while its own value is being worked out.
    Cycle(Name),
    /// A division by zero.
    DivZero,
    /// A result that is no signed number of 32 bits.
    Overflow,
}

/// Why `Scope` gave no value.
#[derive(Drop)]
pub enum ValueFault {
    /// Memory ran out.
    Memory,
    /// The first fault of the expression.
    Found(ValueKind),
}

impl From<AllocError> for ValueFault {
    ghost from_gives = { λ _ fault. fault ≡ value_fault.Memory };

    fn from(_error: AllocError) -> Self {
        ValueFault::Memory
    }
}

impl<T: Drop> From<AllocFailed<T>> for ValueFault {
    ghost from_gives = { λ _ fault. fault ≡ value_fault.Memory };

    fn from(_error: AllocFailed<T>) -> Self {
        ValueFault::Memory
    }
}
