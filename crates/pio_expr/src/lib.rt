//! The expressions of a pioasm source: how they are read, and what they are worth.
#![tactic(auto)]

mod arithmetic;
mod expr;
mod fault;
mod frame;
mod laws;
mod mark;
mod parse;
mod postfix;
mod scope;
mod symbol;
mod symbols;
mod token_item;
mod turn;
mod waiting;
mod work;

pub use expr::{Expr, Item};
pub use fault::{ExprFault, ExprKind, ValueFault, ValueKind};
pub use laws::{a_name_is_a_text, an_expression_is_a_tree, own_value};
pub use parse::parse_expr;
pub use scope::Scope;
pub use symbol::Symbol;
