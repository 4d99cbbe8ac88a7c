//! The statements of a pioasm source: what one line says, or its first fault.
#![tactic(auto)]

mod code;
mod condition;
mod cursor;
mod directive;
mod fault;
mod first_token;
mod form;
mod instruction;
mod laws;
mod line;
mod operand;
mod optional;
mod statement;
mod value;

pub use fault::{StatementFault, StatementKind};
pub use instruction::{Form, Instruction, IrqMode, Suffix};
pub use laws::a_line_has_one_answer;
pub use line::{line_end, read_statement};
pub use statement::{Code, Statement};
