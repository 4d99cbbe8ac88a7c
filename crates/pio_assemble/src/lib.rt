//! The programs of a pioasm source (Pico SDK manual, section 3.3), or its first fault.
#![tactic(auto)]

mod act;
mod assembly;
mod before;
mod checks;
mod draft;
mod fault;
mod instruction;
mod laws;
mod line;
mod lines;
mod names;
mod operands;
mod program;
mod quantity;
mod rule;
mod source;
mod symbols;
mod symbols_of;

pub use fault::{LineFault, SourceFault, SourceKind};
pub use laws::{a_spelled_word_is_read_back, nothing_is_clipped};
pub use program::Program;
pub use quantity::Quantity;
pub use source::assemble;
pub use symbols::{ProgramSymbol, ProgramSymbols};
