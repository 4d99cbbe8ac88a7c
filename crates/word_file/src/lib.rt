//! Files of instruction words: reading them, and the lines that a disassembly shows.
#![tactic(auto)]

mod fault;
mod line;
mod listing;
mod words;

pub use fault::{WordFault, WordKind};
pub use listing::{make_rule, put_words};
pub use words::read_words;
