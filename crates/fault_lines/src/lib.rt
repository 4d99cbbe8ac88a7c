//! Everything that keeps a command from its text, and how it is reported: a status, and a line on the error output.
#![tactic(auto)]

mod ended;
mod fault;
mod told;

pub use ended::{Ended, end_with};
pub use fault::{Fault, File};
