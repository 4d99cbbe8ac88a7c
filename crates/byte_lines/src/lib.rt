//! The lines of a text of bytes, which newlines part, and the bytes in them: blanks and digits.
#![tactic(auto)]

mod bytes;
mod lines;

pub use bytes::{digit_of, is_blank};
pub use lines::first_line;
