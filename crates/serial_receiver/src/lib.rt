//! A serial receiver as a trace: the bytes that one pin sends, a start bit, eight data bits and a stop bit each (8n1).
#![tactic(auto)]

mod begun;
mod bits;
mod frame;
mod laws;
mod line;
mod receiver;

pub use frame::Frame;
pub use laws::stopping_early_leaves_a_first_part;
pub use receiver::Receiver;
