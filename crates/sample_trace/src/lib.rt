//! Who is told of the samples of a block, or of two: what every trace promises, and the traces that keep no text.
#![tactic(auto)]

mod edges;
mod list;
mod trace;

pub use edges::EdgeTrace;
pub use list::ListTrace;
pub use trace::{Trace, TraceFailed};
