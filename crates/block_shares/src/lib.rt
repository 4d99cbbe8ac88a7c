//! What the machines of a block can feel of one another, by what their programs can come to: pins and IRQ flags.
#![tactic(auto)]

mod acts;
mod reach;
mod report;
mod sharing;
mod touched;
mod touching;

pub use report::put_shares;
pub use sharing::{alone, shares};
pub use touched::Touches;
pub use touching::touches;
