//! The clock divider of a machine: which clocks are its ticks, one by one or many at once
//! (RP2040 Datasheet, section 3.5.5).
#![tactic(auto)]

mod divider;
mod laws;

pub use divider::Divider;
pub use laws::{tick_test, ticks_add};
