//! The eight interrupt flags of a block: which one an instruction means, and what a clock leaves of them
//! (RP2040 Datasheet, sections 3.4.9 and 3.7).
#![tactic(auto)]

mod flags;

pub use flags::{Flags, resolve};
