//! Shifts of 32-bit registers by 0 to 32 bits, and the reversal of their bits (RP2040 Datasheet, section 3.4).
#![tactic(auto)]

mod laws;
mod reverse;
mod shift;

pub use laws::{bits_in, bits_out};
pub use reverse::{reverse_bits, reverse_bits_signed};
pub use shift::{low_bits, shift_in, shift_out};
