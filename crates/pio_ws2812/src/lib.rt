//! A second program proved from its words to its pin: the WS2812 transmitter of the RP2040 Datasheet, section 3.6.2,
//! which sends the upper 24 bits of each word that it is fed.
#![tactic(auto)]

mod laws;
mod transmitter;

pub use laws::{lights_get_a_feed_in_one_frame, lights_get_what_they_are_fed};
pub use transmitter::ws2812_setup;
