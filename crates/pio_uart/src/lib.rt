//! A program for a state machine, proved from its words to the bytes on its pin: the UART transmitter of the
//! RP2040 Datasheet, section 3.6.3, which sends what it is fed.
#![tactic(auto)]

mod feeding;
mod laws;
mod transmitter;

pub use feeding::feed;
pub use laws::{
    a_tick_moves_the_phase, a_transmitter_sends_in_time, a_transmitter_sends_what_it_is_fed,
};
pub use transmitter::uart_setup;
