//! The FIFOs between a state machine of the RP2040's PIO and the system: one contract, two representations, and the
//! pair of TX and RX as one clock changes it.
#![tactic(auto)]

mod fifo;
mod laws;
mod pair;
mod plain;
mod ring;
mod settle;

pub use fifo::Fifo;
pub use laws::{
    a_quiet_clock_changes_nothing, a_read_gets_a_word_or_underruns, each_word_goes_through_once,
    levels_stay_within_rooms, rx_loses_nothing, tx_loses_only_overruns,
};
pub use pair::{Pair, Settled};
pub use plain::PlainFifo;
pub use ring::RingFifo;
