//! The system's side of a block of state machines: the stimulus that says what it does, and its ports clock by clock.
#![tactic(auto)]

mod act;
mod blocks;
mod draft;
mod due;
mod fault;
mod fields;
mod form;
mod laws;
mod line;
mod number;
mod ports;
mod schedule;
mod stimulus;
mod transfer;
mod verb;

pub use due::{Due, Requests};
pub use fault::{StimFault, StimKind};
pub use laws::{
    a_clock_without_acts_does_nothing, a_feed_keeps_its_words_in_order, ports_follow_the_history,
    quiet_clocks_may_be_left_out, the_last_pin_line_counts,
};
pub use line::{Line, LineAct, Words};
pub use ports::{HostPorts, earlier};
pub use schedule::Schedule;
pub use stimulus::{read_pair_stimulus, read_stimulus};
