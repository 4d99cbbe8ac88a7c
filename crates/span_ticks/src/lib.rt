//! Each tick of a state machine is matched by a tick of a course in the timing checker's table.
#![tactic(auto)]

mod laws;

pub use laws::{
    a_start_is_under_way, a_tick_follows_the_table, levels_are_last_writes, open_ages_have_room,
};
