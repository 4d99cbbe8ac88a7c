//! One block of four state machines, clock by clock, and what a clock shows of it.
#![tactic(auto)]

mod block;
mod conduct;
mod following;
mod inside;
mod laws;
mod leaps;
mod merging;
mod news;
mod place;
mod running;
mod sample;
mod slot;
mod twin;
mod twin_laws;

pub use block::Block;
pub use conduct::{Conduct, Conducted, MachineConduct};
pub use following::{
    a_block_sees_its_own_pads, a_pin_of_one_machine, each_place_goes_its_own_way,
    ticks_follow_the_divider_over_any_pads,
};
pub use inside::{Inside, MachineInside};
pub use laws::{
    a_delay_ends_when_it_is_told, a_leap_changes_nothing_inside, a_leap_shows_nothing_new,
    a_machine_waits_where_it_stalls, a_stimulus_is_a_system, clocks_are_counted,
    each_pin_gets_the_last_write, pads_are_seen_two_clocks_late, pads_change_until_seen,
    pads_inside_are_the_clocks_own, ticks_follow_the_divider, unused_fifos_ask_as_before,
    what_begins_moves_on, words_go_through_in_order,
};
pub use news::News;
pub use sample::Sample;
pub use twin::Twin;
pub use twin_laws::{
    clocks_of_two_are_counted, each_pad_is_its_owners, pads_of_two_change_until_seen,
    two_blocks_see_the_same_pads, two_stimuli_are_a_system,
    unused_fifos_ask_as_before_over_any_pads, what_begins_moves_two_on,
};
