//! What holds of any program on one machine: from the clocks of a run to the machine's ticks.
#![tactic(auto)]

mod laws;

pub use laws::{
    a_feed_never_lets_tx_run_dry, a_machine_goes_clock_by_clock, a_machine_goes_tick_by_tick,
    a_steady_stimulus_leaves_the_ticks, accepted_words_have_32_bits, samples_tell_the_levels,
    ticks_are_multiples_of_the_divider,
};
