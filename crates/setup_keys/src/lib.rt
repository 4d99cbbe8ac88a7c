//! What a setup says, in numbers: that each block in numbers has one setup.
#![tactic(auto)]

mod laws;

pub use laws::{
    a_block_in_range_is_not_clipped, a_clipped_block_has_a_setup, a_clipped_rule_has_a_rule,
    setups_that_say_the_same_are_one, what_a_setup_says_is_in_range,
};
