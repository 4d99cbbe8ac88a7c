//! A run of a block with a stimulus, and of two, written to a trace.
#![tactic(auto)]

mod clocks;
mod conduct;
mod inside;
mod kind;
mod laws;
mod one;
mod simulation;
mod twin;

pub use laws::{
    a_stopped_run_leaves_a_first_part, few_clocks_are_worked_out, later_samples_follow,
};
pub use simulation::{simulate, simulate_conduct, simulate_inside, simulate_twin};
