//! One step of the timing checker: from what is known of a machine between two instructions, with the ages of a span's open
//! from-events, to what can come next.
#![tactic(auto)]

mod acts;
mod ages;
mod cause;
mod context;
mod course;
mod laws;
mod levels;
mod narrowing;
mod nexts;
mod outcome;
mod rules;
mod stepped;
mod stepping;
mod visit;

pub use ages::Ages;
pub use cause::{Cause, Causes};
pub use context::Context;
pub use laws::{
    a_step_is_monotone, ages_grow_up_to_the_cap, an_excused_tick_leaves_a_fresh_age_at_most,
    next_contexts_are_in_range, next_contexts_do_not_depend_on_ages, overdue_ages_are_bad,
    rows_left_out_lose_ages,
};
pub use narrowing::{Narrowing, followed_to};
pub use nexts::Nexts;
pub use stepped::{Ends, Next, Stepped};
pub use stepping::{age_cap, find_step, step};
