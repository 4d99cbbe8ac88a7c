//! The timing checker's promise: a provable span holds in every run.
#![tactic(auto)]

mod checking;
mod laws;
mod pairs;

pub use checking::{check, recheck};
pub use laws::{
    a_plain_span_excuses_nothing, a_provable_span_holds_in_every_run, any_edge_is_an_event,
    only_a_disable_or_a_restart_breaks_a_span, what_a_span_asks,
};
pub use pairs::a_provable_span_holds_in_every_pair;
