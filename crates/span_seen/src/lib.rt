//! What a proved span promises of its measured distances, and up to where: laws on functions that do nothing.
#![tactic(auto)]

mod laws;

pub use laws::{a_proved_span_is_seen_within_its_bounds, the_end_of_what_is_assumed_is_told};
