//! A trace that measures spans: how many clocks pass from each from-edge to the first to-edge after it.
#![tactic(auto)]

mod assumed;
mod edges;
mod events;
mod laws;
mod levels;
mod line;
mod meter;
mod pins;
mod seen;
mod selective;
mod spoken;
mod spoken_span;
mod trace;

pub use laws::{a_distance_is_that_of_a_pair, a_plain_span_measures_every_pair};
pub use line::put_seen;
pub use pins::ShownPins;
pub use seen::SeenDistances;
pub use selective::is_any_selective;
pub use spoken::SpokenMeter;
pub use trace::SpanMeter;
