//! What it means that the timing checker refuses a span of a machine without choice: the span is really broken.
#![tactic(auto)]

mod laws;

pub use laws::{
    a_provable_span_has_no_bad_visit, a_refused_span_is_broken, an_unprovable_span_has_a_bad_visit,
};
