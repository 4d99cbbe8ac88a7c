//! The stages of a command before it writes: each fetches a file from the shelf and reads it, or requires that
//! the spans of a setup are provable, or ends with its cause.
#![tactic(auto)]

mod fetch;
mod named;
mod pair;
mod pair_spans;
mod preparation;
mod second;
mod setup;
mod source;
mod spans;
mod stimulus;
mod table;
mod words;

pub use fetch::{fetch_file, limit_of};
pub use named::span_named;
pub use pair::{TwoBlocks, prepare_pair};
pub use pair_spans::require_both;
pub use preparation::{prepare, prepare_setup};
pub use second::read_second_setup;
pub use setup::read_setup;
pub use source::read_source;
pub use spans::{Verdicts, judge_spans, require_spans, unless_refused};
pub use stimulus::{read_schedule, read_schedules};
pub use table::fetch_table;
pub use words::fetch_words;
