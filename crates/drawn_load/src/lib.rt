//! A load from a seed: what four busy machines run, drawn by a generator of numbers, and the summary of what they did
//! in so many clocks, with its text (choice of this profile).
#![tactic(auto)]

mod draws;
mod first;
mod letters;
mod lines;
mod load;
mod machines;
mod no_side;
mod programs;
mod pulses;
mod run;
mod summary;
mod words;

pub use lines::put_summary;
pub use load::{Load, draw_load};
pub use run::summarise;
pub use summary::Summary;
