//! The edge to the outside: files that are fetched whole, and places that take bytes, with counted faults.
#![tactic(auto)]

mod answer;
mod err_sink;
mod failures;
mod fetches;
mod file_shelf;
mod held;
mod memory_shelf;
mod memory_sink;
mod out_sink;
mod puts;
mod shelf;
mod sink;
mod sure_sink;

pub use err_sink::ErrSink;
pub use file_shelf::FileShelf;
pub use memory_shelf::MemShelf;
pub use memory_sink::MemSink;
pub use out_sink::OutSink;
pub use puts::put_all;
pub use shelf::{Fetch, Shelf};
pub use sink::{Sink, SinkFailed};
pub use sure_sink::SureSink;
