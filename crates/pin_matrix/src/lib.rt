//! Pins of the RP2040's PIO: which an instruction writes, whose write counts, what a machine sees, and the types of a
//! setup.
#![tactic(auto)]

mod assume;
mod last_write;
mod laws;
mod level;
mod machine;
mod mapping;
mod pads;
mod rotation;
mod setup;
mod signal;
mod span;
mod span_name;
mod sync;
mod writes;

pub use assume::{Assumption, Assumptions, Follow, Range, are_few_pairs};
pub use last_write::{merge, merge4};
pub use laws::{
    each_mapped_pin, each_pad, each_pin_from, no_write_changes_nothing, settled_pads_are_seen,
    the_last_write_counts, what_a_machine_sees, words_stay_words,
};
pub use level::is_high;
pub use machine::MachineSetup;
pub use mapping::Mapping;
pub use pads::pad_of;
pub use rotation::pins_from;
pub use setup::Setup;
pub use signal::{is_signal, side_signal, signal_bits};
pub use span::{Addresses, PinSignal, Span, SpanUnit, Spans};
pub use span_name::is_span_name;
pub use sync::Sync;
pub use writes::writes_of;
