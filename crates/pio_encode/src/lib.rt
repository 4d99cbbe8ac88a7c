//! Instruction words of the RP2040's PIO: what they mean, both ways.
#![tactic(auto)]

mod act;
mod decoding;
mod fields;
mod instruction_text;
mod laws;
mod name;
mod numerals;
mod op;
mod operand_text;
mod relocation;
mod rule;
mod spelling;
mod word;

pub use act::{
    Act, Condition, InSource, MovDestination, MovOperation, MovSource, OutDestination,
    SetDestination, WaitSource,
};
pub use decoding::decode;
pub use laws::{moved_reading, read_back, word_range};
pub use name::Name;
pub use op::Op;
pub use relocation::relocate;
pub use rule::SideRule;
pub use spelling::spell;
pub use word::{encode, op_fits};
