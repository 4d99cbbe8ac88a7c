//! The listing of assembled programs, which `asm` writes.
#![tactic(auto)]

mod heading;
mod listing;
mod symbol;

pub use listing::put_listing;
