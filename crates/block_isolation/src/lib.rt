//! That a machine which shares nothing with the others of its block goes its own way.
#![tactic(auto)]

mod laws;

pub use laws::a_machine_alone_is_isolated;
