//! What a block starts from, or the second of two: a setup of a configuration (TOML) and the programs of a source.
#![tactic(auto)]

mod arrays;
mod assume;
mod config;
mod defaults;
mod edges;
mod fault;
mod keys;
mod labels;
mod laws;
mod loads;
mod machines;
mod memory;
mod owning;
mod path;
mod pins;
mod programs;
mod sections;
mod spans;
mod table;
mod value;

pub use config::{read_config, read_second};
pub use defaults::default_setup;
pub use fault::{ConfigFault, ConfigKind};
pub use laws::{
    a_configuration_is_not_clipped, a_machine_starts_in_its_program,
    a_second_configuration_is_not_clipped, a_setup_is_what_it_says, each_block_keeps_to_its_keys,
    loads_share_no_address, memory_outside_all_loads_is_0, the_default_is_not_clipped,
};
pub use owning::OwningSetup;
