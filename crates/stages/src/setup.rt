//! From the programs of a source to what the block starts from.
ghost use Rattle.std.specs.Prelude.{IfOk, Some, map, option_map};
ghost use Rattle.pio_assemble.specs.Program.{assembled_of};
ghost use Rattle.stages.specs.Stages.{KeepsPlan, setup_plan};
ghost use Rattle.stages.specs.Configured.{AreConfigured};

use crate::fetch::fetch_file;
use block_config::{
    ConfigFault, a_configuration_is_not_clipped, default_setup, read_config,
    the_default_is_not_clipped,
};
use fault_lines::{Fault, File};
use pin_matrix::Setup;
use pio_assemble::Program;
use pio_edge::Shelf;
use std::alloc::Global;

/// The setup of a configuration, and the default one where no configuration is named. The machine of each span is
/// configured.
pub fn read_setup<F: Shelf>(
    alloc: Global,
    shelf: &mut F,
    name: Option<&str>,
    programs: &[Program],
) -> Result<Setup, Fault>
    ensures plan { KeepsPlan F.Shelf
        (setup_plan (option_map (λ t. t.now) name.entry) (map assembled_of programs.now))
        (λ setup. setup) shelf.old shelf.new result }
    ensures configured { IfOk result AreConfigured }
{
    the_default_is_not_clipped();
    match name {
        Some(name) => read_named(alloc, shelf, name, programs),
        None => match default_setup(alloc, programs) {
            Ok(setup) => Ok(setup),
            Err(ConfigFault::Memory) => Err(Fault::Memory),
            Err(ConfigFault::At { key, kind }) => Err(Fault::Config(key, kind)),
        },
    }
}

/// The setup of the configuration of this name.
#[tactic(auto, unfolding(crate::specs::Judged::config_at))]
fn read_named<F: Shelf>(
    alloc: Global,
    shelf: &mut F,
    name: &str,
    programs: &[Program],
) -> Result<Setup, Fault>
    ensures plan { KeepsPlan F.Shelf (setup_plan (Some name.now) (map assembled_of programs.now))
        (λ setup. setup) shelf.old shelf.new result }
    ensures configured { IfOk result AreConfigured }
{
    a_configuration_is_not_clipped();
    let bytes = fetch_file(alloc, shelf, File::Config, name)?;
    match read_config(alloc, &bytes, programs) {
        Ok(setup) => Ok(setup),
        Err(ConfigFault::Memory) => Err(Fault::Memory),
        Err(ConfigFault::At { key, kind }) => Err(Fault::Config(key, kind)),
    }
}
