//! From the programs of a source to what the second of two blocks starts from.
ghost use Rattle.std.specs.Prelude.{IfOk, map};
ghost use Rattle.pio_assemble.specs.Program.{assembled_of};
ghost use Rattle.stages.specs.Stages.{KeepsPlan, second_plan};
ghost use Rattle.stages.specs.Configured.{AreConfigured};

use crate::fetch::fetch_file;
use block_config::{ConfigFault, OwningSetup, a_second_configuration_is_not_clipped, read_second};
use fault_lines::{Fault, File};
use pio_assemble::Program;
use pio_edge::Shelf;
use std::alloc::Global;

/// The setup of the second block's configuration, and the pins that this block owns. The machine of each span is
/// configured.
#[tactic(auto, unfolding(crate::specs::Judged::second_at))]
pub fn read_second_setup<F: Shelf>(
    alloc: Global,
    shelf: &mut F,
    name: &str,
    programs: &[Program],
) -> Result<OwningSetup, Fault>
    ensures plan { KeepsPlan F.Shelf (second_plan name.now (map assembled_of programs.now))
        (λ second. second) shelf.old shelf.new result }
    ensures configured { IfOk result (λ second. AreConfigured second.setup) }
{
    a_second_configuration_is_not_clipped();
    let bytes = fetch_file(alloc, shelf, File::Second, name)?;
    match read_second(alloc, &bytes, programs) {
        Ok(second) => Ok(second),
        Err(ConfigFault::Memory) => Err(Fault::Memory),
        Err(ConfigFault::At { key, kind }) => Err(Fault::Second(key, kind)),
    }
}
