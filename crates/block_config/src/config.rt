//! Where a run starts by a configuration: one block, or the second of two on the same pins.
ghost use Rattle.std.specs.Prelude.{◌≡◌, ◌≤◌, map};
ghost use Rattle.pio_assemble.specs.Program.{assembled_of};
ghost use Rattle.toml.specs.View.{items_view, table_view};
ghost use Rattle.answers.specs.Answers.{Answers, Gives, made};
ghost use Rattle.block_config.specs.Answer.{told};
ghost use Rattle.block_config.specs.Arrays.{count_items};
ghost use Rattle.setup_keys.specs.Block.{keys_of_block, keys_of_span};
ghost use Rattle.block_config.specs.Config as spec;
ghost use Rattle.block_config.specs.Config.{config_setup_of, said_of, second_setup_of};
ghost use Rattle.block_config.specs.Default.{quiet_block};
ghost use Rattle.block_config.specs.Loads.{loaded_of, memory_of};
ghost use Rattle.block_config.specs.Machines.{machines_from};
ghost use Rattle.block_config.specs.Memory.{no_words};
ghost use Rattle.block_config.specs.Owning.{keys_of_owning};
ghost use Rattle.block_config.specs.Pins.{pin_view};
ghost use Rattle.block_config.specs.SectionView.{sections_view};

use crate::fault::{ConfigFault, ConfigKind};
use crate::loads::{memory_of, read_loads};
use crate::machines::place_machines;
use crate::owning::OwningSetup;
use crate::path::fault_at;
use crate::pins::{BlockNumber, PinLists, read_pins};
use crate::programs::LoadedProgram;
use crate::sections::{Sections, sections_at};
use crate::spans::{few_spans, read_spans};
use pin_matrix::{Setup, Spans};
use pio_assemble::Program;
use std::alloc::Global;
use toml::{Table, Value};

/// The setup of a configuration (TOML) over the programs of a source, or the configuration's first fault: that it is no
/// TOML is on `file`, an unknown section on `top`, and else a fault is on its key, as `machine[0].fraction`.
/// Sections are read in the order load, machine, pins, span, and keys in the order of the tables' description.
#[tactic(auto, using(crate::proofs::Says::first_answered, crate::proofs::Says::refuses_first))]
pub fn read_config(alloc: Global, bytes: &[u8], programs: &[Program]) -> Result<Setup, ConfigFault>
    ensures value { Answers told result (config_setup_of bytes.now (map assembled_of programs.now)) }
{
    let block = read_block(alloc, BlockNumber::First, bytes, programs)?;
    Ok(block.setup)
}

/// The setup of the configuration of a second block on the same pins, and the pins that it owns, or the configuration's
/// first fault. It is read as `read_config` reads one, but for the keys of `pins`: after `level`, `out` and `bypass` comes
/// `own`, the pins that this block owns, and there is no `high`, since the outside is the first block's.
#[tactic(auto, using(crate::proofs::Says::second_answered, crate::proofs::Says::refuses_second))]
pub fn read_second(
    alloc: Global,
    bytes: &[u8],
    programs: &[Program],
) -> Result<OwningSetup, ConfigFault>
    ensures value { Answers told result (second_setup_of bytes.now (map assembled_of programs.now)) }
{
    let block = read_block(alloc, BlockNumber::Second, bytes, programs)?;
    Ok(block)
}

/// The setup of a block, by what it says.
fn read_block(
    alloc: Global,
    block: BlockNumber,
    bytes: &[u8],
    programs: &[Program],
) -> Result<OwningSetup, ConfigFault>
    ensures { Gives told keys_of_owning result
        (said_of block bytes.now (map assembled_of programs.now)) }
{
    let table = document_of(alloc, bytes)?;
    block_of_table(alloc, block, &table, programs)
}

/// The table that the bytes are.
fn document_of(alloc: Global, bytes: &[u8]) -> Result<Table, ConfigFault>
    ensures { Gives told table_view result (spec.parsed (spec.document_of bytes.now)) }
{
    match toml::table_from_slice(alloc, bytes) {
        Ok(table) => Ok(table),
        Err(error) if error.is_memory() => Err(ConfigFault::Memory),
        Err(_) => Err(fault_at(alloc, "file", ConfigKind::NotToml)),
    }
}

/// The setup of a configuration's table.
#[tactic(auto, using(crate::proofs::FewSpans::few_in_sections))]
fn block_of_table(
    alloc: Global,
    block: BlockNumber,
    table: &Table,
    programs: &[Program],
) -> Result<OwningSetup, ConfigFault>
    ensures { Gives told keys_of_owning result
        (spec.block_of_table block (map assembled_of programs.now) (table_view table.now)) }
{
    let sections = sections_at(alloc, table)?;
    block_of_sections(alloc, block, &sections, programs)
}

/// The setup of the sections.
fn block_of_sections(
    alloc: Global,
    block: BlockNumber,
    sections: &Sections,
    programs: &[Program],
) -> Result<OwningSetup, ConfigFault>
    requires { count_items (items_view sections.now.spans.now) ≤ 64 }
    ensures { Gives told keys_of_owning result
        (spec.block_of_sections block (map assembled_of programs.now) (sections_view sections.now)) }
{
    let loads = read_loads(alloc, programs, sections.loads)?;
    block_over(alloc, block, sections, &loads)
}

/// The setup over the loads.
#[tactic(auto, using(crate::proofs::FewSpans::few_read))]
fn block_over(
    alloc: Global,
    block: BlockNumber,
    sections: &Sections,
    loads: &[LoadedProgram],
) -> Result<OwningSetup, ConfigFault>
    requires { count_items (items_view sections.now.spans.now) ≤ 64 }
    ensures { Gives told keys_of_owning result
        (spec.block_over block (sections_view sections.now) (map loaded_of loads.now)) }
{
    let setup = bare_block(alloc, loads, sections.machines)?;
    let pins = read_pins(alloc, block, sections.pins)?;
    let spans = read_spans(alloc, &setup.machines, loads, sections.spans)?;
    Ok(block_with(&setup, &pins, few_spans(alloc, spans)))
}

/// The memory and the machines.
fn bare_block(
    alloc: Global,
    loads: &[LoadedProgram],
    values: &[Value],
) -> Result<Setup, ConfigFault>
    ensures { Gives told keys_of_block result
        (made (quiet_block (memory_of no_words (map loaded_of loads.now)))
        (machines_from 0 spec.no_machines (map loaded_of loads.now) (items_view values.now))) }
{
    let mut setup = Setup::of(memory_of(loads), Spans::empty(alloc));
    place_machines(alloc, loads, values, &mut setup)?;
    Ok(setup)
}

/// A block with these pins and spans.
fn block_with(setup: &Setup, pins: &PinLists, spans: Spans) -> OwningSetup
    ensures { keys_of_owning result
        ≡ spec.owning_with setup.now.memory (keys_of_block setup.now).machines (pin_view pins.now)
        (map keys_of_span spans) }
{
    let setup = Setup {
        memory: setup.memory,
        machines: setup.machines,
        high: pins.high,
        level: pins.level,
        out: pins.out,
        bypass: pins.bypass,
        spans,
    };
    OwningSetup {
        setup,
        own: pins.own,
    }
}
