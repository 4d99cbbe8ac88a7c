//! All tables of loads: which program lies at which address.
ghost use Rattle.std.specs.Prelude.{◌≡◌, ◌≤◌, map, option_copied, option_map};
ghost use Rattle.std.specs.List.{find};
ghost use Rattle.std.specs.Str.{bytes_eq};
ghost use Rattle.pio_assemble.specs.Program.{assembled_of};
ghost use Rattle.toml.specs.View.{items_view, table_view, view};
ghost use Rattle.answers.specs.Answers.{Gives};
ghost use Rattle.block_config.specs.Answer.{told};
ghost use Rattle.block_config.specs.Loads as spec;
ghost use Rattle.block_config.specs.Loads.{loaded_of};
ghost use Rattle.block_config.specs.Memory.{no_words};
ghost use Rattle.block_config.specs.Tables.{and_then, section_at, seen};
ghost use Rattle.block_config.specs.Values.{map_ok, text_of};

use crate::fault::{ConfigFault, ConfigKind};
use crate::keys;
use crate::keys::NumberKey;
use crate::memory::{fits_at, loaded};
use crate::path::{Section, fault_at, fault_of_key, fault_of_section};
use crate::programs::{LoadedProgram, is_named};
use crate::table::{Lack, are_known, number_at, value_at};
use crate::value::text_of;
use pio_assemble::Program;
use std::alloc::Global;
use toml::{Table, Value};

/// The loads of all tables.
pub fn read_loads<'a>(
    alloc: Global,
    programs: &'a [Program],
    values: &[Value],
) -> Result<Vec<LoadedProgram<'a>>, ConfigFault>
    ensures { Gives told (λ v. map loaded_of v.items) result
        (spec.all_loads (map assembled_of programs.entry.now) (items_view values.now)) }
{
    let mut loads = Vec::new(alloc);
    for place in 0..values.len() {
        let load = load_in(alloc, place, programs, &loads, &values[place])?;
        loads.push(load)?;
    }
    Ok(loads)
}

/// The load of one table.
fn load_in<'a>(
    alloc: Global,
    place: usize,
    programs: &'a [Program],
    loads: &[LoadedProgram<'a>],
    value: &Value,
) -> Result<LoadedProgram<'a>, ConfigFault>
    ensures { Gives told loaded_of result
        (spec.load_in (map assembled_of programs.entry.now) place (map loaded_of loads.now)
        (view value.now)) }
{
    match value.as_table() {
        Some(table) => load_at(alloc, Section::Load(place), programs, loads, table),
        None => Err(fault_at(alloc, keys::LOAD, ConfigKind::WrongType)),
    }
}

/// The load of a table.
fn load_at<'a>(
    alloc: Global,
    section: Section,
    programs: &'a [Program],
    loads: &[LoadedProgram<'a>],
    table: &Table,
) -> Result<LoadedProgram<'a>, ConfigFault>
    ensures { Gives told loaded_of result
        (section_at section spec.load_names (table_view table.now)
        (spec.load_of_table (map assembled_of programs.entry.now) (map loaded_of loads.now) (table_view table.now))) }
{
    if !are_known(table, &keys::LOAD_KEYS) {
        return Err(fault_of_section(alloc, section, ConfigKind::UnknownKey));
    }
    match load_of(programs, loads, table) {
        Ok(load) => Ok(load),
        Err(lack) => Err(fault_of_key(alloc, section, lack.key, lack.kind)),
    }
}

/// The load of a table whose keys are known, after the loads of the tables before it.
fn load_of<'a>(
    programs: &'a [Program],
    loads: &[LoadedProgram<'a>],
    table: &Table,
) -> Result<LoadedProgram<'a>, Lack>
    ensures { seen loaded_of result
        ≡ spec.load_of_table (map assembled_of programs.entry.now) (map loaded_of loads.now)
        (table_view table.now) }
{
    let program = program_at(programs, loads, table)?;
    load_by(program, loads, table)
}

/// The program of a table.
fn program_at<'a>(
    programs: &'a [Program],
    loads: &[LoadedProgram<'a>],
    table: &Table,
) -> Result<&'a Program, Lack>
    ensures { seen (λ p. assembled_of p.now) result
        ≡ spec.program_at (map assembled_of programs.entry.now) (map loaded_of loads.now)
        (table_view table.now) }
{
    let program = named_program(programs, loads, value_at(table, keys::PROGRAM));
    program.map_err(|kind| Lack {
        key: keys::PROGRAM,
        kind,
    })
}

/// The program that a value names, which no load has.
fn named_program<'a>(
    programs: &'a [Program],
    loads: &[LoadedProgram<'a>],
    value: Option<&Value>,
) -> Result<&'a Program, ConfigKind>
    ensures { map_ok (λ p. assembled_of p.now) result
        ≡ and_then (text_of (option_map (λ v. view v.now) value.entry))
        (spec.named_program (map assembled_of programs.entry.now) (map loaded_of loads.now)) }
{
    let Some(name) = text_of(value)? else {
        return Err(ConfigKind::Missing);
    };
    if LoadedProgram::find(loads, name.as_bytes()).is_some() {
        return Err(ConfigKind::Range);
    }
    match find_program(programs, name.as_bytes()) {
        Some(program) => Ok(program),
        None => Err(ConfigKind::NoProgram),
    }
}

/// The program of this name.
fn find_program<'a>(programs: &'a [Program], name: &[u8]) -> Option<&'a Program>
    ensures { option_map (λ p. assembled_of p.now) result
        ≡ spec.find_program name.now (map assembled_of programs.entry.now) }
{
    first_named(programs, name)
}

/// The first program of this name.
fn first_named<'a>(programs: &'a [Program], name: &[u8]) -> Option<&'a Program>
    ensures { option_copied result ≡ find (λ p. bytes_eq p.name name.now) programs.entry.now }
{
    programs.iter().find(|program| is_named(program, name))
}

/// The load of a program by its table.
fn load_by<'a>(
    program: &'a Program,
    loads: &[LoadedProgram<'a>],
    table: &Table,
) -> Result<LoadedProgram<'a>, Lack>
    ensures { seen loaded_of result
        ≡ spec.load_at (assembled_of program.entry.now) (map loaded_of loads.now)
        (table_view table.now) }
{
    let origin = program.origin.unwrap_or(0);
    let key = NumberKey {
        name: keys::AT,
        low: 0,
        high: 31,
        default: Some(u32::from(origin)),
    };
    let address = number_at(table, &key)? as u8;
    match placed_at(program, loads, address) {
        Ok(load) => Ok(load),
        Err(kind) => Err(Lack {
            key: keys::AT,
            kind,
        }),
    }
}

/// A program at an address, after other loads.
fn placed_at<'a>(
    program: &'a Program,
    loads: &[LoadedProgram<'a>],
    address: u8,
) -> Result<LoadedProgram<'a>, ConfigKind>
    requires { address ≤ 31 }
    ensures { map_ok loaded_of result
        ≡ spec.placed_at (assembled_of program.entry.now) (map loaded_of loads.now) address }
{
    if !keeps_origin(program.origin, address) || !fits_at(address, &program.words) {
        return Err(ConfigKind::DoesNotFit);
    }
    let load = LoadedProgram { program, address };
    match first_shared(loads, &load) {
        Some(shared) => Err(ConfigKind::Overlap(shared)),
        None => Ok(load),
    }
}

/// Whether an address is the one that an origin asks for.
fn keeps_origin(origin: Option<u8>, address: u8) -> bool
    ensures { result ≡ spec.keeps_origin origin address }
{
    match origin {
        Some(origin) => origin == address,
        None => true,
    }
}

/// The least address that a load covers and an earlier one too.
fn first_shared(loads: &[LoadedProgram], load: &LoadedProgram) -> Option<u8>
    ensures { result ≡ spec.first_shared (map loaded_of loads.now) (loaded_of load.now) }
{
    for address in 0..32 {
        if load.covers(address) && is_covered(loads, address) {
            return Some(address);
        }
    }
    None
}

/// Whether one of the loads covers an address.
fn is_covered(loads: &[LoadedProgram], address: u8) -> bool
    ensures { result ≡ spec.is_covered (map loaded_of loads.now) address }
{
    LoadedProgram::at(loads, address).is_some()
}

/// The instruction memory with programs loaded into it.
pub fn memory_of(loads: &[LoadedProgram]) -> [u16; 32]
    ensures { result ≡ spec.memory_of no_words (map loaded_of loads.now) }
{
    let mut memory = [0; 32];
    for load in loads {
        memory = loaded(&memory, load.address, &load.program.words);
    }
    memory
}
