//! The table of pins, which may be absent: lists of pins as numbers in which bit i is for pin i.
ghost use Rattle.std.specs.Prelude.{◌≡◌, Some, map, option_map};
ghost use Rattle.toml.specs.View.{items_view, table_view, view};
ghost use Rattle.answers.specs.Answers.{Gives};
ghost use Rattle.block_config.specs.Answer.{told};
ghost use Rattle.block_config.specs.Pins as spec;
ghost use Rattle.block_config.specs.Pins.{pin_names, pin_view};
ghost use Rattle.block_config.specs.Tables.{section_at, seen};

use crate::arrays::{Element, are_all};
use crate::fault::{ConfigFault, ConfigKind};
use crate::keys;
use crate::path::{Section, fault_of_key, fault_of_section};
use crate::table::{Lack, are_known, value_at};
use crate::value::number_in;
use std::alloc::Global;
use toml::{Table, Value};

/// Which block a configuration is of: its table of pins has other keys.
#[derive(Clone, Copy)]
pub enum BlockNumber {
    /// The only block, or the first of two on the same pins.
    First,
    /// The second of two: it names the pins that it owns, and leaves the outside to the first.
    Second,
}

/// All keys of the pins of a block.
fn keys_of_pins(block: BlockNumber) -> [&'static str; 4]
    ensures { map (λ n. n.now) result ≡ pin_names block }
{
    match block {
        BlockNumber::First => keys::FIRST_PINS,
        BlockNumber::Second => keys::SECOND_PINS,
    }
}

/// The pins that a configuration sets at the start, and those that its block owns.
#[derive(Clone, Copy)]
pub struct PinLists {
    pub high: u32,
    pub level: u32,
    pub out: u32,
    pub bypass: u32,
    pub own: u32,
}

/// The pins of a configuration.
pub fn read_pins(
    alloc: Global,
    block: BlockNumber,
    table: Option<&Table>,
) -> Result<PinLists, ConfigFault>
    ensures { Gives told pin_view result
        (spec.pins_in block (option_map (λ t. table_view t.now) table.entry)) }
{
    match table {
        Some(table) => pins_of(alloc, Section::Pins, block, table),
        None => Ok(PinLists {
            high: 0,
            level: 0,
            out: 0,
            bypass: 0,
            own: 0,
        }),
    }
}

/// The pins of a table.
fn pins_of(
    alloc: Global,
    section: Section,
    block: BlockNumber,
    table: &Table,
) -> Result<PinLists, ConfigFault>
    ensures { Gives told pin_view result
        (section_at section (pin_names block) (table_view table.now)
        (spec.pin_table_at (table_view table.now))) }
{
    if !are_known(table, &keys_of_pins(block)) {
        return Err(fault_of_section(alloc, section, ConfigKind::UnknownKey));
    }
    match pin_lists_at(table) {
        Ok(pins) => Ok(pins),
        Err(lack) => Err(fault_of_key(alloc, section, lack.key, lack.kind)),
    }
}

/// The lists of a table whose keys are known.
fn pin_lists_at(table: &Table) -> Result<PinLists, Lack>
    ensures { seen pin_view result ≡ spec.pin_table_at (table_view table.now) }
{
    let high = mask_at(table, keys::HIGH)?;
    let level = mask_at(table, keys::LEVEL)?;
    let out = mask_at(table, keys::OUT)?;
    let bypass = mask_at(table, keys::BYPASS)?;
    let own = mask_at(table, keys::OWN)?;
    Ok(PinLists {
        high,
        level,
        out,
        bypass,
        own,
    })
}

/// The pins of a key.
fn mask_at(table: &Table, key: &'static str) -> Result<u32, Lack>
    ensures { seen (λ n. n) result ≡ spec.mask_at (table_view table.now) key.entry.now }
{
    match mask_of(value_at(table, key)) {
        Ok(mask) => Ok(mask),
        Err(kind) => Err(Lack { key, kind }),
    }
}

/// The pins of a value, none where it is absent.
fn mask_of(value: Option<&Value>) -> Result<u32, ConfigKind>
    ensures { result ≡ spec.mask_of (option_map (λ v. view v.now) value.entry) }
{
    match value {
        Some(value) => match value.as_array() {
            Some(values) => mask_in(values),
            None => Err(ConfigKind::WrongType),
        },
        None => Ok(0),
    }
}

/// The pins of a list.
fn mask_in(values: &[Value]) -> Result<u32, ConfigKind>
    ensures { result ≡ spec.mask_in (Some (items_view values.now)) }
{
    if are_all(values, Element::Number) {
        mask_from(values)
    } else {
        Err(ConfigKind::WrongType)
    }
}

/// The pins of a list of numbers.
fn mask_from(values: &[Value]) -> Result<u32, ConfigKind>
    ensures { result ≡ spec.mask_from 0 (items_view values.now) }
{
    let mut mask: u32 = 0;
    for place in 0..values.len() {
        let pin = number_in(0, 31, &values[place])?;
        mask |= 1 << pin;
    }
    Ok(mask)
}
