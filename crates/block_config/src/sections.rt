//! The sections of a configuration: its arrays of tables and its table of pins.
ghost use Rattle.std.specs.Prelude.{◌≡◌, Some, option_map};
ghost use Rattle.toml.specs.View.{items_view, table_view, view};
ghost use Rattle.answers.specs.Answers.{Gives};
ghost use Rattle.block_config.specs.Answer.{told};
ghost use Rattle.block_config.specs.Config as spec;
ghost use Rattle.block_config.specs.SectionView.{sections_view};
ghost use Rattle.block_config.specs.Tables.{seen};
ghost use Rattle.block_config.specs.Values.{map_ok};

use crate::arrays::{Element, are_all, count_of};
use crate::fault::{ConfigFault, ConfigKind};
use crate::keys;
use crate::path::fault_at;
use crate::table::{Lack, are_known, value_at};
use std::alloc::Global;
use toml::{Table, Value};

/// The sections of a configuration; an array that is absent is empty.
#[derive(Clone, Copy)]
pub struct Sections<'t> {
    pub loads: &'t [Value],
    pub machines: &'t [Value],
    pub pins: Option<&'t Table>,
    pub spans: &'t [Value],
}

/// The sections of a configuration's table.
pub fn sections_at<'t>(alloc: Global, table: &'t Table) -> Result<Sections<'t>, ConfigFault>
    ensures { Gives told sections_view result (spec.sections_at (table_view table.entry.now)) }
{
    if !are_known(table, &keys::SECTIONS) {
        return Err(fault_at(alloc, "top", ConfigKind::UnknownKey));
    }
    match sections_of(table) {
        Ok(sections) => Ok(sections),
        Err(lack) => Err(fault_at(alloc, lack.key, lack.kind)),
    }
}

/// The sections of a table whose keys are known.
fn sections_of<'t>(table: &'t Table) -> Result<Sections<'t>, Lack>
    ensures { seen sections_view result ≡ spec.sections_of (table_view table.entry.now) }
{
    let loads = tables_at(table, keys::LOAD)?;
    let machines = tables_at(table, keys::MACHINE)?;
    let pins = pins_at(table)?;
    let spans = spans_at(table)?;
    Ok(Sections {
        loads,
        machines,
        pins,
        spans,
    })
}

/// The tables of spans, at most 64.
fn spans_at<'t>(table: &'t Table) -> Result<&'t [Value], Lack>
    ensures { seen (λ vs. items_view vs.now) result ≡ spec.spans_at (table_view table.entry.now) }
{
    let spans = tables_at(table, keys::SPAN)?;
    if count_of(spans) > 64 {
        return Err(Lack {
            key: keys::SPAN,
            kind: ConfigKind::Many,
        });
    }
    Ok(spans)
}

/// The table of pins.
fn pins_at<'t>(table: &'t Table) -> Result<Option<&'t Table>, Lack>
    ensures { seen (option_map (λ t. table_view t.now)) result
        ≡ spec.pins_at (table_view table.entry.now) }
{
    match value_at(table, keys::PINS) {
        Some(value) => match value.as_table() {
            Some(pins) => Ok(Some(pins)),
            None => Err(Lack {
                key: keys::PINS,
                kind: ConfigKind::WrongType,
            }),
        },
        None => Ok(None),
    }
}

/// The array of tables of a key.
fn tables_at<'t>(table: &'t Table, key: &'static str) -> Result<&'t [Value], Lack>
    ensures { seen (λ vs. items_view vs.now) result
        ≡ spec.tables_at (table_view table.entry.now) key.entry.now }
{
    match tables_of(value_at(table, key)) {
        Ok(tables) => Ok(tables),
        Err(kind) => Err(Lack { key, kind }),
    }
}

/// The tables of a value, none where it is absent.
fn tables_of<'t>(value: Option<&'t Value>) -> Result<&'t [Value], ConfigKind>
    ensures { map_ok (λ vs. items_view vs.now) result
        ≡ spec.tables_of (option_map (λ v. view v.now) value.entry) }
{
    match value {
        Some(value) => match value.as_array() {
            Some(values) => tables_in(values),
            None => Err(ConfigKind::WrongType),
        },
        None => Ok(&[]),
    }
}

/// The tables of an array.
fn tables_in<'t>(values: &'t [Value]) -> Result<&'t [Value], ConfigKind>
    ensures { map_ok (λ vs. items_view vs.now) result
        ≡ spec.tables_in (Some (items_view values.entry.now)) }
{
    if are_all(values, Element::Table) {
        Ok(values)
    } else {
        Err(ConfigKind::WrongType)
    }
}
