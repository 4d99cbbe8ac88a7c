//! What a span assumes: the tables of its key `assume` in order.
ghost use Rattle.std.specs.Prelude.{◌≡◌, ◌≤◌, ◌<◌, Some, max, option_map, IfOk, IsTrue};
ghost use Rattle.answers.specs.Answers.{Gives};
ghost use Rattle.toml.specs.Data.{as_array};
ghost use Rattle.toml.specs.View.{items_view, table_view, view};
ghost use Rattle.pin_matrix.specs.Assumptions.{most_in};
ghost use Rattle.block_config.specs.Answer.{told};
ghost use Rattle.block_config.specs.Arrays.{count_items};
ghost use Rattle.block_config.specs.Assume as spec;
ghost use Rattle.block_config.specs.Loads.{loaded_of};
ghost use Rattle.block_config.specs.Tables.{and_then, seen};
ghost use Rattle.block_config.specs.Values.{map_ok, text_of};

use crate::arrays::{Element, are_all, count_of};
use crate::fault::{ConfigFault, ConfigKind};
use crate::keys;
use crate::labels::label_in;
use crate::path::{Section, fault_of_key, fault_of_section};
use crate::programs::LoadedProgram;
use crate::table::{Lack, are_known, value_at};
use crate::value::{number_in, text_of};
use pin_matrix::{Assumption, Assumptions, Range, are_few_pairs};
use std::alloc::Global;
use toml::{Table, Value};

/// How far X and Y are asked for by the assumptions so far.
#[derive(Clone, Copy)]
struct Reach {
    x: u16,
    y: u16,
}

/// The assumptions of the span at a place, none where its table has no such key.
pub fn assume_at(
    alloc: Global,
    span: usize,
    table: &Table,
    load: Option<LoadedProgram>,
) -> Result<Assumptions, ConfigFault>
    ensures { Gives told (λ a. a) result
        (spec.assume_at span (option_map loaded_of load.entry) (table_view table.now)) }
{
    match value_at(table, keys::ASSUME) {
        None => Ok(Assumptions::empty(alloc)),
        Some(value) => match tables_of(value) {
            Ok(values) => assumptions_of(alloc, span, values, load),
            Err(kind) => Err(fault_of_key(alloc, Section::Span(span), keys::ASSUME, kind)),
        },
    }
}

/// The tables that a value is, at most 16.
fn tables_of<'v>(value: &'v Value) -> Result<&'v [Value], ConfigKind>
    ensures value { map_ok (λ vs. items_view vs.now) result ≡ spec.tables_in (as_array (view value.entry.now)) }
    ensures few { IfOk result (λ vs. count_items (items_view vs.now) ≤ 16) }
{
    match value.as_array() {
        Some(values) => tables_in(values),
        None => Err(ConfigKind::WrongType),
    }
}

/// The tables of an array.
fn tables_in<'v>(values: &'v [Value]) -> Result<&'v [Value], ConfigKind>
    ensures value { map_ok (λ vs. items_view vs.now) result ≡ spec.tables_in (Some (items_view values.entry.now)) }
    ensures few { IfOk result (λ vs. count_items (items_view vs.now) ≤ 16) }
{
    if !are_all(values, Element::Table) {
        return Err(ConfigKind::WrongType);
    }
    if count_of(values) <= 16 {
        Ok(values)
    } else {
        Err(ConfigKind::Many)
    }
}

/// The assumptions of all tables.
fn assumptions_of(
    alloc: Global,
    span: usize,
    values: &[Value],
    load: Option<LoadedProgram>,
) -> Result<Assumptions, ConfigFault>
    requires { count_items (items_view values.now) ≤ 16 }
    ensures { Gives told (λ a. a) result
        (spec.assumptions_of span (option_map loaded_of load.entry) (items_view values.now)) }
{
    let mut items = Vec::new(alloc);
    let mut reach = Reach { x: 0, y: 0 };
    for place in 0..values.len() {
        let item = assumption_of(alloc, span, place, reach, load, &values[place])?;
        reach = further(reach, &item);
        items.push(item)?;
    }
    match Assumptions::new(items) {
        Some(assumptions) => Ok(assumptions),
        None => Ok(Assumptions::empty(alloc)),
    }
}

/// How far X and Y are asked for with one assumption more.
fn further(reach: Reach, item: &Assumption) -> Reach
    ensures x { result.x ≡ max reach.x (most_in item.now.x) }
    ensures y { result.y ≡ max reach.y (most_in item.now.y) }
{
    Reach {
        x: reach.x.max(end_of(item.x)),
        y: reach.y.max(end_of(item.y)),
    }
}

/// The greatest number of a range, 0 where there is none.
fn end_of(range: Option<Range>) -> u16
    ensures { result ≡ most_in range }
{
    match range {
        Some(range) => range.hi,
        None => 0,
    }
}

/// The assumption of one table.
fn assumption_of(
    alloc: Global,
    span: usize,
    place: usize,
    reach: Reach,
    load: Option<LoadedProgram>,
    value: &Value,
) -> Result<Assumption, ConfigFault>
    ensures value { Gives told (λ a. a) result
        (spec.assumption_at span (option_map loaded_of load.entry) place reach.x reach.y (view value.now)) }
    ensures fits { IfOk result (λ a. IsTrue (spec.fits reach.x reach.y a)) }
{
    let Some(table) = value.as_table() else {
        return Err(fault_of_key(
            alloc,
            Section::Span(span),
            keys::ASSUME,
            ConfigKind::WrongType,
        ));
    };
    let section = Section::Assume(span, place);
    if !are_known(table, &keys::ASSUME_KEYS) {
        return Err(fault_of_section(alloc, section, ConfigKind::UnknownKey));
    }
    match assumption_in(table, reach, load) {
        Ok(assumption) => Ok(assumption),
        Err(lack) => Err(fault_of_key(alloc, section, lack.key, lack.kind)),
    }
}

/// The assumption of a table whose keys are known.
fn assumption_in(
    table: &Table,
    reach: Reach,
    load: Option<LoadedProgram>,
) -> Result<Assumption, Lack>
    ensures value { seen (λ a. a) result
        ≡ spec.assumption_in reach.x reach.y (option_map loaded_of load.entry) (table_view table.now) }
    ensures fits { IfOk result (λ a. IsTrue (spec.fits reach.x reach.y a)) }
{
    let address = label_at(table, load)?;
    let x = range_at(table, keys::X, reach.y)?;
    let y = range_at(table, keys::Y, reach.x.max(end_of(x)))?;
    if x.is_none() && y.is_none() {
        return Err(Lack {
            key: keys::X,
            kind: ConfigKind::Missing,
        });
    }
    Ok(Assumption { address, x, y })
}

/// The address of the label that an assumption is of.
fn label_at(table: &Table, load: Option<LoadedProgram>) -> Result<u8, Lack>
    ensures value { seen (λ n. n) result ≡ spec.after_at (option_map loaded_of load.entry) (table_view table.now) }
    ensures in_memory { IfOk result (λ n. n < 32) }
{
    match label_of(value_at(table, keys::AFTER), load) {
        Ok(address) => Ok(address),
        Err(kind) => Err(Lack {
            key: keys::AFTER,
            kind,
        }),
    }
}

/// The address of a label that is required.
fn label_of(value: Option<&Value>, load: Option<LoadedProgram>) -> Result<u8, ConfigKind>
    ensures value { result ≡ and_then (text_of (option_map (λ v. view v.now) value.entry))
        (spec.label_or_none (option_map loaded_of load.entry)) }
    ensures in_memory { IfOk result (λ n. n < 32) }
{
    match text_of(value)? {
        Some(name) => label_in(load, name.as_bytes()),
        None => Err(ConfigKind::Missing),
    }
}

/// The range of a key, where the other register is asked for up to this.
fn range_at(table: &Table, key: &'static str, other: u16) -> Result<Option<Range>, Lack>
    ensures value { seen (λ r. r) result ≡ spec.range_at key.now other (table_view table.now) }
    ensures fits { IfOk result (λ r. IsTrue (spec.pairs_fit other r)) }
{
    match value_at(table, key) {
        None => Ok(None),
        Some(value) => match range_of(value, other) {
            Ok(range) => Ok(Some(range)),
            Err(kind) => Err(Lack { key, kind }),
        },
    }
}

/// The range that a value is: its least number and its greatest.
fn range_of(value: &Value, other: u16) -> Result<Range, ConfigKind>
    ensures value { result ≡ spec.range_of other (as_array (view value.now)) }
    ensures fits { IfOk result (λ r. IsTrue (spec.is_range other r)) }
{
    match value.as_array() {
        Some(values) if are_all(values, Element::Number) => range_in(values, other),
        _ => Err(ConfigKind::WrongType),
    }
}

/// The range of these numbers.
fn range_in(values: &[Value], other: u16) -> Result<Range, ConfigKind>
    ensures value { result ≡ spec.range_in other (items_view values.now) }
    ensures fits { IfOk result (λ r. IsTrue (spec.is_range other r)) }
{
    match values {
        [first, last] => {
            let lo = number_in(0, 65_535, first)? as u16;
            let hi = number_in(0, 65_535, last)? as u16;
            range_by(other, lo, hi)
        }
        _ => Err(ConfigKind::Range),
    }
}

/// The range from a least number to a greatest.
fn range_by(other: u16, lo: u16, hi: u16) -> Result<Range, ConfigKind>
    ensures value { result ≡ spec.range_by other lo hi }
    ensures fits { IfOk result (λ r. IsTrue (spec.is_range other r)) }
{
    if lo <= hi && are_few_pairs(hi, other) {
        Ok(Range { lo, hi })
    } else {
        Err(ConfigKind::Range)
    }
}
