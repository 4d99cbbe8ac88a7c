//! A list of labels of a machine's program, as addresses.
ghost use Rattle.std.specs.Prelude.{◌≡◌, ◌≤◌, ◌<◌, Some, length, option_map, IfOk, IsTrue};
ghost use Rattle.pin_matrix.specs.Spans.{are_addresses};
ghost use Rattle.toml.specs.Data.{as_str};
ghost use Rattle.toml.specs.View.{items_view, table_view, view};
ghost use Rattle.block_config.specs.Arrays.{count_items};
ghost use Rattle.block_config.specs.Loads.{loaded_of};
ghost use Rattle.block_config.specs.Assume as assume;
ghost use Rattle.block_config.specs.Spans as spec;
ghost use Rattle.block_config.specs.Tables.{seen};
ghost use Rattle.block_config.specs.Values.{map_ok};

use crate::arrays::{Element, are_all, count_of};
use crate::fault::ConfigKind;
use crate::programs::{LoadedProgram, label_of};
use crate::table::{Lack, value_at};
use arrayvec::ArrayVec;
use toml::{Table, Value};

/// The addresses of a key's labels, of the program that is loaded so: at least and at most so many where the table has it.
pub fn labels_at(
    table: &Table,
    key: &'static str,
    least: usize,
    most: usize,
    load: Option<LoadedProgram>,
) -> Result<ArrayVec<u8, 16>, Lack>
    ensures value { seen (λ v. v.items) result
        ≡ spec.labels_at key.now least most (option_map loaded_of load.entry) (table_view table.now) }
    ensures in_memory { IfOk result (λ v. IsTrue (are_addresses v.items)) }
    ensures few { IfOk result (λ v. length v.items ≤ most) }
{
    match labels_of(value_at(table, key), least, most, load) {
        Ok(addresses) => Ok(addresses),
        Err(kind) => Err(Lack { key, kind }),
    }
}

/// The addresses of a value, none where it is absent.
fn labels_of(
    value: Option<&Value>,
    least: usize,
    most: usize,
    load: Option<LoadedProgram>,
) -> Result<ArrayVec<u8, 16>, ConfigKind>
    ensures value { map_ok (λ v. v.items) result
        ≡ spec.labels_of least most (option_map loaded_of load.entry)
        (option_map (λ v. view v.now) value.entry) }
    ensures in_memory { IfOk result (λ v. IsTrue (are_addresses v.items)) }
    ensures few { IfOk result (λ v. length v.items ≤ most) }
{
    match value {
        Some(value) => match value.as_array() {
            Some(values) => labels_in(values, least, most, load),
            None => Err(ConfigKind::WrongType),
        },
        None => Ok(ArrayVec::new()),
    }
}

/// The addresses of an array.
fn labels_in(
    values: &[Value],
    least: usize,
    most: usize,
    load: Option<LoadedProgram>,
) -> Result<ArrayVec<u8, 16>, ConfigKind>
    ensures value { map_ok (λ v. v.items) result
        ≡ spec.labels_in least most (option_map loaded_of load.entry) (Some (items_view values.now)) }
    ensures in_memory { IfOk result (λ v. IsTrue (are_addresses v.items)) }
    ensures few { IfOk result (λ v. length v.items ≤ most) }
{
    if !are_all(values, Element::Text) {
        return Err(ConfigKind::WrongType);
    }
    let count = count_of(values);
    if count > 16 {
        return Err(ConfigKind::Many);
    }
    if least <= count && count <= most {
        label_addresses(values, load)
    } else {
        Err(ConfigKind::Range)
    }
}

/// The addresses of all elements.
fn label_addresses(
    values: &[Value],
    load: Option<LoadedProgram>,
) -> Result<ArrayVec<u8, 16>, ConfigKind>
    requires { count_items (items_view values.now) ≤ 16 }
    ensures value { map_ok (λ v. v.items) result
        ≡ spec.label_addresses (option_map loaded_of load.entry) (items_view values.now) }
    ensures in_memory { IfOk result (λ v. IsTrue (are_addresses v.items)) }
    ensures count { IfOk result (λ v. length v.items ≡ count_items (items_view values.now)) }
{
    let mut addresses = ArrayVec::new();
    for place in 0..values.len() {
        let address = label_of_element(load, &values[place])?;
        addresses.push(address);
    }
    Ok(addresses)
}

/// The address of an element.
fn label_of_element(load: Option<LoadedProgram>, value: &Value) -> Result<u8, ConfigKind>
    ensures value { result
        ≡ spec.label_of_element (option_map loaded_of load.entry) (as_str (view value.now)) }
    ensures in_memory { IfOk result (λ a. a < 32) }
{
    match value.as_str() {
        Some(name) => label_in(load, name.as_bytes()),
        None => Err(ConfigKind::WrongType),
    }
}

/// The address of a label.
pub fn label_in(load: Option<LoadedProgram>, name: &[u8]) -> Result<u8, ConfigKind>
    ensures value { result ≡ assume.label_in (option_map loaded_of load.entry) name.now }
    ensures in_memory { IfOk result (λ a. a < 32) }
{
    let Some(load) = load else {
        return Err(ConfigKind::NoLabel);
    };
    match label_of(load.program, name) {
        Some(place) => Ok(load.address + place),
        None => Err(ConfigKind::NoLabel),
    }
}
