//! A table of a configuration, read by the list of its keys in order.
ghost use Rattle.std.specs.Prelude.{◌≡◌, ◌≤◌, length, map, option_map, string_bytes, IfOk};
ghost use Rattle.std.specs.List.{list_all, list_any};
ghost use Rattle.std.specs.Map.{keys_of};
ghost use Rattle.std.specs.Str.{bytes_eq};
ghost use Rattle.toml.specs.Data.{get_member};
ghost use Rattle.toml.specs.View.{table_view, view};
ghost use Rattle.block_config.specs.Keys.{described, flag_described};
ghost use Rattle.block_config.specs.Tables as spec;
ghost use Rattle.block_config.specs.Tables.{AreWithin, each_at, seen};

use crate::fault::ConfigKind;
use crate::keys::{FlagKey, NumberKey};
use crate::value::{flag_of, number_of};
use arrayvec::ArrayVec;
use toml::{Table, Value};

/// What is wrong with a key of a table.
#[derive(Clone, Copy)]
pub struct Lack {
    pub key: &'static str,
    pub kind: ConfigKind,
}

/// The value at a key, if the table has the key.
pub fn value_at<'a>(table: &'a Table, key: &str) -> Option<&'a Value>
    ensures { option_map (λ v. view v.now) result
        ≡ get_member key.now (table_view table.entry.now) }
{
    table.get(key)
}

/// Whether a table has a key.
pub fn has_key(table: &Table, key: &str) -> bool
    ensures { result ≡ spec.has_key key.now (table_view table.now) }
{
    value_at(table, key).is_some()
}

/// The number of a key.
pub fn number_at(table: &Table, key: &NumberKey) -> Result<u32, Lack>
    ensures value { seen (λ n. n) result
        ≡ spec.number_at (table_view table.now) (described key.now) }
    ensures low { IfOk result (λ n. key.now.low ≤ n) }
    ensures high { IfOk result (λ n. n ≤ key.now.high) }
{
    match number_of(key, value_at(table, key.name)) {
        Ok(number) => Ok(number),
        Err(kind) => Err(Lack {
            key: key.name,
            kind,
        }),
    }
}

/// The flag of a key.
pub fn flag_at(table: &Table, key: &FlagKey) -> Result<bool, Lack>
    ensures { seen (λ b. b) result ≡ spec.flag_at (table_view table.now) (flag_described key.now) }
{
    match flag_of(key, value_at(table, key.name)) {
        Ok(flag) => Ok(flag),
        Err(kind) => Err(Lack {
            key: key.name,
            kind,
        }),
    }
}

/// The numbers of keys in order, or the first fault.
pub fn numbers_at(table: &Table, keys: &[NumberKey]) -> Result<ArrayVec<u32, 8>, Lack>
    requires { length keys.now ≤ 8 }
    ensures value { seen (λ v. v.items) result
        ≡ each_at (spec.number_at (table_view table.now)) (map described keys.now) }
    ensures count { IfOk result (λ v. length v.items ≡ length keys.now) }
    ensures within { IfOk result (λ v. AreWithin 0 (map described keys.now) v.items) }
{
    let mut numbers = ArrayVec::new();
    for key in keys {
        let number = number_at(table, key)?;
        numbers.push(number);
    }
    Ok(numbers)
}

/// The flags of keys in order, or the first fault.
pub fn flags_at(table: &Table, keys: &[FlagKey]) -> Result<ArrayVec<bool, 8>, Lack>
    requires { length keys.now ≤ 8 }
    ensures value { seen (λ v. v.items) result
        ≡ each_at (spec.flag_at (table_view table.now)) (map flag_described keys.now) }
    ensures count { IfOk result (λ v. length v.items ≡ length keys.now) }
{
    let mut flags = ArrayVec::new();
    for key in keys {
        let flag = flag_at(table, key)?;
        flags.push(flag);
    }
    Ok(flags)
}

/// Whether a table has no key but these.
pub fn are_known(table: &Table, names: &[&str]) -> bool
    ensures { result ≡ spec.are_known (map (λ n. n.now) names.now) (table_view table.now) }
{
    all_among(table, names)
}

/// Whether each key is one of these.
fn all_among(table: &Table, names: &[&str]) -> bool
    ensures { result
        ≡ list_all (λ k. list_any (λ n. bytes_eq (string_bytes k) n.now) names.now)
        (keys_of table.now.entries) }
{
    table.keys().all(|key| is_among(names, key.as_str()))
}

/// Whether a key is one of these.
fn is_among(names: &[&str], key: &str) -> bool
    ensures { result ≡ list_any (λ n. bytes_eq key.now n.now) names.now }
{
    names.iter().any(|name| is_same(key, name))
}

/// Whether two keys are the same.
fn is_same(key: &str, name: &str) -> bool
    ensures { result ≡ bytes_eq key.now name.now }
{
    key == name
}
