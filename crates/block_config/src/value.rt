//! A key's value by its description, or what is wrong with it.
ghost use Rattle.std.specs.Prelude.{◌≡◌, ◌≤◌, option_map, IfOk};
ghost use Rattle.toml.specs.View.{view};
ghost use Rattle.block_config.specs.Keys.{described, flag_described};
ghost use Rattle.block_config.specs.Values as spec;
ghost use Rattle.block_config.specs.Values.{map_ok};

use crate::fault::ConfigKind;
use crate::keys::{FlagKey, NumberKey};
use toml::Value;

/// A number, or its default where it is absent.
pub fn number_of(key: &NumberKey, value: Option<&Value>) -> Result<u32, ConfigKind>
    ensures value { result
        ≡ spec.number_of (described key.now) (option_map (λ v. view v.now) value.entry) }
    ensures low { IfOk result (λ n. key.now.low ≤ n) }
    ensures high { IfOk result (λ n. n ≤ key.now.high) }
{
    match value {
        Some(value) => number_in(key.low, key.high, value),
        None => key.default.ok_or(ConfigKind::Missing),
    }
}

/// A value that is a number in a range.
pub fn number_in(low: u32, high: u32, value: &Value) -> Result<u32, ConfigKind>
    ensures value { result ≡ spec.number_in low high (view value.now) }
    ensures low { IfOk result (λ n. low ≤ n) }
    ensures high { IfOk result (λ n. n ≤ high) }
{
    match value.as_integer() {
        Some(number) => in_range(low, high, number),
        None => Err(ConfigKind::WrongType),
    }
}

/// A number in a range.
fn in_range(low: u32, high: u32, number: i64) -> Result<u32, ConfigKind>
    ensures value { result ≡ spec.in_range low high number }
    ensures low { IfOk result (λ n. low ≤ n) }
    ensures high { IfOk result (λ n. n ≤ high) }
{
    match u32::try_from(number) {
        Ok(number) if low <= number && number <= high => Ok(number),
        _ => Err(ConfigKind::Range),
    }
}

/// A word; `None` where it is absent.
pub fn word_of(value: Option<&Value>) -> Result<Option<u16>, ConfigKind>
    ensures { result ≡ spec.word_of (option_map (λ v. view v.now) value.entry) }
{
    match value {
        Some(value) => {
            let word = number_in(0, 65_535, value)?;
            Ok(Some(word as u16))
        }
        None => Ok(None),
    }
}

/// A flag, or its default where it is absent.
pub fn flag_of(key: &FlagKey, value: Option<&Value>) -> Result<bool, ConfigKind>
    ensures { result
        ≡ spec.flag_of (flag_described key.now) (option_map (λ v. view v.now) value.entry) }
{
    match value {
        Some(value) => match value.as_bool() {
            Some(flag) => Ok(flag),
            None => Err(ConfigKind::WrongType),
        },
        None => Ok(key.default),
    }
}

/// A text; `None` where it is absent.
pub fn text_of<'a>(value: Option<&'a Value>) -> Result<Option<&'a str>, ConfigKind>
    ensures { map_ok (option_map (λ t. t.now)) result
        ≡ spec.text_of (option_map (λ v. view v.now) value.entry) }
{
    match value {
        Some(value) => match value.as_str() {
            Some(text) => Ok(Some(text)),
            None => Err(ConfigKind::WrongType),
        },
        None => Ok(None),
    }
}
