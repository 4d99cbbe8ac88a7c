//! The events of a span by their keys: a pin, its edge, the instructions that make the edge, or those whose end it is.
ghost use Rattle.std.specs.Prelude.{◌≡◌, ◌≤◌, ◌<◌, Some, option_map, IfOk, IsTrue};
ghost use Rattle.pin_matrix.specs.Spans.{are_addresses};
ghost use Rattle.toml.specs.View.{table_view, view};
ghost use Rattle.pin_matrix.specs.declared.span.PinSignal.TheVariants.{Direction, Level};
ghost use Rattle.block_config.specs.Loads.{loaded_of};
ghost use Rattle.block_config.specs.SpanView.{event_names};
ghost use Rattle.block_config.specs.Spans as spec;
ghost use Rattle.block_config.specs.Tables.{and_then, seen};
ghost use Rattle.block_config.specs.Values.{text_of};

use crate::fault::ConfigKind;
use crate::keys::EventKeys;
use crate::labels::labels_at;
use crate::programs::LoadedProgram;
use crate::table::{Lack, has_key, value_at};
use crate::value::{number_in, text_of};
use arrayvec::ArrayVec;
use pin_matrix::PinSignal;
use toml::{Table, Value};

/// The pin of an event: 0 where it has none and needs none.
pub fn pin_at(table: &Table, keys: &EventKeys) -> Result<u8, Lack>
    ensures value { seen (λ n. n) result
        ≡ spec.pin_at (event_names keys.now) (table_view table.now) }
    ensures is_a_pin { IfOk result (λ n. n < 32) }
{
    match pin_of(has_key(table, keys.done), value_at(table, keys.pin)) {
        Ok(pin) => Ok(pin as u8),
        Err(kind) => Err(Lack {
            key: keys.pin,
            kind,
        }),
    }
}

/// The pin that a value is.
fn pin_of(done: bool, value: Option<&Value>) -> Result<u32, ConfigKind>
    ensures value { result ≡ spec.pin_of done (option_map (λ v. view v.now) value.entry) }
    ensures high { IfOk result (λ n. n ≤ 31) }
{
    match value {
        Some(value) => number_in(0, 31, value),
        None if done => Ok(0),
        None => Err(ConfigKind::Missing),
    }
}

/// A change of a pin, or none.
#[derive(Clone, Copy)]
pub struct Edge {
    /// What of the pin changes; `None` where the event is the end of an instruction.
    pub signal: Option<PinSignal>,
    /// A rise of the level, or the direction becomes out.
    pub rise: bool,
}

/// The edge of an event.
pub fn edge_at(table: &Table, keys: &EventKeys) -> Result<Edge, Lack>
    ensures { seen (λ e. e) result
        ≡ spec.edge_at (event_names keys.now) (table_view table.now) }
{
    match edge_of(has_key(table, keys.done), value_at(table, keys.edge)) {
        Ok(edge) => Ok(edge),
        Err(kind) => Err(Lack {
            key: keys.edge,
            kind,
        }),
    }
}

/// The edge that a value names.
fn edge_of(done: bool, value: Option<&Value>) -> Result<Edge, ConfigKind>
    ensures { result
        ≡ and_then (text_of (option_map (λ v. view v.now) value.entry)) (spec.edge_of done) }
{
    match text_of(value)? {
        Some(word) => edge_named(word),
        None if done => Ok(no_edge()),
        None => Err(ConfigKind::Missing),
    }
}

/// The edge of this name.
fn edge_named(word: &str) -> Result<Edge, ConfigKind>
    ensures { result ≡ spec.edge_named word.now }
{
    if word == "rise" {
        Ok(level(true))
    } else if word == "fall" {
        Ok(level(false))
    } else if word == "out" {
        Ok(direction(true))
    } else if word == "in" {
        Ok(direction(false))
    } else {
        Err(ConfigKind::Range)
    }
}

fn level(rise: bool) -> Edge
    ensures signal { result.signal ≡ Some Level }
    ensures rise { result.rise ≡ rise }
{
    Edge {
        signal: Some(PinSignal::Level),
        rise,
    }
}

fn direction(rise: bool) -> Edge
    ensures signal { result.signal ≡ Some Direction }
    ensures rise { result.rise ≡ rise }
{
    Edge {
        signal: Some(PinSignal::Direction),
        rise,
    }
}

fn no_edge() -> Edge
    ensures { result ≡ spec.no_edge }
{
    Edge {
        signal: None,
        rise: false,
    }
}

/// The addresses of the instructions that alone make an event's edge.
pub fn makers_at(
    table: &Table,
    keys: &EventKeys,
    load: Option<LoadedProgram>,
) -> Result<ArrayVec<u8, 16>, Lack>
    ensures value { seen (λ v. v.items) result
        ≡ spec.makers_at (event_names keys.now) (option_map loaded_of load.entry) (table_view table.now) }
    ensures in_memory { IfOk result (λ v. IsTrue (are_addresses v.items)) }
{
    labels_at(table, keys.at, 1, 16, load)
}

/// The addresses of the instructions whose end is an event.
pub fn enders_at(
    table: &Table,
    keys: &EventKeys,
    load: Option<LoadedProgram>,
) -> Result<ArrayVec<u8, 16>, Lack>
    ensures value { seen (λ v. v.items) result
        ≡ spec.enders_at (event_names keys.now) (option_map loaded_of load.entry) (table_view table.now) }
    ensures in_memory { IfOk result (λ v. IsTrue (are_addresses v.items)) }
{
    let enders = labels_at(table, keys.done, 1, 16, load)?;
    if is_beside(table, keys) {
        return Err(Lack {
            key: keys.done,
            kind: ConfigKind::Excluded,
        });
    }
    Ok(enders)
}

/// Whether a table names instructions whose end is the event, and a pin, an edge or instructions that make one too.
fn is_beside(table: &Table, keys: &EventKeys) -> bool
    ensures { result ≡ spec.is_beside (event_names keys.now) (table_view table.now) }
{
    has_key(table, keys.done)
        && (has_key(table, keys.pin) || has_key(table, keys.edge) || has_key(table, keys.at))
}
