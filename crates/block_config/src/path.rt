//! The path of a key in a fault: `load[0].at` (choice of this profile).
ghost use Rattle.std.specs.Prelude.{◌≡◌, Some};
ghost use Rattle.block_config.specs.Answer.{Tells};
ghost use Rattle.block_config.specs.Fault.{key_path, section_path};

use crate::fault::{ConfigFault, ConfigKind};
use pio_encode::Name;
use std::alloc::Global;
use std::fmt;

/// A table of a configuration; those of an array count from 0.
#[derive(Clone, Copy)]
pub enum Section {
    Load(usize),
    Machine(usize),
    Pins,
    Span(usize),
    /// An assumption of a span.
    Assume(usize, usize),
}

impl fmt::Display for Section {
    ghost output = { λ section. Some (section_path section) };

    fn fmt<W: fmt::Write>(&self, f: &mut fmt::Formatter<W>) -> fmt::Result {
        match self {
            Section::Load(place) => write!(f, "load[{place}]"),
            Section::Machine(place) => write!(f, "machine[{place}]"),
            Section::Pins => f.write_str("pins"),
            Section::Span(place) => write!(f, "span[{place}]"),
            Section::Assume(span, place) => write!(f, "span[{span}].assume[{place}]"),
        }
    }
}

/// A fault that is at a path.
pub fn fault_at(alloc: Global, path: &str, kind: ConfigKind) -> ConfigFault
    ensures { Tells result path.now kind }
{
    match path.to_string(alloc) {
        Ok(text) => ConfigFault::At {
            key: Name::new(text),
            kind,
        },
        Err(_) => ConfigFault::Memory,
    }
}

/// A fault of a whole table, and so of no key of it.
pub fn fault_of_section(alloc: Global, section: Section, kind: ConfigKind) -> ConfigFault
    ensures { Tells result (section_path section) kind }
{
    match format!(in alloc; "{section}") {
        Ok(text) => ConfigFault::At {
            key: Name::new(text),
            kind,
        },
        Err(_) => ConfigFault::Memory,
    }
}

/// A fault of a key.
pub fn fault_of_key(alloc: Global, section: Section, key: &str, kind: ConfigKind) -> ConfigFault
    ensures { Tells result (key_path section key.now) kind }
{
    match format!(in alloc; "{section}.{key}") {
        Ok(text) => ConfigFault::At {
            key: Name::new(text),
            kind,
        },
        Err(_) => ConfigFault::Memory,
    }
}
