//! The names that are taken.
ghost use Rattle.std.specs.Prelude.{◌≡◌, [], length, OnOk};
ghost use Rattle.pio_assemble.specs.Checks.{is_among, with_name};

use indexmap::IndexSet;
use pio_encode::Name;
use std::alloc::{AllocError, Global};
use std::marker::Model;

/// Names, seen as their list, in the order in which they were added.
#[derive(Drop)]
pub struct Names {
    texts: IndexSet<String>,
}

impl Model for Names {
    ghost use Rattle.std.specs.Prelude.{List, ℕ, map, string_bytes};

    ghost Value = { List (List ℕ) };

    ghost view = { λ s. map string_bytes s.texts.keys };
}

impl Names {
    /// None.
    pub fn new(alloc: Global) -> Self
        ensures { result ≡ [] }
    {
        Names {
            texts: IndexSet::new(alloc),
        }
    }

    /// How many there are.
    pub fn len(&self) -> usize
        ensures { result ≡ length self.now }
    {
        self.texts.len()
    }

    /// This name is among them.
    pub fn has(&self, name: &Name) -> bool
        ensures { result ≡ is_among self.now name.now }
    {
        self.texts.contains(name.as_str())
    }

    /// Adds a name, unless it is among them.
    pub fn add(&mut self, alloc: Global, name: &Name) -> Result<(), AllocError>
        ensures { OnOk result (self.new ≡ with_name self.old name.now) }
    {
        self.texts.insert(String::from_str(alloc, name.as_str())?)?;
        Ok(())
    }
}
