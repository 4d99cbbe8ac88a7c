//! The symbols of a program: its labels and defines, in the order of the source.
ghost use Rattle.std.specs.Prelude.{◌≡◌, option_copied};
ghost use Rattle.std.specs.Str.{bytes_eq};
ghost use Rattle.std.specs.List.{find};

use pio_encode::Name;
use std::marker::Model;

/// A name with a value.
#[derive(Drop)]
pub struct ProgramSymbol {
    pub name: Name,
    pub value: i32,
    /// Whether the source says `public`, so that a listing shows it.
    pub public: bool,
    /// Whether a label made it: its value is then an address in the program.
    pub is_label: bool,
}

/// The symbols of a program in the order of the source, seen as their list.
#[derive(Drop)]
pub struct ProgramSymbols {
    entries: Vec<ProgramSymbol>,
}

impl Model for ProgramSymbols {
    ghost use Rattle.std.specs.Prelude.{List};
    ghost use Rattle.pio_assemble.specs.declared.symbols.ProgramSymbol.{ProgramSymbol};

    ghost Value = { List ProgramSymbol };

    ghost view = { λ s. s.entries.items };
}

impl ProgramSymbols {
    /// The symbols in this order. It takes no memory.
    pub fn new(entries: Vec<ProgramSymbol>) -> Self
        ensures { result ≡ entries.items }
    {
        ProgramSymbols { entries }
    }

    /// All of them.
    pub fn as_slice(&self) -> &[ProgramSymbol]
        ensures { result.now ≡ self.now }
    {
        self.entries.as_slice()
    }

    /// The first of this name.
    pub fn get(&self, name: &[u8]) -> Option<&ProgramSymbol>
        ensures { option_copied result ≡ find (λ s. bytes_eq s.name name.now) self.now }
    {
        self.as_slice().iter().find(|s| s.name.as_bytes() == name)
    }
}
