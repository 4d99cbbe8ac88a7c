//! The symbols of a file, with look-ups by name.
ghost use Rattle.std.specs.Prelude.{◌≡◌, IsTrue, ◌↔◌, ◌<◌, ◌^◌, length, [], ◌∷◌, ◌++◌, option_map, OnOk, OnErr, None, if◌then◌else◌};
ghost use Rattle.pio_expr.specs.Values.{found_in, found, program_of, in_program, no_symbols, begun, IsNew, with_symbol};
ghost use Rattle.pio_expr.specs.Views.{named_in, symbol_seen};

use crate::Symbol;
use indexmap::IndexMap;
use pio_encode::Name;
use std::alloc::{AllocError, Global};
use std::marker::Model;

/// Symbols by name, in the order in which they were set.
type ByName = IndexMap<String, Symbol>;

/// The symbols of a file, seen as those of its globals and those of the present program.
#[derive(Drop)]
pub struct ScopeSymbols {
    globals: ByName,
    program: Option<ByName>,
}

impl Model for ScopeSymbols {
    ghost use Rattle.pio_expr.specs.Values.{Scope};

    ghost Value = { Scope };

    ghost use Rattle.std.specs.Prelude.{option_map};
    ghost use Rattle.pio_expr.specs.Views.{named_in};

    ghost view = { λ s. record {
      globals = named_in s.globals.entries;
      program = option_map (λ m. named_in m.entries) s.program;
    } };
}

impl ScopeSymbols {
    /// No symbols.
    pub fn new(alloc: Global) -> Self
        ensures { result ≡ no_symbols }
    {
        ScopeSymbols {
            globals: IndexMap::new(alloc),
            program: None,
        }
    }

    /// Begins a program without symbols.
    pub fn next_program(&mut self, alloc: Global)
        ensures { self.new ≡ begun self.old }
    {
        self.program = Some(IndexMap::new(alloc));
    }

    /// No symbol has this name: among the globals, or in the program, once one has begun.
    pub fn is_new(&self, name: &Name) -> bool
        ensures { IsTrue result ↔ IsNew self.now name.now }
    {
        let symbols = match &self.program {
            Some(symbols) => symbols,
            None => &self.globals,
        };
        found_in(0, symbols, name).is_none()
    }

    /// Adds a symbol.
    pub fn set(&mut self, alloc: Global, name: &Name, symbol: Symbol) -> Result<(), AllocError>
        requires { IsNew self.old name.now }
        ensures ok { OnOk result (self.new ≡ with_symbol self.old name.now symbol) }
        ensures err { OnErr result (self.new ≡ self.old) }
    {
        match &mut self.program {
            Some(symbols) => add(alloc, symbols, name, symbol),
            None => add(alloc, &mut self.globals, name, symbol),
        }
    }

    /// The place and the symbol of a name, looked up in the program first, or among the globals alone.
    pub fn found(&self, local: bool, name: &Name) -> Option<(usize, &Symbol)>
        ensures { option_map symbol_seen result ≡ found self.now local name.now }
    {
        match self.found_in_program(local, name) {
            Some(symbol) => Some(symbol),
            None => found_in(0, &self.globals, name),
        }
    }

    /// The place and the symbol of a name in the program, where it is looked up there.
    #[tactic(auto, unfolding(crate::specs::Values::found_in))]
    fn found_in_program(&self, local: bool, name: &Name) -> Option<(usize, &Symbol)>
        ensures { option_map symbol_seen result ≡ (if local
            then found_in (length self.now.globals) (program_of self.now) name.now else None) }
    {
        if !local {
            return None;
        }
        match &self.program {
            Some(symbols) => found_in(self.globals.len(), symbols, name),
            None => None,
        }
    }

    /// The symbol at this place is in the program.
    pub fn in_program(&self, place: usize) -> bool
        ensures { result ≡ in_program self.now place }
    {
        self.globals.len() <= place
    }
}

/// Adds a symbol at the end.
fn add(alloc: Global, symbols: &mut ByName, name: &Name, symbol: Symbol) -> Result<(), AllocError>
    requires { found_in 0 (named_in symbols.old.entries) name.now ≡ None }
    ensures ok { OnOk result (named_in symbols.new.entries
        ≡ named_in symbols.old.entries ++ (name.now, symbol) ∷ []) }
    ensures err { OnErr result (named_in symbols.new.entries ≡ named_in symbols.old.entries) }
{
    symbols.insert(String::from_str(alloc, name.as_str())?, symbol)?;
    Ok(())
}

/// The symbol of a name, where the places begin at `first`.
fn found_in<'a>(first: usize, symbols: &'a ByName, name: &Name) -> Option<(usize, &'a Symbol)>
    requires { first < 2 ^ 63 }
    ensures { option_map symbol_seen result ≡ found_in first (named_in symbols.now.entries) name.now }
{
    let _small = symbols.len();
    let (index, _, symbol) = symbols.get_full(name.as_str())?;
    Some((first + index, symbol))
}
