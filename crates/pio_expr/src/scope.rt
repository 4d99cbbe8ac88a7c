//! The symbols of a file, and what expressions are worth under them.
ghost use Rattle.std.specs.Prelude.{◌≡◌, option_copied, option_map, IsTrue, ◌↔◌, OnOk, OnErr};
ghost use Rattle.pio_expr.specs.Values.{no_symbols, begun, IsNew, with_symbol, symbol_of, own_place, IsOwnTo, value_of, value_of_name, Gives};

use crate::frame::unknown;
use crate::symbols::ScopeSymbols;
use crate::work::work_out;
use crate::{Expr, Symbol, ValueFault};
use indexmap::IndexMap;
use pio_encode::Name;
use std::alloc::{AllocError, Global};
use std::marker::Model;

/// The symbols of a file so far, seen as its globals and those of the present program. Values that were worked out are
/// kept, unseen, until a symbol is set or a program begins.
#[derive(Drop)]
pub struct Scope {
    alloc: Global,
    symbols: ScopeSymbols,
    /// The values that are known, by the places of their symbols.
    kept: IndexMap<usize, i32>,
}

impl Model for Scope {
    ghost use Rattle.pio_expr.specs.Values.{Scope};

    ghost Value = { Scope };

    ghost use Rattle.pio_expr.specs.Frames.{AreKept};

    ghost view = { λ s. s.symbols };

    ghost invariant = { λ s. AreKept s.symbols s.kept.entries };
}

impl Scope {
    /// No symbols. It takes no memory.
    pub fn new(alloc: Global) -> Self
        ensures { result ≡ no_symbols }
    {
        Scope {
            alloc,
            symbols: ScopeSymbols::new(alloc),
            kept: IndexMap::new(alloc),
        }
    }

    /// Begins a program without symbols, after the globals. It takes no memory.
    pub fn next_program(&mut self)
        ensures { self.new ≡ begun self.old }
    {
        self.kept = IndexMap::new(self.alloc);
        self.symbols.next_program(self.alloc);
    }

    /// No symbol has this name: among the globals, or once a program has begun, in it.
    pub fn is_new(&self, name: &Name) -> bool
        ensures { IsTrue result ↔ IsNew self.now name.now }
    {
        self.symbols.is_new(name)
    }

    /// Adds a symbol after the globals, or once a program has begun, after those of the program. The error is want of
    /// memory.
    pub fn set(&mut self, name: &Name, is: Symbol) -> Result<(), AllocError>
        requires { IsNew self.old name.now }
        ensures ok { OnOk result (self.new ≡ with_symbol self.old name.now is) }
        ensures err { OnErr result (self.new ≡ self.old) }
    {
        self.kept.clear();
        self.symbols.set(self.alloc, name, is)
    }

    /// The value of an expression, or its first fault. With `own` it is the expression of this symbol, which is under way
    /// then; else its names are looked up in the present program first.
    ///
    /// Each symbol is worked out once, until one is set or a program begins; nothing recurses.
    pub fn value(&mut self, expr: &Expr, own: Option<&Name>) -> Result<i32, ValueFault>
        requires own { IsOwnTo self.old (option_copied own) expr.now }
        ensures value { Gives result (value_of self.old (option_copied own.entry) expr.now) }
        ensures same { self.new ≡ self.old }
    {
        let place = own_place(&self.symbols, own);
        work_out(
            self.alloc,
            &self.symbols,
            &mut self.kept,
            place,
            expr.items(),
        )
    }

    /// The value of a name: of a define, that of its own expression.
    pub fn value_of_name(&mut self, name: &Name) -> Result<i32, ValueFault>
        ensures value { Gives result (value_of_name self.old name.now) }
        ensures same { self.new ≡ self.old }
    {
        match self.symbols.found(true, name) {
            None => Err(unknown(self.alloc, name)),
            Some((_, Symbol::Label(words))) => Ok(*words as i32),
            Some((place, Symbol::Define(expr))) => work_out(
                self.alloc,
                &self.symbols,
                &mut self.kept,
                Some(place),
                expr.items(),
            ),
        }
    }
}

/// The place of a symbol whose own expression is asked.
fn own_place(symbols: &ScopeSymbols, own: Option<&Name>) -> Option<usize>
    ensures { result ≡ own_place symbols.now (option_copied own.entry) }
{
    match own {
        Some(name) => symbols.found(true, name).map(|(place, _)| place),
        None => None,
    }
}
