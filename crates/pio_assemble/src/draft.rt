//! A program as far as its lines are read.
ghost use Rattle.std.specs.Prelude.{◌≡◌, ◌-◌, ◌≤◌, OnOk};
ghost use Rattle.pio_assemble.specs.Answers.{Answers};
ghost use Rattle.pio_assemble.specs.Drafts as spec;

use crate::instruction::word;
use crate::operands::byte_in;
use crate::rule::{most_bits, no_side_set, rule};
use crate::{LineFault, Program, ProgramSymbol, ProgramSymbols, Quantity, SourceKind};
use arrayvec::ArrayVec;
use pio_encode::{Name, SideRule};
use pio_expr::{Expr, Scope};
use pio_statement::{Code, Statement};
use std::alloc::{AllocError, Global};
use std::marker::Model;

/// The program so far, seen as its names and numbers; before the first one it has no name, and is none.
#[derive(Drop)]
pub struct Draft {
    name: Option<Name>,
    words: ArrayVec<u16, 32>,
    origin: Option<u8>,
    side: SideRule,
    wrap_bottom: u8,
    /// None so far, which is the last word.
    wrap_top: Option<u8>,
    symbols: Vec<ProgramSymbol>,
}

impl Model for Draft {
    ghost use Rattle.pio_assemble.specs.Drafts.{Draft};

    ghost Value = { Draft };

    ghost view = { λ d. record {
      name = d.name;
      words = d.words.items;
      origin = d.origin;
      side = d.side;
      wrap_bottom = d.wrap_bottom;
      wrap_top = d.wrap_top;
      symbols = d.symbols.items;
    } };

    ghost use Rattle.pio_assemble.specs.Drafts.{IsInMemory};

    ghost invariant = { λ d. IsInMemory d.words.items d.origin d.wrap_bottom d.wrap_top };
}

impl Draft {
    /// A program without lines; without a name, what comes before the first one. It takes no memory.
    pub fn begun(alloc: Global, name: Option<Name>) -> Self
        ensures { result ≡ spec.begun name }
    {
        Draft {
            name,
            words: ArrayVec::new(),
            origin: None,
            side: no_side_set(),
            wrap_bottom: 0,
            wrap_top: None,
            symbols: Vec::new(alloc),
        }
    }

    /// Goes after a statement.
    #[tactic(auto, unfolding(crate::specs::Drafts::drafted))]
    pub fn read(
        &mut self,
        alloc: Global,
        scope: &mut Scope,
        statement: &Statement,
    ) -> Result<(), LineFault>
        ensures value { Answers (λ _. self.new) result
            (spec.drafted scope.old self.old statement.now) }
        ensures same { scope.new ≡ scope.old }
    {
        match statement {
            Statement::Define { public, name, .. } => self.define(alloc, scope, *public, name),
            Statement::Origin(address) => {
                self.origin = Some(byte_in(scope, Quantity::Origin, 0, 31, address)?);
                Ok(())
            }
            Statement::SideSet { bits, opt, pindirs } => {
                self.side_set(scope, bits, *opt, *pindirs)
            }
            Statement::WrapTarget => {
                self.wrap_bottom = self.words.len() as u8;
                Ok(())
            }
            Statement::Wrap => {
                self.wrap_top = Some(last(self.words.len()));
                Ok(())
            }
            Statement::PioVersion(version) => {
                byte_in(scope, Quantity::PioVersion, 0, 0, version)?;
                Ok(())
            }
            Statement::Label { public, name, code } => {
                self.label(alloc, *public, name)?;
                self.some_code(scope, code)
            }
            Statement::Code(code) => self.code(scope, code),
            _ => Ok(()),
        }
    }

    /// The side-set rule, with at most five bits.
    fn side_set(
        &mut self,
        scope: &mut Scope,
        bits: &Expr,
        opt: bool,
        pindirs: bool,
    ) -> Result<(), LineFault>
        ensures value { Answers (λ _. self.new) result
            (spec.ruled scope.old self.old bits.now opt pindirs) }
        ensures same { scope.new ≡ scope.old }
    {
        let count = byte_in(scope, Quantity::SideSet, 0, most_bits(opt), bits)?;
        self.side = rule(count, opt, pindirs);
        Ok(())
    }

    /// A define: its value is that of its name.
    fn define(
        &mut self,
        alloc: Global,
        scope: &mut Scope,
        public: bool,
        name: &Name,
    ) -> Result<(), LineFault>
        ensures value { Answers (λ _. self.new) result
            (spec.defined scope.old self.old public name.now) }
        ensures same { scope.new ≡ scope.old }
    {
        let value = scope.value_of_name(name)?;
        self.symbols.push(ProgramSymbol {
            name: name.copy(alloc)?,
            value,
            public,
            is_label: false,
        })?;
        Ok(())
    }

    /// A label: its value is the number of words before it.
    fn label(&mut self, alloc: Global, public: bool, name: &Name) -> Result<(), AllocError>
        ensures { OnOk result (self.new ≡ spec.labelled self.old public name.now) }
    {
        self.symbols.push(ProgramSymbol {
            name: name.copy(alloc)?,
            value: self.words.len() as i32,
            public,
            is_label: true,
        })?;
        Ok(())
    }

    fn some_code(&mut self, scope: &mut Scope, code: &Option<Code>) -> Result<(), LineFault>
        ensures value { Answers (λ _. self.new) result
            (spec.some_coded scope.old self.old code.now) }
        ensures same { scope.new ≡ scope.old }
    {
        match code {
            None => Ok(()),
            Some(code) => self.code(scope, code),
        }
    }

    /// Code: one word more.
    fn code(&mut self, scope: &mut Scope, code: &Code) -> Result<(), LineFault>
        ensures value { Answers (λ _. self.new) result (spec.coded scope.old self.old code.now) }
        ensures same { scope.new ≡ scope.old }
    {
        let word = word(scope, &self.side, code)?;
        if self.words.is_full() {
            return Err(LineFault::Found(SourceKind::TooLong));
        }
        self.words.push(word);
        Ok(())
    }

    /// The program after its last line, if it is one.
    pub fn finish(self) -> Option<Program>
        ensures { spec.one_or_none result ≡ spec.finished self }
    {
        if self.words.is_empty() {
            return None;
        }
        let top = last(self.words.len());
        Some(Program {
            name: self.name?,
            words: self.words,
            origin: self.origin,
            side: self.side,
            wrap_bottom: self.wrap_bottom.min(top),
            wrap_top: self.wrap_top.unwrap_or(top),
            symbols: ProgramSymbols::new(self.symbols),
        })
    }
}

/// The last of so many words, which is 0 where there is none.
fn last(words: usize) -> u8
    requires { words ≤ 32 }
    ensures { result ≡ words - 1 }
{
    (words as u8).saturating_sub(1)
}
