//! What comes before a line: in the file, and in its program.
ghost use Rattle.std.specs.Prelude.{◌≡◌, ◌+◌, ◌<◌, ◌≤◌, ◌^◌, OnOk};
ghost use Rattle.pio_assemble.specs.Lines.{word_count};
ghost use Rattle.pio_assemble.specs.Checks as spec;

use crate::names::Names;
use pio_encode::Name;
use pio_statement::{Code, Statement};
use std::alloc::{AllocError, Global};

/// What comes before a line (before the first program, of what is global).
#[derive(Drop)]
pub struct Before {
    /// The programs that have begun.
    pub programs: Names,
    /// The symbols of this program.
    pub names: Names,
    /// How many symbols the file has.
    pub symbols: usize,
    /// How many words this program has.
    pub words: usize,
    /// It has an `.origin`.
    pub origin: bool,
    /// It has a `.side_set`, with `opt` or without.
    pub side_set: Option<bool>,
    /// It has a `.wrap_target`.
    pub wrap_target: bool,
    /// It has a `.wrap`.
    pub wrap: bool,
}

impl Before {
    /// The beginning of a source.
    pub fn nothing(alloc: Global) -> Self
        ensures { result ≡ spec.nothing_before }
    {
        Before {
            programs: Names::new(alloc),
            names: Names::new(alloc),
            symbols: 0,
            words: 0,
            origin: false,
            side_set: None,
            wrap_target: false,
            wrap: false,
        }
    }

    /// Goes after a statement.
    #[tactic(auto, unfolding(crate::specs::Checks::after))]
    pub fn pass(&mut self, alloc: Global, statement: &Statement) -> Result<(), AllocError>
        requires symbols { self.old.symbols + 1 < 2 ^ 64 }
        requires words { self.old.words + 1 < 2 ^ 64 }
        ensures ok { OnOk result (self.new ≡ spec.after self.old statement.now) }
        ensures symbols { OnOk result (self.new.symbols ≤ self.old.symbols + 1) }
        ensures words { OnOk result (self.new.words ≤ self.old.words + 1) }
    {
        match statement {
            Statement::Program(name) => self.begin_program(alloc, name)?,
            Statement::Define { name, .. } => self.add_symbol(alloc, name)?,
            Statement::Origin(_) => self.origin = true,
            Statement::SideSet { opt, .. } => self.side_set = Some(*opt),
            Statement::WrapTarget => self.wrap_target = true,
            Statement::Wrap => self.wrap = true,
            Statement::Label { name, code, .. } => {
                self.add_symbol(alloc, name)?;
                self.words += word_count(code);
            }
            Statement::Code(_) => self.words += 1,
            _ => {}
        }
        Ok(())
    }

    fn begin_program(&mut self, alloc: Global, name: &Name) -> Result<(), AllocError>
        ensures { OnOk result (self.new ≡ spec.program_after self.old name.now) }
    {
        self.programs.add(alloc, name)?;
        self.names = Names::new(alloc);
        self.words = 0;
        self.origin = false;
        self.side_set = None;
        self.wrap_target = false;
        self.wrap = false;
        Ok(())
    }

    fn add_symbol(&mut self, alloc: Global, name: &Name) -> Result<(), AllocError>
        requires { self.old.symbols + 1 < 2 ^ 64 }
        ensures { OnOk result (self.new ≡ spec.symbol_after self.old name.now) }
    {
        self.names.add(alloc, name)?;
        self.symbols += 1;
        Ok(())
    }
}

/// How many words code after a label gives.
pub fn word_count(code: &Option<Code>) -> usize
    ensures value { result ≡ word_count code.now }
    ensures most { result ≤ 1 }
{
    match code {
        Some(_) => 1,
        None => 0,
    }
}
