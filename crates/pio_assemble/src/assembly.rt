//! The programs of a source, as far as its lines are read.
ghost use Rattle.std.specs.Prelude.{◌≡◌, [], Some, None, map, IfOk, OnOk, ◌++◌};
ghost use Rattle.pio_assemble.specs.Answers.{Answers, Gives};
ghost use Rattle.pio_assemble.specs.Drafts.{begun, finished};
ghost use Rattle.pio_assemble.specs.Program.{assembled_of};
ghost use Rattle.pio_assemble.specs.Source as spec;

use crate::draft::Draft;
use crate::fault::at_line;
use crate::line::SourceLine;
use crate::symbols_of::{add_symbols, program_on};
use crate::{LineFault, Program, SourceFault};
use pio_encode::Name;
use pio_expr::Scope;
use pio_statement::{Statement, StatementKind};
use std::alloc::{AllocError, Global};
use std::mem::replace;

/// The programs so far.
#[derive(Drop)]
pub struct Assembly<'a> {
    /// In which names are looked up.
    scope: Scope,
    /// The lines after the next `.program`, whose symbols are not in the scope yet.
    symbols: &'a [SourceLine],
    /// The program whose lines are read.
    draft: Draft,
    /// Those before it.
    programs: Vec<Program>,
}

impl<'a> Assembly<'a> {
    /// Before the first of these lines.
    pub fn begun(alloc: Global, lines: &'a [SourceLine]) -> Result<Self, AllocError>
        ensures scope { IfOk result (λ a. a.scope ≡ spec.global_scope lines.now) }
        ensures symbols { IfOk result (λ a. a.symbols.now ≡ spec.after_program lines.now) }
        ensures draft { IfOk result (λ a. a.draft ≡ begun None) }
        ensures programs { IfOk result (λ a. a.programs.items ≡ []) }
    {
        let mut scope = Scope::new(alloc);
        let symbols = add_symbols(alloc, &mut scope, lines)?;
        Ok(Assembly {
            scope,
            symbols,
            draft: Draft::begun(alloc, None),
            programs: Vec::new(alloc),
        })
    }

    /// Reads these lines.
    pub fn read(&mut self, alloc: Global, lines: &[SourceLine]) -> Result<(), SourceFault>
        requires { self.old.symbols.now ≡ spec.after_program lines.now }
        ensures { Gives (λ _. map assembled_of self.new.programs.items ++ finished self.new.draft) result
            (spec.with_programs (map assembled_of self.old.programs.items)
            (spec.programs_from lines.now self.old.scope self.old.draft)) }
    {
        for line in lines {
            match program_on(&line.reading) {
                Some(name) => self.begin_program(alloc, name)?,
                None => {
                    if let Err(fault) = self.draft_line(alloc, &line.reading) {
                        return Err(at_line(line.number, fault));
                    }
                }
            }
        }
        Ok(())
    }

    /// A program of this name begins, in which names are looked up from now on; the one before it ends.
    fn begin_program(&mut self, alloc: Global, name: &Name) -> Result<(), AllocError>
        ensures draft { OnOk result (self.new.draft ≡ begun (Some name.now)) }
        ensures scope { OnOk result
            (self.new.scope ≡ spec.program_scope self.old.scope self.old.symbols.now) }
        ensures symbols { OnOk result
            (self.new.symbols.now ≡ spec.after_program self.old.symbols.now) }
        ensures programs { OnOk result (map assembled_of self.new.programs.items
            ≡ map assembled_of self.old.programs.items ++ finished self.old.draft) }
    {
        self.scope.next_program();
        self.symbols = add_symbols(alloc, &mut self.scope, self.symbols)?;
        let next = Draft::begun(alloc, Some(name.copy(alloc)?));
        add(&mut self.programs, replace(&mut self.draft, next))
    }

    /// What a line adds to its program; one that is no statement adds nothing.
    fn draft_line(
        &mut self,
        alloc: Global,
        reading: &Result<Statement, StatementKind>,
    ) -> Result<(), LineFault>
        ensures value { Answers (λ _. self.new.draft) result
            (spec.drafted_on self.old.scope self.old.draft reading.now) }
        ensures scope { self.new.scope ≡ self.old.scope }
        ensures symbols { self.new.symbols ≡ self.old.symbols }
        ensures programs { self.new.programs ≡ self.old.programs }
    {
        match reading {
            Ok(statement) => self.draft.read(alloc, &mut self.scope, statement),
            Err(_) => Ok(()),
        }
    }

    /// The programs, after the last line.
    pub fn finish(self) -> Result<Vec<Program>, AllocError>
        ensures { IfOk result (λ v. map assembled_of v.items
            ≡ map assembled_of self.entry.programs.items ++ finished self.entry.draft) }
    {
        let Assembly {
            scope,
            draft,
            mut programs,
            ..
        } = self;
        drop(scope);
        add(&mut programs, draft)?;
        Ok(programs)
    }
}

/// Adds a program after its last line, if it is one.
fn add(programs: &mut Vec<Program>, draft: Draft) -> Result<(), AllocError>
    ensures { OnOk result (map assembled_of programs.new.items
        ≡ map assembled_of programs.old.items ++ finished draft) }
{
    if let Some(program) = draft.finish() {
        programs.push(program)?;
    }
    Ok(())
}
