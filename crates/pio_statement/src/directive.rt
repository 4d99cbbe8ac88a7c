//! The directives of a line, after their names. E is an expression.
ghost use Rattle.pio_statement.specs.Cursor.{ReadsValue};
ghost use Rattle.pio_statement.specs.Statements as spec;

use crate::cursor::Cursor;
use crate::{Statement, StatementFault};
use pio_lex::Directive;

impl<'a> Cursor<'a> {
    /// A directive's statement, after its name.
    pub fn directive(&mut self, directive: Directive) -> Result<Statement, StatementFault>
        ensures { ReadsValue result self.old self.new
            (spec.directive_at self.old.source self.old.tokens directive self.old.at) }
    {
        match directive {
            Directive::Program => self.program(),
            Directive::Define => self.define(),
            Directive::Origin => self.origin(),
            Directive::SideSet => self.side_set(),
            Directive::WrapTarget => Ok(Statement::WrapTarget),
            Directive::Wrap => Ok(Statement::Wrap),
            Directive::Word => self.lone_word(),
            Directive::LangOpt => Ok(Statement::LangOpt),
            Directive::PioVersion => self.pio_version(),
            Directive::Other => Err(StatementFault::SYNTAX),
        }
    }

    /// `.program NAME`
    #[tactic(auto, unfolding(crate::specs::Statements::program_at))]
    fn program(&mut self) -> Result<Statement, StatementFault>
        ensures { ReadsValue result self.old self.new (spec.program_at self.old.source self.old.tokens self.old.at) }
    {
        Ok(Statement::Program(self.name()?))
    }

    /// `.define [public] NAME E`
    #[tactic(auto, unfolding(crate::specs::Statements::define_at))]
    fn define(&mut self) -> Result<Statement, StatementFault>
        ensures { ReadsValue result self.old self.new (spec.define_at self.old.source self.old.tokens self.old.at) }
    {
        let public = self.public();
        let name = self.name()?;
        let value = self.expression()?;
        Ok(Statement::Define {
            public,
            name,
            value,
        })
    }

    /// `.origin E`
    #[tactic(auto, unfolding(crate::specs::Statements::origin_at))]
    fn origin(&mut self) -> Result<Statement, StatementFault>
        ensures { ReadsValue result self.old self.new (spec.origin_at self.old.source self.old.tokens self.old.at) }
    {
        Ok(Statement::Origin(self.expression()?))
    }

    /// `.side_set E [opt] [pindirs]`
    #[tactic(auto, unfolding(crate::specs::Statements::side_set_at))]
    fn side_set(&mut self) -> Result<Statement, StatementFault>
        ensures { ReadsValue result self.old self.new (spec.side_set_at self.old.source self.old.tokens self.old.at) }
    {
        let bits = self.expression()?;
        let opt = self.opt();
        let pindirs = self.pindirs();
        Ok(Statement::SideSet { bits, opt, pindirs })
    }

    /// `.pio_version E`
    #[tactic(auto, unfolding(crate::specs::Statements::pio_version_at))]
    fn pio_version(&mut self) -> Result<Statement, StatementFault>
        ensures { ReadsValue result self.old self.new (spec.pio_version_at self.old.source self.old.tokens self.old.at) }
    {
        Ok(Statement::PioVersion(self.expression()?))
    }

    /// `.word E` without a label.
    #[tactic(auto, unfolding(crate::specs::Statements::lone_word_at))]
    fn lone_word(&mut self) -> Result<Statement, StatementFault>
        ensures { ReadsValue result self.old self.new (spec.lone_word_at self.old.source self.old.tokens self.old.at) }
    {
        Ok(Statement::Code(self.word()?))
    }
}
