//! What is at a place, by the first token.
ghost use Rattle.pio_statement.specs.Cursor.{ReadsValue};
ghost use Rattle.pio_statement.specs.Statements as spec;

use crate::cursor::Cursor;
use crate::{Code, Statement, StatementFault};
use pio_lex::{Keyword, TokenKind};

impl<'a> Cursor<'a> {
    /// A statement, whatever comes after it.
    #[tactic(auto, unfolding(crate::specs::Statements::statement_from))]
    pub fn statement(&mut self) -> Result<Statement, StatementFault>
        ensures { ReadsValue result self.old self.new (spec.statement_from self.old.source self.old.tokens self.old.at) }
    {
        match self.kind() {
            None | Some(TokenKind::Newline) => Ok(Statement::Nothing),
            Some(TokenKind::Directive(directive)) => {
                self.advance();
                self.directive(directive)
            }
            Some(TokenKind::Keyword(Keyword::Public)) => {
                self.advance();
                self.label(true)
            }
            Some(TokenKind::Keyword(_)) => self.lone_code(),
            Some(TokenKind::Name) => self.label(false),
            _ => Err(StatementFault::SYNTAX),
        }
    }

    /// `NAME :`, alone or with code after it.
    #[tactic(auto, unfolding(crate::specs::Statements::label_at))]
    fn label(&mut self, public: bool) -> Result<Statement, StatementFault>
        ensures { ReadsValue result self.old self.new (spec.label_at self.old.source self.old.tokens public self.old.at) }
    {
        let name = self.name()?;
        self.colon()?;
        let code = self.labelled()?;
        Ok(Statement::Label { public, name, code })
    }

    /// The code after a label, if the line goes on.
    #[tactic(auto, unfolding(crate::specs::Statements::labelled_at))]
    fn labelled(&mut self) -> Result<Option<Code>, StatementFault>
        ensures { ReadsValue result self.old self.new (spec.labelled_at self.old.source self.old.tokens self.old.at) }
    {
        if self.is_at_end() {
            Ok(None)
        } else {
            Ok(Some(self.code()?))
        }
    }

    /// Code without a label.
    #[tactic(auto, unfolding(crate::specs::Statements::lone_code_at))]
    fn lone_code(&mut self) -> Result<Statement, StatementFault>
        ensures { ReadsValue result self.old self.new (spec.lone_code_at self.old.source self.old.tokens self.old.at) }
    {
        Ok(Statement::Code(self.code()?))
    }
}
