//! Instructions with their side-set and delay, and words of code. E is an expression.
ghost use Rattle.pio_statement.specs.Cursor.{ReadsValue};
ghost use Rattle.pio_statement.specs.Instructions as spec;

use crate::cursor::Cursor;
use crate::{Code, Instruction, StatementFault, Suffix};
use pio_expr::Expr;
use pio_lex::{Directive, TokenKind};

impl<'a> Cursor<'a> {
    /// An instruction or a word.
    #[tactic(auto, unfolding(crate::specs::Instructions::code_at))]
    pub fn code(&mut self) -> Result<Code, StatementFault>
        ensures { ReadsValue result self.old self.new (spec.code_at self.old.source self.old.tokens self.old.at) }
    {
        match self.kind() {
            Some(TokenKind::Directive(Directive::Word)) => {
                self.advance();
                self.word()
            }
            Some(TokenKind::Directive(_)) => Err(StatementFault::SYNTAX),
            _ => Ok(Code::Instruction(self.instruction()?)),
        }
    }

    /// `.word E`, after the directive.
    #[tactic(auto, unfolding(crate::specs::Instructions::word_at))]
    pub fn word(&mut self) -> Result<Code, StatementFault>
        ensures { ReadsValue result self.old self.new (spec.word_at self.old.source self.old.tokens self.old.at) }
    {
        Ok(Code::Word(self.expression()?))
    }

    /// An instruction.
    #[tactic(auto, unfolding(crate::specs::Instructions::instruction_at))]
    fn instruction(&mut self) -> Result<Instruction, StatementFault>
        ensures { ReadsValue result self.old self.new (spec.instruction_at self.old.source self.old.tokens self.old.at) }
    {
        let form = self.form()?;
        let suffix = self.suffix()?;
        Ok(Instruction { form, suffix })
    }

    /// At most one `side E` and one `[E]`, in either order.
    #[tactic(auto, unfolding(crate::specs::Instructions::suffix_at))]
    fn suffix(&mut self) -> Result<Suffix, StatementFault>
        ensures { ReadsValue result self.old self.new (spec.suffix_at self.old.source self.old.tokens self.old.at) }
    {
        if self.side() {
            self.side_first()
        } else if self.open() {
            self.delay_first()
        } else {
            Ok(Suffix::None)
        }
    }

    /// `side E` or `side E [E]`, after the word.
    #[tactic(auto, unfolding(crate::specs::Instructions::side_first))]
    fn side_first(&mut self) -> Result<Suffix, StatementFault>
        ensures { ReadsValue result self.old self.new (spec.side_first self.old.source self.old.tokens self.old.at) }
    {
        let side = self.expression()?;
        if !self.open() {
            return Ok(Suffix::Side(side));
        }
        let delay = self.delay()?;
        Ok(Suffix::SideDelay { side, delay })
    }

    /// `[E]` or `[E] side E`, after the `[`.
    #[tactic(auto, unfolding(crate::specs::Instructions::delay_first))]
    fn delay_first(&mut self) -> Result<Suffix, StatementFault>
        ensures { ReadsValue result self.old self.new (spec.delay_first self.old.source self.old.tokens self.old.at) }
    {
        let delay = self.delay()?;
        if !self.side() {
            return Ok(Suffix::Delay(delay));
        }
        let side = self.expression()?;
        Ok(Suffix::DelaySide { delay, side })
    }

    /// A delay after its `[`: `E ]`.
    #[tactic(auto, unfolding(crate::specs::Instructions::delay_at))]
    fn delay(&mut self) -> Result<Expr, StatementFault>
        ensures { ReadsValue result self.old self.new (spec.delay_at self.old.source self.old.tokens self.old.at) }
    {
        let delay = self.expression()?;
        self.close()?;
        Ok(delay)
    }
}
