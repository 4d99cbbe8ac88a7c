//! The condition of a JMP: `!x  x--  !y  y--  x!=y  pin  !osre`, or none. `~` equals `!`.
ghost use Rattle.pio_statement.specs.Cursor.{MovesTo, ReadsValue};
ghost use Rattle.pio_statement.specs.Conditions as spec;

use crate::StatementFault;
use crate::cursor::Cursor;
use pio_encode::Condition;
use pio_lex::{Keyword, TokenKind};

impl<'a> Cursor<'a> {
    /// A condition, or none.
    #[tactic(auto, unfolding(crate::specs::Conditions::condition_at))]
    pub fn condition(&mut self) -> Result<Condition, StatementFault>
        ensures { ReadsValue result self.old self.new (spec.condition_at self.old.tokens self.old.at) }
    {
        match self.kind() {
            Some(TokenKind::Bang | TokenKind::Tilde) => {
                self.advance();
                self.inverted()
            }
            Some(TokenKind::Keyword(word)) => {
                self.advance();
                self.after_word(word)
            }
            _ => Ok(Condition::Always),
        }
    }

    /// The comma of a condition, which may be left out; without a condition there is no comma.
    pub fn condition_comma(&mut self, condition: Condition)
        ensures { MovesTo self.old self.new (spec.past_condition self.old.tokens condition self.old.at) }
    {
        match condition {
            Condition::Always => {}
            _ => self.comma(),
        }
    }

    /// A condition after its `!` or `~`.
    #[tactic(auto, unfolding(crate::specs::Conditions::inverted_at))]
    fn inverted(&mut self) -> Result<Condition, StatementFault>
        ensures { ReadsValue result self.old self.new (spec.inverted_at self.old.tokens self.old.at) }
    {
        match self.keyword()? {
            Keyword::X => Ok(Condition::XZero),
            Keyword::Y => Ok(Condition::YZero),
            Keyword::Osre => Ok(Condition::OsrNotEmpty),
            _ => Err(StatementFault::SYNTAX),
        }
    }

    /// A condition after its first word; no expression begins with a word.
    fn after_word(&mut self, word: Keyword) -> Result<Condition, StatementFault>
        ensures { ReadsValue result self.old self.new (spec.after_word self.old.tokens word self.old.at) }
    {
        match word {
            Keyword::X => self.after_x(),
            Keyword::Y => self.after_y(),
            Keyword::Pin => Ok(Condition::Pin),
            _ => Err(StatementFault::SYNTAX),
        }
    }

    /// After `x`: `--`, or `!=` and `y`.
    #[tactic(auto, unfolding(crate::specs::Conditions::after_x))]
    fn after_x(&mut self) -> Result<Condition, StatementFault>
        ensures { ReadsValue result self.old self.new (spec.after_x self.old.tokens self.old.at) }
    {
        match self.kind() {
            Some(TokenKind::MinusMinus) => {
                self.advance();
                Ok(Condition::XDecrement)
            }
            Some(TokenKind::NotEqual) => {
                self.advance();
                self.differs()
            }
            _ => Err(StatementFault::SYNTAX),
        }
    }

    /// After `x!=`: `y`.
    #[tactic(auto, unfolding(crate::specs::Conditions::differs_at))]
    fn differs(&mut self) -> Result<Condition, StatementFault>
        ensures { ReadsValue result self.old self.new (spec.differs_at self.old.tokens self.old.at) }
    {
        match self.keyword()? {
            Keyword::Y => Ok(Condition::XNotY),
            _ => Err(StatementFault::SYNTAX),
        }
    }

    /// After `y`: `--`.
    #[tactic(auto, unfolding(crate::specs::Conditions::after_y))]
    fn after_y(&mut self) -> Result<Condition, StatementFault>
        ensures { ReadsValue result self.old self.new (spec.after_y self.old.tokens self.old.at) }
    {
        match self.kind() {
            Some(TokenKind::MinusMinus) => {
                self.advance();
                Ok(Condition::YDecrement)
            }
            _ => Err(StatementFault::SYNTAX),
        }
    }
}
