//! The words that may be left out: where one is, nothing is taken.
ghost use Rattle.pio_statement.specs.Cursor.{ReadsOptional};
ghost use Rattle.pio_statement.specs.Operands as spec;

use crate::IrqMode;
use crate::cursor::Cursor;
use pio_encode::MovOperation;
use pio_lex::{Keyword, TokenKind};

impl<'a> Cursor<'a> {
    /// What an IRQ does: `set nowait wait clear`.
    #[tactic(auto, unfolding(crate::specs::Operands::irq_mode_at, crate::specs::Tokens::keyword_at))]
    pub fn irq_mode(&mut self) -> IrqMode
        ensures { ReadsOptional result self.old self.new (spec.irq_mode_at self.old.tokens self.old.at) }
    {
        match self.kind() {
            Some(TokenKind::Keyword(Keyword::Set | Keyword::NoWait)) => {
                self.advance();
                IrqMode::Raise
            }
            Some(TokenKind::Keyword(Keyword::Wait)) => {
                self.advance();
                IrqMode::RaiseAndWait
            }
            Some(TokenKind::Keyword(Keyword::Clear)) => {
                self.advance();
                IrqMode::Lower
            }
            _ => IrqMode::Raise,
        }
    }

    /// Whether a PUSH or a PULL stalls: `block noblock`.
    #[tactic(auto, unfolding(crate::specs::Operands::blocking_at, crate::specs::Tokens::keyword_at))]
    pub fn blocking(&mut self) -> bool
        ensures { ReadsOptional result self.old self.new (spec.blocking_at self.old.tokens self.old.at) }
    {
        match self.kind() {
            Some(TokenKind::Keyword(Keyword::Block)) => {
                self.advance();
                true
            }
            Some(TokenKind::Keyword(Keyword::NoBlock)) => {
                self.advance();
                false
            }
            _ => true,
        }
    }

    /// `iffull`
    #[tactic(auto, unfolding(crate::specs::Operands::if_full_at, crate::specs::Tokens::keyword_at))]
    pub fn if_full(&mut self) -> bool
        ensures { ReadsOptional result self.old self.new (spec.if_full_at self.old.tokens self.old.at) }
    {
        match self.kind() {
            Some(TokenKind::Keyword(Keyword::IfFull)) => {
                self.advance();
                true
            }
            _ => false,
        }
    }

    /// `ifempty`
    #[tactic(auto, unfolding(crate::specs::Operands::if_empty_at, crate::specs::Tokens::keyword_at))]
    pub fn if_empty(&mut self) -> bool
        ensures { ReadsOptional result self.old self.new (spec.if_empty_at self.old.tokens self.old.at) }
    {
        match self.kind() {
            Some(TokenKind::Keyword(Keyword::IfEmpty)) => {
                self.advance();
                true
            }
            _ => false,
        }
    }

    /// `rel`
    #[tactic(auto, unfolding(crate::specs::Operands::relative_at, crate::specs::Tokens::keyword_at))]
    pub fn relative(&mut self) -> bool
        ensures { ReadsOptional result self.old self.new (spec.relative_at self.old.tokens self.old.at) }
    {
        match self.kind() {
            Some(TokenKind::Keyword(Keyword::Rel)) => {
                self.advance();
                true
            }
            _ => false,
        }
    }

    /// `opt`
    #[tactic(auto, unfolding(crate::specs::Operands::opt_at, crate::specs::Tokens::keyword_at))]
    pub fn opt(&mut self) -> bool
        ensures { ReadsOptional result self.old self.new (spec.opt_at self.old.tokens self.old.at) }
    {
        match self.kind() {
            Some(TokenKind::Keyword(Keyword::Opt)) => {
                self.advance();
                true
            }
            _ => false,
        }
    }

    /// `pindirs`
    #[tactic(auto, unfolding(crate::specs::Operands::pindirs_at, crate::specs::Tokens::keyword_at))]
    pub fn pindirs(&mut self) -> bool
        ensures { ReadsOptional result self.old self.new (spec.pindirs_at self.old.tokens self.old.at) }
    {
        match self.kind() {
            Some(TokenKind::Keyword(Keyword::Pindirs)) => {
                self.advance();
                true
            }
            _ => false,
        }
    }

    /// `public`
    #[tactic(auto, unfolding(crate::specs::Operands::public_at, crate::specs::Tokens::keyword_at))]
    pub fn public(&mut self) -> bool
        ensures { ReadsOptional result self.old self.new (spec.public_at self.old.tokens self.old.at) }
    {
        match self.kind() {
            Some(TokenKind::Keyword(Keyword::Public)) => {
                self.advance();
                true
            }
            _ => false,
        }
    }

    /// What a MOV does to the word: `! ~ ::`, or nothing.
    #[tactic(auto, unfolding(crate::specs::Operands::operation_at))]
    pub fn operation(&mut self) -> MovOperation
        ensures { ReadsOptional result self.old self.new (spec.operation_at self.old.tokens self.old.at) }
    {
        match self.kind() {
            Some(TokenKind::Bang | TokenKind::Tilde) => {
                self.advance();
                MovOperation::Invert
            }
            Some(TokenKind::DoubleColon) => {
                self.advance();
                MovOperation::Reverse
            }
            _ => MovOperation::Plain,
        }
    }
}
