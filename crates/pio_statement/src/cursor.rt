//! A cursor among the tokens of a source. A method that takes tokens leaves it after them.
ghost use Rattle.std.specs.Prelude.{◌≡◌, ◌+◌, ◌<◌, length, slice_get, IfSome};
ghost use Rattle.std.specs.List.{All};
ghost use Rattle.pio_lex.specs.Tokens.{IsTokenOf};
ghost use Rattle.pio_statement.specs.Cursor.{MovesTo, ReadsValue, ReadsWord, PassesToken, Enters};
ghost use Rattle.pio_statement.specs.Tokens as spec;

use crate::StatementFault;
use crate::value::{kind_of, text};
use pio_encode::Name;
use pio_expr::{Expr, ExprFault, parse_expr};
use pio_lex::{Keyword, Token, TokenKind};
use std::alloc::Global;
use std::marker::Model;

/// A place among the tokens of a source. Names and expressions alone take memory.
#[derive(Drop)]
pub struct Cursor<'a> {
    alloc: Global,
    source: &'a [u8],
    tokens: &'a [Token],
    /// The next token.
    at: usize,
}

impl<'a> Model for Cursor<'a> {
    ghost use Rattle.std.specs.List.{All};
    ghost use Rattle.pio_lex.specs.Tokens.{IsTokenOf};
    ghost use Rattle.pio_statement.specs.Cursor.{Position};

    ghost Value = { Position };

    ghost view = { λ c. record { source = c.source.now; tokens = c.tokens.now; at = c.at } };

    ghost invariant = { λ c. All (IsTokenOf c.source.now) c.tokens.now };
}

impl<'a> Cursor<'a> {
    /// At a token of a source, or after the last one.
    pub fn new(alloc: Global, source: &'a [u8], tokens: &'a [Token], at: usize) -> Cursor<'a>
        requires { All (IsTokenOf source.now) tokens.now }
        ensures { result ≡ record { source = source.now; tokens = tokens.now; at = at } }
    {
        Cursor {
            alloc,
            source,
            tokens,
            at,
        }
    }

    /// What the next token is.
    #[tactic(auto, unfolding(crate::specs::Tokens::kind_at))]
    pub fn kind(&self) -> Option<TokenKind>
        ensures value { result ≡ spec.kind_at self.now.tokens self.now.at }
        ensures inside { IfSome result (λ _. self.now.at < length self.now.tokens) }
    {
        match self.tokens.get(self.at) {
            Some(token) => Some(token.kind),
            None => None,
        }
    }

    /// Goes past the next token.
    pub fn advance(&mut self)
        requires { self.old.at < length self.old.tokens }
        ensures { MovesTo self.old self.new (self.old.at + 1) }
    {
        self.at += 1;
    }

    /// Whether the line ends here.
    #[tactic(auto, unfolding(crate::specs::Tokens::ends_at))]
    pub fn is_at_end(&self) -> bool
        ensures { result ≡ spec.ends_at self.now.tokens self.now.at }
    {
        matches!(self.kind(), None | Some(TokenKind::Newline))
    }

    /// A keyword.
    #[tactic(auto, unfolding(crate::specs::Tokens::keyword_at))]
    pub fn keyword(&mut self) -> Result<Keyword, StatementFault>
        ensures { ReadsWord result self.old self.new (spec.keyword_at self.old.tokens self.old.at) }
    {
        match self.kind() {
            Some(TokenKind::Keyword(word)) => {
                self.advance();
                Ok(word)
            }
            _ => Err(StatementFault::SYNTAX),
        }
    }

    /// `,`, which may be left out.
    #[tactic(auto, unfolding(crate::specs::Tokens::past_comma))]
    pub fn comma(&mut self)
        ensures { MovesTo self.old self.new (spec.past_comma self.old.tokens self.old.at) }
    {
        if let Some(TokenKind::Comma) = self.kind() {
            self.advance();
        }
    }

    /// `:`
    #[tactic(auto, unfolding(crate::specs::Tokens::past_colon))]
    pub fn colon(&mut self) -> Result<(), StatementFault>
        ensures { PassesToken result self.old self.new (spec.past_colon self.old.tokens self.old.at) }
    {
        match self.kind() {
            Some(TokenKind::Colon) => {
                self.advance();
                Ok(())
            }
            _ => Err(StatementFault::SYNTAX),
        }
    }

    /// `]`
    #[tactic(auto, unfolding(crate::specs::Tokens::past_close))]
    pub fn close(&mut self) -> Result<(), StatementFault>
        ensures { PassesToken result self.old self.new (spec.past_close self.old.tokens self.old.at) }
    {
        match self.kind() {
            Some(TokenKind::CloseBracket) => {
                self.advance();
                Ok(())
            }
            _ => Err(StatementFault::SYNTAX),
        }
    }

    /// Whether a `[` is here.
    #[tactic(auto, unfolding(crate::specs::Tokens::past_open))]
    pub fn open(&mut self) -> bool
        ensures { Enters result self.old self.new (spec.past_open self.old.tokens self.old.at) }
    {
        match self.kind() {
            Some(TokenKind::OpenBracket) => {
                self.advance();
                true
            }
            _ => false,
        }
    }

    /// Whether the word `side` is here.
    #[tactic(auto, unfolding(crate::specs::Tokens::past_side, crate::specs::Tokens::keyword_at))]
    pub fn side(&mut self) -> bool
        ensures { Enters result self.old self.new (spec.past_side self.old.tokens self.old.at) }
    {
        match self.kind() {
            Some(TokenKind::Keyword(Keyword::Side)) => {
                self.advance();
                true
            }
            _ => false,
        }
    }

    /// A name.
    #[tactic(auto, unfolding(crate::specs::Tokens::name_at))]
    pub fn name(&mut self) -> Result<Name, StatementFault>
        ensures { ReadsValue result self.old self.new (spec.name_at self.old.source self.old.tokens self.old.at) }
    {
        let Some(token) = self.token() else {
            return Err(StatementFault::SYNTAX);
        };
        match token.kind {
            TokenKind::Name => {
                let name = text(self.alloc, self.source, &token)?;
                self.at += 1;
                Ok(name)
            }
            _ => Err(StatementFault::SYNTAX),
        }
    }

    fn token(&self) -> Option<Token>
        ensures { result ≡ slice_get self.now.tokens self.now.at }
    {
        self.tokens.get(self.at).copied()
    }

    /// An expression.
    #[tactic(auto, using(crate::proofs::Outside::outside), unfolding(crate::specs::Tokens::expression))]
    pub fn expression(&mut self) -> Result<Expr, StatementFault>
        ensures { ReadsValue result self.old self.new (spec.expression self.old.source self.old.tokens self.old.at) }
    {
        // An expression has a token at least.
        if self.at >= self.tokens.len() {
            return Err(StatementFault::SYNTAX);
        }
        match parse_expr(self.alloc, self.source, self.tokens, self.at) {
            Ok((expression, after)) => {
                self.at = after;
                Ok(expression)
            }
            Err(ExprFault::Memory) => Err(StatementFault::Memory),
            Err(ExprFault::At { kind, .. }) => Err(StatementFault::Found(kind_of(kind))),
        }
    }
}
