//! What a token is to an expression.
ghost use Rattle.std.specs.Prelude.{◌≡◌, slice_get};
ghost use Rattle.pio_expr.specs.Marks.{mark_at, mark_of};

use pio_lex::{Token, TokenKind};

/// What a token is to an expression.
#[derive(Clone, Copy)]
pub enum TokenMark {
    /// A number or a name.
    Value,
    Open,
    Close,
    Plus,
    Minus,
    Star,
    Slash,
    Reverse,
    /// Another token, or none.
    Other,
}

/// What the token at a place is.
#[tactic(auto, unfolding(crate::specs::Marks::mark_at))]
pub fn mark_at(tokens: &[Token], at: usize) -> TokenMark
    ensures { result ≡ mark_at tokens.now at }
{
    match tokens.get(at) {
        Some(token) => mark_of(token.kind),
        None => TokenMark::Other,
    }
}

fn mark_of(kind: TokenKind) -> TokenMark
    ensures { result ≡ mark_of kind }
{
    match kind {
        TokenKind::Number(_) | TokenKind::Name => TokenMark::Value,
        TokenKind::OpenParen => TokenMark::Open,
        TokenKind::CloseParen => TokenMark::Close,
        TokenKind::Plus => TokenMark::Plus,
        TokenKind::Minus => TokenMark::Minus,
        TokenKind::Star => TokenMark::Star,
        TokenKind::Slash => TokenMark::Slash,
        TokenKind::DoubleColon => TokenMark::Reverse,
        _ => TokenMark::Other,
    }
}
