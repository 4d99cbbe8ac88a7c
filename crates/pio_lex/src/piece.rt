//! The pieces of a source, of which it is made one after the other.
ghost use Rattle.std.specs.Prelude.{◌≡◌, ◌<◌, length, IfOk};
ghost use Rattle.pio_lex.specs.Pieces as spec;
ghost use Rattle.pio_lex.specs.Pieces.{IsPieceLength, size};

use crate::gap::gap;
use crate::spelling::token;
use crate::{LexKind, TokenKind};

/// What is at a place of a source, and how many bytes it has.
#[derive(Clone, Copy)]
pub enum Piece {
    /// A blank, a comment, a foreign block, or the rest of a line after `.lang_opt`.
    Gap(usize),
    Token(TokenKind, usize),
}

impl Piece {
    /// How many bytes it has.
    pub fn size(self) -> usize
        ensures { result ≡ spec.size self }
    {
        match self {
            Piece::Gap(size) => size,
            Piece::Token(_, length) => length,
        }
    }
}

/// The piece that the text begins with, after a token of the kind `last`.
#[tactic(auto, unfolding(crate::specs::Pieces::piece_at))]
pub fn next_piece(text: &[u8], last: Option<TokenKind>) -> Result<Piece, LexKind>
    requires { 0 < length text.now }
    ensures value { result ≡ spec.piece_at last text.now }
    ensures within { IfOk result (λ piece. IsPieceLength (size piece) text.now) }
{
    if let Some(size) = gap(text, last)? {
        return Ok(Piece::Gap(size));
    }
    let (kind, length) = token(text)?;
    Ok(Piece::Token(kind, length))
}
