//! From the bytes of a source to its tokens.
ghost use Rattle.std.specs.Prelude.{◌≡◌, ℕ, List, ◌++◌, Ok, Err, IfOk, OnOk, IfErr, length};
ghost use Rattle.std.specs.List.{All};
ghost use Rattle.pio_lex.specs.declared.fault.LexKind.{LexKind};
ghost use Rattle.pio_lex.specs.declared.token.Token.{Token};
ghost use Rattle.pio_lex.specs.Tokens.{IsTokens, IsTokenOf, IsFirstFault, AreInOrder, tokens_of, last_kind};
ghost use Rattle.pio_lex.specs.Answers.{IsFaultOf, Gives};
ghost use Rattle.pio_lex.specs.Reading.{reading_of};

use crate::bytes::newlines;
use crate::piece::{Piece, next_piece};
use crate::{LexFault, Token, TokenKind};
use std::alloc::Global;

/// The tokens of a source, which may be any bytes, or its first fault.
///
/// It takes time in proportion to the source's length, and one growing vector.
pub fn tokens(alloc: Global, source: &[u8]) -> Result<Vec<Token>, LexFault>
    // What is returned are the source's tokens.
    ensures ok { IfOk result (λ v. IsTokens source.now v.items) }
    // A source that has tokens gets them, unless memory runs out.
    ensures only { (t : List Token) → IsTokens source.now t → Gives (λ v. v.items) result (Ok t) }
    // A fault is the source's first one.
    ensures fault { IfErr result (λ fault. IsFaultOf source.now fault) }
    // A source that has a fault gets it, unless memory runs out.
    ensures fault_only { (line : ℕ) (kind : LexKind) → IsFirstFault source.now line kind
        → Gives (λ v. v.items) result (Err (record { line = line; kind = kind })) }
    // The tokens or the fault are those of the source's reading, unless memory runs out.
    ensures value { Gives (λ v. v.items) result (reading_of source.now) }
    // Each token comes after the one before.
    ensures in_order { IfOk result (λ v. AreInOrder 0 v.items (length source.now)) }
    // Each token is what its text spells, within the source and on its line.
    ensures each { IfOk result (λ v. All (IsTokenOf source.now) v.items) }
{
    read(alloc, source)
}

fn read(alloc: Global, source: &[u8]) -> Result<Vec<Token>, LexFault>
    ensures ok { IfOk result (λ v. IsTokens source.now v.items) }
    ensures fault { IfErr result (λ fault. IsFaultOf source.now fault) }
    ensures in_order { IfOk result (λ v. AreInOrder 0 v.items (length source.now)) }
{
    let mut tokens = Vec::new(alloc);
    let mut at = 0;
    let mut line = 1;
    while at < source.len() {
        let text = &source[at..];
        let piece = match next_piece(text, last_kind(&tokens)) {
            Ok(piece) => piece,
            Err(kind) => return Err(LexFault::Found { line, kind }),
        };
        add(&mut tokens, piece, line, at)?;
        line += newlines(&text[..piece.size()]);
        at += piece.size();
    }
    Ok(tokens)
}

fn last_kind(tokens: &[Token]) -> Option<TokenKind>
    ensures { result ≡ last_kind tokens.now }
{
    tokens.last().map(|token| token.kind)
}

/// Adds the token that a piece is, where it is one.
fn add(tokens: &mut Vec<Token>, piece: Piece, line: usize, at: usize) -> Result<(), LexFault>
    ensures ok { OnOk result (tokens.new.items ≡ tokens.old.items ++ tokens_of line at piece) }
    ensures memory { IfErr result (λ fault. fault ≡ LexFault.Memory) }
{
    if let Piece::Token(kind, length) = piece {
        tokens.push(Token {
            kind,
            line,
            first: at,
            length,
        })?;
    }
    Ok(())
}
