//! The item of a token that is a value.
ghost use Rattle.std.specs.Prelude.{◌≡◌, IfOk, IfErr};
ghost use Rattle.pio_lex.specs.Tokens.{IsTokenOf};
ghost use Rattle.pio_expr.specs.declared.mark.TokenMark.TheVariants as mark;
ghost use Rattle.pio_expr.specs.Marks.{mark_of};
ghost use Rattle.pio_expr.specs.Grammar.{item_by};

use crate::{ExprFault, Item};
use pio_encode::Name;
use pio_lex::{Token, TokenKind};
use std::alloc::Global;

/// The item of a number or a name; it takes memory for a name's text.
pub fn token_item(alloc: Global, source: &[u8], token: &Token) -> Result<Item, ExprFault>
    requires token { IsTokenOf source.now token.now }
    requires value { mark_of token.now.kind ≡ mark.Value }
    ensures ok { IfOk result (λ i. i
        ≡ item_by source.now token.now.kind token.now.first token.now.length) }
    ensures memory { IfErr result (λ fault. fault ≡ ExprFault.Memory) }
{
    match token.kind {
        TokenKind::Number(value) => Ok(Item::Number(value as i32)),
        _ => {
            let text = &source[token.first..token.first + token.length];
            Ok(Item::Name(Name::new(String::from_utf8_lossy(alloc, text)?)))
        }
    }
}
