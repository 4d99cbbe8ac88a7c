//! The text of a name, and what is told of a fault of an expression.
ghost use Rattle.std.specs.Prelude.{◌≡◌, ◌+◌, slice_range, IfOk, IfErr};
ghost use Rattle.pio_lex.specs.Tokens.{IsTokenOf};
ghost use Rattle.pio_lex.specs.declared.token.TokenKind.TheVariants as kind;
ghost use Rattle.pio_statement.specs.Tokens as spec;

use crate::{StatementFault, StatementKind};
use pio_encode::Name;
use pio_expr::{ExprKind, a_name_is_a_text};
use pio_lex::Token;
use std::alloc::Global;

/// A name as it is in the source.
pub fn text(alloc: Global, source: &[u8], token: &Token) -> Result<Name, StatementFault>
    requires token { IsTokenOf source.now token.now }
    requires name { token.now.kind ≡ kind.Name }
    ensures ok { IfOk result (λ n. n
        ≡ slice_range source.now token.now.first (token.now.first + token.now.length)) }
    ensures memory { IfErr result (λ fault. fault ≡ StatementFault.Memory) }
{
    a_name_is_a_text();
    let text = &source[token.first..token.first + token.length];
    Ok(Name::new(String::from_utf8_lossy(alloc, text)?))
}

/// What is told of a fault of an expression.
pub fn kind_of(kind: ExprKind) -> StatementKind
    ensures { result ≡ spec.kind_of kind }
{
    match kind {
        ExprKind::Syntax => StatementKind::Syntax,
        ExprKind::TooDeep => StatementKind::TooDeep,
        ExprKind::Ambiguous => StatementKind::Ambiguous,
    }
}
