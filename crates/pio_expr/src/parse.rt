//! From tokens to an expression.
ghost use Rattle.std.specs.Prelude.{◌<◌, ◌≤◌, length, IfOk};
ghost use Rattle.std.specs.List.{All};
ghost use Rattle.pio_lex.specs.Tokens.{IsTokenOf};
ghost use Rattle.pio_expr.specs.Grammar.{expression_at};
ghost use Rattle.pio_expr.specs.Waiting.{Answers};

use crate::postfix::ExprReading;
use crate::{Expr, ExprFault};
use pio_lex::Token;
use std::alloc::Global;

/// The expression that begins at the token `from`, and the place of the token after it; or its first fault.
///
/// It takes time in proportion to the tokens that it reads, and doesn't recurse.
pub fn parse_expr(
    alloc: Global,
    source: &[u8],
    tokens: &[Token],
    from: usize,
) -> Result<(Expr, usize), ExprFault>
    requires tokens { All (IsTokenOf source.now) tokens.now }
    requires from { from ≤ length tokens.now }
    // The expression or the fault is the grammar's, unless memory runs out.
    ensures value { Answers result (expression_at source.now tokens.now from) }
    // It has a token at least, and ends among the tokens.
    ensures some { IfOk result (λ read. from < read.1) }
    ensures within { IfOk result (λ read. read.1 ≤ length tokens.now) }
{
    let mut reading = ExprReading::new(alloc);
    let mut wanted = true;
    let mut at = from;
    loop {
        match reading.step(alloc, source, tokens, at, wanted)? {
            Some(next) => wanted = next,
            None => return Ok((Expr::new(reading.items), at)),
        }
        at += 1;
    }
}
