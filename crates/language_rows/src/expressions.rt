//! The first expression of a source.
use crate::statement_texts::tell_expr;
use pio_expr::{Expr, ExprFault, parse_expr};
use pio_lex::tokens;
use std::alloc::Global;

/// Adds the source's first expression and the token after it, or its fault and the token of that.
pub fn tell_expression(alloc: Global, source: &[u8], text: &mut String) -> Option<()> {
    let tokens = tokens(alloc, source).ok()?;
    tell_read(&parse_expr(alloc, source, &tokens, 0), text)
}

fn tell_read(read: &Result<(Expr, usize), ExprFault>, text: &mut String) -> Option<()> {
    match read {
        Ok((expr, after)) => {
            tell_expr(expr, text).ok()?;
            write!(text, " @{after}").ok()
        }
        Err(ExprFault::At { place, kind }) => write!(text, "{kind:?} @{place}").ok(),
        Err(ExprFault::Memory) => None,
    }
}
