//! The lines of a source, each with its statement or why it is none.
ghost use Rattle.std.specs.Prelude.{◌≡◌, ◌<◌, length, IfOk, IfErr};
ghost use Rattle.std.specs.List.{All};
ghost use Rattle.pio_lex.specs.Tokens.{IsTokenOf};
ghost use Rattle.pio_assemble.specs.Lines.{lines_of, line_at};

use crate::SourceFault;
use crate::line::SourceLine;
use pio_lex::Token;
use pio_statement::{StatementFault, line_end, read_statement};
use std::alloc::Global;

/// All lines of a source with these tokens.
pub fn read_lines(
    alloc: Global,
    source: &[u8],
    tokens: &[Token],
) -> Result<Vec<SourceLine>, SourceFault>
    requires { All (IsTokenOf source.now) tokens.now }
    ensures lines { IfOk result (λ v. v.items ≡ lines_of source.now tokens.now) }
    ensures memory { IfErr result (λ fault. fault ≡ SourceFault.Memory) }
{
    let mut lines = Vec::new(alloc);
    let mut at = 0;
    while let Some(first) = tokens.get(at) {
        lines.push(line(alloc, source, tokens, at, first)?)?;
        at = line_end(tokens, at);
    }
    Ok(lines)
}

/// The line that begins at a token, `first`.
fn line(
    alloc: Global,
    source: &[u8],
    tokens: &[Token],
    from: usize,
    first: &Token,
) -> Result<SourceLine, SourceFault>
    requires tokens { All (IsTokenOf source.now) tokens.now }
    requires from { from < length tokens.now }
    ensures line { IfOk result (λ line. line ≡ line_at source.now tokens.now from first.now) }
    ensures memory { IfErr result (λ fault. fault ≡ SourceFault.Memory) }
{
    let reading = match read_statement(alloc, source, tokens, from) {
        Ok((statement, _)) => Ok(statement),
        Err(StatementFault::Found(kind)) => Err(kind),
        Err(StatementFault::Memory) => return Err(SourceFault::Memory),
    };
    Ok(SourceLine {
        number: first.line,
        reading,
    })
}
