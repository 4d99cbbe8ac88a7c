//! The tokens of a source.
use pio_lex::{LexFault, Token, tokens};
use std::alloc::{AllocError, Global};

/// Adds the texts of the source's tokens, or its first fault after its line.
pub fn tell_tokens(alloc: Global, source: &[u8], text: &mut String) -> Option<()> {
    match tokens(alloc, source) {
        Ok(tokens) => tell_texts(alloc, source, &tokens, text),
        Err(fault) => tell_fault(fault, text),
    }
}

/// Adds how many tokens the source has, or its first fault after its line.
pub fn tell_number(alloc: Global, source: &[u8], text: &mut String) -> Option<()> {
    match tokens(alloc, source) {
        Ok(tokens) => write!(text, "{}", tokens.len()).ok(),
        Err(fault) => tell_fault(fault, text),
    }
}

fn tell_fault(fault: LexFault, text: &mut String) -> Option<()> {
    match fault {
        LexFault::Found { line, kind } => write!(text, "{line} {kind}").ok(),
        LexFault::Memory => None,
    }
}

fn tell_texts(alloc: Global, source: &[u8], tokens: &[Token], text: &mut String) -> Option<()> {
    for token in tokens {
        if !text.is_empty() {
            text.push_str(" ").ok()?;
        }
        let end = token.first.saturating_add(token.length);
        let shown = source.get(token.first..end)?;
        let shown = String::from_utf8_lossy(alloc, shown).ok()?;
        text.push_str(shown.as_str()).ok()?;
    }
    Some(())
}

/// Adds the kind, the line, the place and the length of each of the source's tokens, with a newline between.
pub fn tell_places(alloc: Global, source: &[u8], text: &mut String) -> Option<()> {
    let tokens = tokens(alloc, source).ok()?;
    for token in &tokens {
        tell_place(token, text).ok()?;
    }
    Some(())
}

fn tell_place(token: &Token, text: &mut String) -> Result<(), AllocError> {
    let gap = if text.is_empty() { "" } else { "\n" };
    write!(
        text,
        "{gap}{:?} {} {} {}",
        token.kind, token.line, token.first, token.length
    )
}
