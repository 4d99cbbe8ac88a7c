//! A token: what it is, and where it is in its source.

use crate::{Directive, Keyword};

/// What a token is.
#[derive(Clone, Copy, Debug)]
pub enum TokenKind {
    /// A line ends here.
    Newline,
    /// A symbol, in the case in which it is.
    Name,
    Keyword(Keyword),
    Directive(Directive),
    /// 0 to 2147483647.
    Number(u32),
    /// `,`
    Comma,
    /// `:`
    Colon,
    /// `::`
    DoubleColon,
    /// `[`
    OpenBracket,
    /// `]`
    CloseBracket,
    /// `(`
    OpenParen,
    /// `)`
    CloseParen,
    /// `+`
    Plus,
    /// `-`
    Minus,
    /// `--`
    MinusMinus,
    /// `*`
    Star,
    /// `/`
    Slash,
    /// `!`
    Bang,
    /// `!=`
    NotEqual,
    /// `~`
    Tilde,
}

/// A token of a source. Its text is `length` bytes of the source, from the byte `first` on.
#[derive(Clone, Copy)]
pub struct Token {
    pub kind: TokenKind,
    /// The line of its first byte, counted from 1.
    pub line: usize,
    /// The place of its first byte, counted from 0.
    pub first: usize,
    /// How many bytes it has, at least one.
    pub length: usize,
}
