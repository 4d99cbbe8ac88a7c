//! The tokens of a pioasm source.
#![tactic(auto)]

mod bytes;
mod directive;
mod fault;
mod gap;
mod keyword;
mod laws;
mod lexer;
mod number;
mod piece;
mod spelling;
mod table;
mod token;

pub use directive::Directive;
pub use fault::{LexFault, LexKind};
pub use keyword::Keyword;
pub use laws::{every_source_has_one_reading, tokens_are_the_longest_spellings};
pub use lexer::tokens;
pub use token::{Token, TokenKind};
