//! Rows of tokens, expressions, values, statements, sources and configurations: a source, and what it gives.

use crate::configs::{tell_default, tell_fault, tell_kind, tell_second, tell_setup};
use crate::expressions::tell_expression;
use crate::programs::{tell_shapes, tell_words};
use crate::statements::tell_lines;
use crate::tokens::{tell_number, tell_places, tell_tokens};
use crate::values::tell_value;
use row_tables::{RowKind, Shape, Telling, found};
use std::alloc::Global;
use std::rt::Files;

/// What is asked of a source.
#[derive(Clone, Copy)]
pub enum LanguageKind {
    /// Its tokens, with a blank between, or the first fault after its line.
    Tokens,
    /// Its tokens, each with its kind, line, place and length.
    TokenPlaces,
    /// How many tokens it has, or the first fault after its line.
    TokenNumber,
    /// Its first expression in postfix order, with `~` for a sign, and the token after it; or its first fault, and the token
    /// of that.
    Expression,
    /// The value of an expression under symbols, or its first fault.
    Value,
    /// Its lines, each its statement or what is wrong with it.
    Statements,
    /// Its programs with their words, or the first fault after its line.
    Words,
    /// Its programs with their origins, side-set bits, wraps and symbols, or the first fault after its line.
    Shapes,
    /// The first fault of a configuration, or `ok`.
    ConfigFault,
    /// The same, and its kind.
    ConfigKind,
    /// What the setup of a configuration says.
    Setup,
    /// What the configuration of a second block says, or its first fault.
    SecondSetup,
    /// What the default setup of a source says, or its fault.
    DefaultSetup,
}

/// The kinds with their names.
static LANGUAGE_KINDS: [(&str, LanguageKind); 13] = [
    ("tokens", LanguageKind::Tokens),
    ("places of tokens", LanguageKind::TokenPlaces),
    ("numbers of tokens", LanguageKind::TokenNumber),
    ("expressions", LanguageKind::Expression),
    ("values", LanguageKind::Value),
    ("statements", LanguageKind::Statements),
    ("words of sources", LanguageKind::Words),
    ("shapes of programs", LanguageKind::Shapes),
    ("configurations", LanguageKind::ConfigFault),
    ("kinds of faults", LanguageKind::ConfigKind),
    ("setups", LanguageKind::Setup),
    ("second setups", LanguageKind::SecondSetup),
    ("default setups", LanguageKind::DefaultSetup),
];

impl RowKind for LanguageKind {
    fn named(name: &str) -> Option<LanguageKind> {
        found(&LANGUAGE_KINDS, name)
    }

    fn shape(self) -> Shape {
        Shape::Line
    }

    fn tell<R: Files>(self, _: &R, alloc: Global, row: &[u8], told: &mut Telling) -> Option<()> {
        tell_source(alloc, self, row, &mut told.seen)
    }
}

/// Adds what a source gives; none where memory runs out, or the source is none of its table's kind.
fn tell_source(alloc: Global, kind: LanguageKind, source: &[u8], text: &mut String) -> Option<()> {
    match kind {
        LanguageKind::Tokens => tell_tokens(alloc, source, text),
        LanguageKind::TokenPlaces => tell_places(alloc, source, text),
        LanguageKind::TokenNumber => tell_number(alloc, source, text),
        LanguageKind::Expression => tell_expression(alloc, source, text),
        LanguageKind::Value => tell_value(alloc, source, text),
        LanguageKind::Statements => tell_lines(alloc, source, text),
        LanguageKind::Words => tell_words(alloc, source, text),
        LanguageKind::Shapes => tell_shapes(alloc, source, text),
        LanguageKind::ConfigFault => tell_fault(alloc, source, text),
        LanguageKind::ConfigKind => tell_kind(alloc, source, text),
        LanguageKind::Setup => tell_setup(alloc, source, text),
        LanguageKind::SecondSetup => tell_second(alloc, source, text),
        LanguageKind::DefaultSetup => tell_default(alloc, source, text),
    }
}
