//! The fields of a line: what comes before `#`, parted by blanks (choice of this profile).
ghost use Rattle.std.specs.Prelude.{◌≡◌, ◌∷◌, [], drop, false, length, option_copied, slice_get, MatchOption};
ghost use Rattle.byte_lines.specs.Lines.{lines_left};
ghost use Rattle.dreq_pacing.specs.Fields as spec;

use byte_lines::{first_line, is_blank};
use std::marker::Model;

/// What is still to be read of a text, which contracts see as the fields of its first line and the lines after that.
#[derive(Drop)]
pub struct Fields<'a> {
    rest: &'a [u8],
}

impl<'a> Model for Fields<'a> {
    ghost use Rattle.dreq_pacing.specs.Fields.{Rest, rest_of};

    ghost Value = { Rest };

    ghost view = { λ f. rest_of f.rest.now };
}

impl<'a> Fields<'a> {
    /// The fields of a text's first line.
    pub fn of_text(text: &'a [u8]) -> Fields<'a>
        ensures { result ≡ spec.rest_of text.now }
    {
        Fields { rest: text }
    }

    /// The next field of the line, if there is one.
    pub fn next(&mut self) -> Option<&'a [u8]>
        ensures cases { MatchOption result (self.old.fields ≡ [])
            (λ field. self.old.fields ≡ field.now ∷ self.new.fields) }
        ensures field { option_copied result ≡ slice_get self.old.fields 0 }
        ensures rest { self.new.fields ≡ drop 1 self.old.fields }
        ensures left { self.new.left ≡ self.old.left }
    {
        let (field, rest) = first_part(after_blanks(self.rest));
        self.rest = rest;
        if field.is_empty() { None } else { Some(field) }
    }

    /// Whether no field of the line is left.
    pub fn is_done(&self) -> bool
        ensures { result ≡ spec.no_fields self.now.fields }
    {
        is_over(after_blanks(self.rest))
    }

    /// The same fields, to be read once more.
    pub fn again(&self) -> Fields<'a>
        ensures { result ≡ self.now }
    {
        Fields { rest: self.rest }
    }

    /// The lines after this one, where there is one. It is quick once all fields are read.
    pub fn after_line(&self) -> Option<&'a [u8]>
        ensures { lines_left (option_copied result) ≡ self.now.left }
    {
        let (_, after) = first_line(self.rest);
        after
    }
}

/// A text without the blanks that it begins with.
fn after_blanks(text: &[u8]) -> &[u8]
    ensures same { spec.rest_of result.now ≡ spec.rest_of text.now }
    ensures none { spec.starts_blank result.now ≡ false }
{
    for (at, byte) in text.iter().enumerate() {
        if !is_blank(*byte) {
            return &text[at..];
        }
    }
    &[]
}

/// Whether a text has no field in its first line, where it begins with no blank.
#[tactic(auto, using(crate::proofs::Parts::over_is))]
fn is_over(text: &[u8]) -> bool
    requires { spec.starts_blank text.now ≡ false }
    ensures { result ≡ spec.no_fields (spec.rest_of text.now).fields }
{
    match text {
        [] => true,
        [byte, ..] => *byte == b'\n' || *byte == b'#',
    }
}

/// What comes before the first byte that parts fields, and what comes from that byte on.
fn first_part(text: &[u8]) -> (&[u8], &[u8])
    requires { spec.starts_blank text.now ≡ false }
    ensures parts { spec.rest_of text.now ≡ spec.with_part result.0.now (spec.rest_of result.1.now) }
    ensures none { length result.0.now ≡ 0 → (spec.rest_of text.now).fields ≡ [] }
{
    for (at, byte) in text.iter().enumerate() {
        if parts_fields(*byte) {
            return (&text[..at], &text[at..]);
        }
    }
    (text, &[])
}

/// Whether a byte parts fields: a blank, a newline, or the `#` of a comment.
fn parts_fields(byte: u8) -> bool
    ensures { result ≡ spec.parts_fields byte }
{
    is_blank(byte) || byte == b'\n' || byte == b'#'
}
