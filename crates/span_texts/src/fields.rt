//! The fields of a line, which single blanks part.
ghost use Rattle.std.specs.Prelude.{◌≡◌, [], ◌∷◌, MatchOption, option_copied};
ghost use Rattle.span_texts.specs.Fields.{fields_left};
ghost use Rattle.span_texts.specs.TableLines as spec;

use std::marker::Model;

/// The fields of a line that are still to be read, which contracts see as their list.
#[derive(Drop)]
pub(crate) struct Fields<'a> {
    rest: Option<&'a [u8]>,
}

impl<'a> Model for Fields<'a> {
    ghost use Rattle.std.specs.Prelude.{ℕ, List, option_copied};
    ghost use Rattle.span_texts.specs.Fields.{fields_left};

    ghost Value = { List (List ℕ) };

    ghost view = { λ f. fields_left (option_copied f.rest) };
}

impl<'a> Fields<'a> {
    /// The fields of a line without its newline.
    pub(crate) fn of_line(line: &'a [u8]) -> Fields<'a>
        ensures { result ≡ spec.fields_of line.now }
    {
        Fields { rest: Some(line) }
    }

    /// The next field, if there is one.
    pub(crate) fn next(&mut self) -> Option<&'a [u8]>
        ensures { MatchOption result (self.old ≡ []) (λ field. self.old ≡ field.now ∷ self.new) }
    {
        match self.rest {
            None => None,
            Some(text) => {
                let (field, after) = first_field(text);
                self.rest = after;
                Some(field)
            }
        }
    }
}

/// The first field of a text, and what comes after its blank, where there is one.
fn first_field(text: &[u8]) -> (&[u8], Option<&[u8]>)
    ensures { spec.fields_of text.now ≡ result.0.now ∷ fields_left (option_copied result.1) }
{
    for (at, byte) in text.iter().enumerate() {
        if *byte == b' ' {
            return (&text[..at], Some(&text[at + 1..]));
        }
    }
    (text, None)
}
