//! Tables of texts, without regard to case.
ghost use Rattle.std.specs.Prelude.{◌≡◌};
ghost use Rattle.pio_lex.specs.Words.{row_of};

use crate::bytes::is_same_but_case;

/// What is beside the text, in any case of letters, in the first row that has it.
#[tactic(auto, unfolding(crate::specs::Words::row_of))]
pub fn beside<T: Copy>(rows: &[(&str, T)], text: &[u8]) -> Option<T>
    ensures { result ≡ row_of (λ row. row.0.now) (λ row. row.1) rows.now text.now }
{
    rows.iter()
        .find(|row| is_same_but_case(row.0, text))
        .map(|row| row.1)
}
