//! The first draws: those of the letters.
ghost use Rattle.std.specs.Prelude.{◌≡◌};
ghost use Rattle.drawn_load.specs.Draws.{letters_of, state_at, numbers_of};

use crate::draws::Draws;
use crate::letters::Letters;

/// The letters, one draw for each in their order. The draws are those of a seed, none of which is taken.
pub fn draw_letters(draws: &mut Draws) -> Letters
    ensures letters { numbers_of result ≡ letters_of draws.old }
    ensures state { draws.new ≡ state_at draws.old 7 }
{
    let a = draws.below(32) as u8;
    let b = draws.below(32) as u8;
    let c = draws.below(16) as u8;
    let i = 1 + draws.below(8) as u8;
    let f = draws.below(256) as u8;
    let e = 1 + draws.below(64) as u8;
    let g = 1 + draws.below(64) as u8;
    Letters {
        a,
        b,
        c,
        i,
        f,
        e,
        g,
    }
}
