//! The words of the feed.
ghost use Rattle.std.specs.Prelude.{◌≡◌, ℕ, ◌+◌, ◌*◌, IfOk};
ghost use Rattle.drawn_load.specs.Draws.{drawn, state_at, words_of};

use crate::draws::Draws;
use std::alloc::{AllocError, Global};

/// The 256 words of the feed. The draws have given the seven letters. The error is out of memory.
pub fn draw_words(alloc: Global, draws: &mut Draws) -> Result<Vec<u32>, AllocError>
    ensures words { IfOk result (λ words. (seed : ℕ) → draws.old ≡ state_at seed 7
        → words.items ≡ words_of seed) }
    ensures state { IfOk result (λ words. (seed : ℕ) → draws.old ≡ state_at seed 7
        → draws.new ≡ state_at seed 519) }
{
    let mut words = Vec::new(alloc);
    for _ in 0..256_u32 {
        words.push(draw_word(draws))?;
    }
    Ok(words)
}

/// The next word: its upper half is drawn before its lower half.
fn draw_word(draws: &mut Draws) -> u32
    ensures state { (seed k : ℕ) → draws.old ≡ state_at seed k → draws.new ≡ state_at seed (k + 2) }
    ensures word { (seed k : ℕ) → draws.old ≡ state_at seed k
        → result ≡ drawn seed k 65536 * 65536 + drawn seed (k + 1) 65536 }
{
    let upper = draws.below(0x1_0000);
    let lower = draws.below(0x1_0000);
    (upper << 16) + lower
}
