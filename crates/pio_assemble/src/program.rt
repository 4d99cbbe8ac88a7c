//! An assembled program: its words and what a loader must know of them.
ghost use Rattle.std.specs.Prelude.{◌<◌, ◌≤◌, length, unwrap_or};

use crate::ProgramSymbols;
use arrayvec::ArrayVec;
use pio_encode::{Name, SideRule};

/// A program as pioasm gives it, not yet at a place in the instruction memory.
#[derive(Drop)]
pub struct Program {
    pub name: Name,
    /// 1 to 32 words, with jump targets counted from the program's first word.
    pub words: ArrayVec<u16, 32>,
    /// The address (0 to 31) that `.origin` asks for.
    pub origin: Option<u8>,
    /// How its words share bits between side-set and delay.
    pub side: SideRule,
    /// The word that follows `wrap_top`.
    pub wrap_bottom: u8,
    /// The word after which the program wraps.
    pub wrap_top: u8,
    pub symbols: ProgramSymbols,
    pub ghost has_words: { 1 ≤ length words.items },
    pub ghost fits_memory: { length words.items ≤ 32 },
    pub ghost origin_in_memory: { unwrap_or origin 0 ≤ 31 },
    pub ghost wrap_bottom_in_words: { wrap_bottom < length words.items },
    pub ghost wrap_top_in_words: { wrap_top < length words.items },
}
