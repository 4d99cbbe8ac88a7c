//! From the name of a file of words to its words.
ghost use Rattle.stages.specs.Stages.{KeepsPlan, words_plan};

use crate::fetch::fetch_file;
use arrayvec::ArrayVec;
use fault_lines::{Fault, File};
use pio_edge::Shelf;
use std::alloc::Global;
use word_file::read_words;

/// The words of a file.
#[tactic(auto, unfolding(crate::specs::Judged::words_at))]
pub fn fetch_words<F: Shelf>(
    alloc: Global,
    shelf: &mut F,
    name: &str,
) -> Result<ArrayVec<u16, 32>, Fault>
    ensures { KeepsPlan F.Shelf (words_plan name.now)
        (λ words. words.items) shelf.old shelf.new result }
{
    let bytes = fetch_file(alloc, shelf, File::Words, name)?;
    match read_words(&bytes) {
        Ok(words) => Ok(words),
        Err(fault) => Err(Fault::Words(fault.line, fault.kind)),
    }
}
