//! A call of the whole program over files in memory.
ghost use Rattle.std.specs.Prelude.{◌≡◌};

use super::lines::{is_given, only, text_of};
use commands::piotool;
use pio_edge::{MemShelf, MemSink};
use std::alloc::{AllocError, Global};
use std::marker::Brand;
use std::sync::ledger::{Blank, Ledger};
use step_count::Steps;

/// What fails outside a call: fetches by their numbers; puts and finishes of the output and of the error output by
/// theirs, each with the bytes that it takes.
#[derive(Clone, Copy)]
pub struct Failing<'a> {
    pub fetches: &'a [u64],
    pub out: &'a [(u64, usize)],
    pub err: &'a [(u64, usize)],
    /// The room of the output, in bytes.
    pub room: usize,
}

/// Nothing fails.
pub const QUIET: Failing<'static> = Failing {
    fetches: &[],
    out: &[],
    err: &[],
    room: ROOM,
};

/// More bytes than a row's call puts.
pub const ROOM: usize = 1_000_000;

/// What a call leaves: its status, and what the output and the error output took.
#[derive(Drop)]
pub struct CallOutcome {
    pub status: u8,
    pub out: MemSink,
    pub err: MemSink,
}

/// The words of a call, and the files that are there.
#[derive(Drop)]
pub struct RowCall {
    words: Vec<String>,
    files: Vec<RowFile>,
}

#[derive(Drop)]
struct RowFile {
    name: &'static str,
    bytes: Vec<u8>,
}

impl RowCall {
    /// The call of a row's lines; none where memory runs out, or a line is not well written.
    pub fn of(alloc: Global, lines: &str) -> Option<RowCall> {
        let mut call = RowCall {
            words: words_of(alloc, only(lines, "$")?).ok()?,
            files: Vec::new(alloc),
        };
        for name in ["s", "c", "d", "t"] {
            call.take_file(alloc, lines, name)?;
        }
        Some(call)
    }

    /// Takes a file that a line is of.
    fn take_file(&mut self, alloc: Global, lines: &str, name: &'static str) -> Option<()> {
        if !is_given(lines, name) {
            return Some(());
        }
        let bytes = text_of(alloc, lines, name)?;
        self.files.push(RowFile { name, bytes }).ok()
    }
}

/// What a call leaves, with ample memory; none where memory runs out.
pub fn seen(alloc: Global, call: &RowCall, failing: Failing) -> Option<CallOutcome> {
    let mut shelf = shelf_of(alloc, call, failing.fetches).ok()?;
    let outcome = seen_of::<Brand>(alloc, call, &mut shelf, failing, Blank::new(1));
    outcome.ok()
}

/// A shelf with the files of a call.
fn shelf_of(alloc: Global, call: &RowCall, fails: &[u64]) -> Result<MemShelf, AllocError> {
    let mut shelf = MemShelf::new(alloc, fails)?;
    for file in call.files.iter() {
        shelf.hold(file.name, &file.bytes)?;
    }
    Ok(shelf)
}

fn seen_of<L: Ledger>(
    alloc: Global,
    call: &RowCall,
    shelf: &mut MemShelf,
    failing: Failing,
    blank: Blank,
) -> Result<CallOutcome, AllocError>
    requires name { blank.name ≡ L.name }
    requires parts { blank.parts ≡ L.parts }
    requires whole { blank.parts ≡ 1 }
{
    let mut out = MemSink::with_room(alloc, failing.room, failing.out)?;
    let mut err = MemSink::with_room(alloc, 1000, failing.err)?;
    let mut steps = Steps::<L>::new(blank);
    let words = call.words.as_slice();
    let end = piotool(alloc, words, shelf, &mut out, &mut err, &mut steps);
    Ok(CallOutcome {
        status: end.status,
        out,
        err,
    })
}

/// The words of a call: none at all in an empty text, and the empty word for `''`.
fn words_of(alloc: Global, text: &str) -> Result<Vec<String>, AllocError> {
    let mut words = Vec::new(alloc);
    for word in text.split(' ') {
        let plain = if word == "''" { "" } else { word };
        if !word.is_empty() {
            words.push(String::from_str(alloc, plain)?)?;
        }
    }
    Ok(words)
}
