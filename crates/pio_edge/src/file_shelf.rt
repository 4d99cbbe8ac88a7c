//! A shelf over the files of the runtime: a name is a path.
ghost use Rattle.std.specs.Prelude.{◌≡◌, ◌≤◌, [], None, IfOk, vec_len};
ghost use Rattle.pio_edge.specs.Edge.{IsFetched};
ghost use Rattle.pio_edge.specs.Count.{after_fetch};
ghost use Rattle.pio_edge.specs.Fetched.{after_fetching};

use crate::failures::Failures;
use crate::fetches::Fetches;
use crate::shelf::{Fetch, Shelf};
use std::alloc::Global;
use std::fs;
use std::io::{ErrorKind, Read};
use std::rt::Files;

/// Files by their paths. It tells nothing of what they hold.
///
/// A fault is a file that isn't there or can't be opened, or a read that fails.
#[derive(Drop)]
pub struct FileShelf<'a, R: Files> {
    runtime: &'a R,
    failures: Failures,
    fetches: Fetches,
}

impl<'a, R: Files> FileShelf<'a, R> {
    /// The files that the runtime reaches. No fetch was made. It takes no memory.
    pub fn new(alloc: Global, runtime: &'a R) -> Self
        ensures failures { result.failures ≡ record { count = 0; last = None } }
        ensures fetches { result.fetches ≡ [] }
    {
        FileShelf {
            runtime,
            failures: Failures::none(),
            fetches: Fetches::none(alloc),
        }
    }

    /// How many fetches failed, up to `u64::MAX`.
    pub fn faults(&self) -> u64
        ensures { result ≡ self.now.failures.count }
    {
        self.failures.count()
    }
}

impl<R: Files> Shelf for FileShelf<'_, R> {
    ghost holds = { λ _. None };

    ghost faults = { λ s. s.failures };

    ghost fetched = { λ s. s.fetches };

    fn fetch(&mut self, alloc: Global, name: &str, cap: usize) -> Result<Vec<u8>, Fetch>
        ensures capped { IfOk result (λ bytes. vec_len bytes ≤ cap) }
        ensures bytes { IfOk result (λ bytes. IsFetched None name.now cap bytes.items) }
        // One fault, at this name, exactly where it answers Failed.
        ensures cause { self.new.failures ≡ after_fetch name.now result self.old.failures }
        ensures asked { self.new.fetches ≡ after_fetching name.now cap result self.old.fetches }
    {
        if self.fetches.keep(alloc, name, cap).is_err() {
            return Err(Fetch::Memory);
        }
        let answer = match read_file(self.runtime, alloc, name, cap) {
            Err(Fetch::Failed) => Err(self.failures.note(alloc, name)),
            read => read,
        };
        if let Err(why) = answer {
            self.fetches.end(why);
        }
        answer
    }
}

// The first `cap` bytes of the file at this path.
fn read_file<R: Files>(runtime: &R, alloc: Global, path: &str, cap: usize) -> Result<Vec<u8>, Fetch>
    ensures { IfOk result (λ bytes. vec_len bytes ≤ cap) }
{
    let mut file = fs::open(runtime, path).map_err(|_| Fetch::Failed)?;
    let mut bytes = Vec::new(alloc);
    read_capped(&mut file, cap, &mut bytes)?;
    Ok(bytes)
}

// Appends what the file gives, to its end or up to `cap` bytes, and reads nothing past them.
fn read_capped<F: Read>(file: &mut F, cap: usize, bytes: &mut Vec<u8>) -> Result<(), Fetch>
    requires { vec_len bytes.old ≤ cap }
    ensures { vec_len bytes.new ≤ cap }
{
    let mut block = [0; 4096];
    for _ in 0..u64::MAX {
        let wanted = block.len().min(cap - bytes.len());
        match file.read(&mut block[..wanted]) {
            Ok(0) => return Ok(()),
            Ok(count) => {
                if bytes.extend_from_slice(&block[..count]).is_err() {
                    return Err(Fetch::Memory);
                }
            }
            // A signal came before a byte did.
            Err(error) if error.kind() == ErrorKind::Interrupted => {}
            Err(_) => return Err(Fetch::Failed),
        }
    }
    Err(Fetch::Failed)
}
