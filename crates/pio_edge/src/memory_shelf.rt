//! A shelf in memory, whose fetches fail as its maker lists. Tests use it in place of real files.
ghost use Rattle.std.specs.Prelude.{◌≡◌, ◌≤◌, [], Some, None, IfOk, OnOk, OnErr, take, vec_len};
ghost use Rattle.std.specs.Option.{is_none};
ghost use Rattle.std.specs.FinMap.{empty, get, insert};
ghost use Rattle.pio_edge.specs.Edge.{IsFetched};
ghost use Rattle.pio_edge.specs.Count.{after_fetch};
ghost use Rattle.pio_edge.specs.Fetched.{after_fetching};
ghost use Rattle.pio_edge.specs.Stock.{FetchesUnless, fetch_fails, found_at, after_call};

use crate::failures::Failures;
use crate::fetches::Fetches;
use crate::held::{Held, found};
use crate::shelf::{Fetch, Shelf};
use std::alloc::{AllocError, Global};
use std::collections::VecDeque;
use std::marker::Model;

/// Files in memory, with a list of the fetches that fail, numbered from 1.
#[derive(Drop)]
pub struct MemShelf {
    // The newest comes first, and hides what was held under its name before.
    held: VecDeque<Held>,
    fails: Vec<u64>,
    calls: u64,
    failures: Failures,
    fetches: Fetches,
}

impl Model for MemShelf {
    ghost use Rattle.pio_edge.specs.Stock.{Stock, stock_code};
    ghost use Rattle.pio_edge.specs.Held.{files_of};

    ghost Value = { Stock };

    ghost coded = { stock_code };

    ghost view = { λ s. record {
      files = files_of s.held.items;
      fails = s.fails.items;
      calls = s.calls;
      faults = s.failures;
      fetched = s.fetches;
    } };
}

impl MemShelf {
    /// An empty shelf. `fails` has the numbers, from 1 on, of the fetches that are to fail.
    pub fn new(alloc: Global, fails: &[u64]) -> Result<Self, AllocError>
        ensures { IfOk result (λ s.
            s ≡ record { files = empty; fails = fails.now; calls = 0; faults = record { count = 0; last = None }; fetched = [] }) }
    {
        Ok(MemShelf {
            held: VecDeque::new(alloc),
            fails: fails.to_vec(alloc)?,
            calls: 0,
            failures: Failures::none(),
            fetches: Fetches::none(alloc),
        })
    }

    /// Puts the bytes under the name, in place of those that were there.
    ///
    /// An error is want of memory. Bytes that were replaced stay in memory, unseen.
    pub fn hold(&mut self, name: &str, bytes: &[u8]) -> Result<(), AllocError>
        ensures ok { OnOk result (self.new ≡
            record self.old { files = insert self.old.files name.now bytes.now }) }
        ensures err { OnErr result (self.new ≡ self.old) }
    {
        let alloc = *self.held.allocator();
        let held = Held {
            name: String::from_str(alloc, name)?,
            bytes: bytes.to_vec(alloc)?,
        };
        self.held.push_front(held)?;
        Ok(())
    }

    // What the fetch of the present call answers.
    fn answer_of(&mut self, alloc: Global, name: &str, cap: usize) -> Result<Vec<u8>, Fetch>
        ensures capped { IfOk result (λ bytes. vec_len bytes ≤ cap) }
        ensures bytes { IfOk result (λ bytes.
            IsFetched (Some self.old.files) name.now cap bytes.items) }
        ensures failed { FetchesUnless (is_none (found_at self.old.fails self.old.calls (get self.old.files name.now))) result }
        ensures after { self.new ≡ record self.old { faults = after_fetch name.now result self.old.faults } }
    {
        let Some(all) = found(&self.held, name, &self.fails, self.calls) else {
            return Err(self.failures.note(alloc, name));
        };
        match first_bytes(alloc, all, cap) {
            Ok(bytes) => Ok(bytes),
            Err(AllocError) => Err(Fetch::Memory),
        }
    }

    /// How many fetches failed, up to `u64::MAX`.
    pub fn faults(&self) -> u64
        ensures { result ≡ self.now.faults.count }
    {
        self.failures.count()
    }
}

impl Shelf for MemShelf {
    ghost holds = { λ s. Some s.files };

    ghost faults = { λ s. s.faults };

    ghost fetched = { λ s. s.fetched };

    fn fetch(&mut self, alloc: Global, name: &str, cap: usize) -> Result<Vec<u8>, Fetch>
        ensures capped { IfOk result (λ bytes. vec_len bytes ≤ cap) }
        ensures bytes { IfOk result (λ bytes.
            IsFetched (Some self.old.files) name.now cap bytes.items) }
        ensures same { Some self.new.files ≡ Some self.old.files }
        // One fault, at this name, exactly where it answers Failed.
        ensures cause { self.new.faults ≡ after_fetch name.now result self.old.faults }
        // Failed exactly at a listed fetch and at an absent name, unless memory ran out.
        ensures failed { FetchesUnless (fetch_fails self.old name.now) result }
        ensures asked { self.new.fetched ≡ after_fetching name.now cap result self.old.fetched }
        ensures after { self.new ≡ after_call name.now cap result self.old }
    {
        self.calls = self.calls.saturating_add(1);
        if self.fetches.keep(alloc, name, cap).is_err() {
            return Err(Fetch::Memory);
        }
        let answer = self.answer_of(alloc, name, cap);
        if let Err(why) = answer {
            self.fetches.end(why);
        }
        answer
    }
}

// The first `cap` bytes, or all where there are fewer.
fn first_bytes(alloc: Global, all: &[u8], cap: usize) -> Result<Vec<u8>, AllocError>
    ensures { IfOk result (λ bytes. bytes.items ≡ take cap all.now) }
{
    all[..cap.min(all.len())].to_vec(alloc)
}
