//! The fetches that gave a file or failed: the name of each, how many bytes it was of at most, and whether the file came.
ghost use Rattle.std.specs.Prelude.{◌≡◌, [], ◌∷◌, ◌++◌, ℕ, List, OnOk, OnErr, true, false};
ghost use Rattle.pio_edge.specs.Fetched.{Fetched, after_no_file, with_fetch};

use crate::shelf::Fetch;
use std::alloc::{AllocError, Global};
use std::marker::Model;

// A fetch.
#[derive(Drop)]
pub(crate) struct Kept {
    pub(crate) name: String,
    pub(crate) cap: usize,
    pub(crate) came: bool,
}

// Fetches, the first one first.
#[derive(Drop)]
pub(crate) struct Fetches {
    kept: Vec<Kept>,
}

impl Model for Fetches {
    ghost use Rattle.std.specs.Prelude.{List, map, string_bytes};
    ghost use Rattle.pio_edge.specs.Fetched.{Fetched, fetched_code};

    ghost Value = { List Fetched };

    ghost coded = { fetched_code };

    ghost view = { λ f. map (λ k. record { name = string_bytes k.name; cap = k.cap; came = k.came }) f.kept.items };
}

impl Fetches {
    // None so far.
    pub(crate) fn none(alloc: Global) -> Self
        ensures { result ≡ [] }
    {
        Fetches {
            kept: Vec::new(alloc),
        }
    }

    // Keeps one more, as one whose file came. The error is want of memory, and then nothing changes.
    pub(crate) fn keep(&mut self, alloc: Global, name: &str, cap: usize) -> Result<(), AllocError>
        ensures ok { OnOk result (self.new ≡ with_fetch name.now cap true self.old) }
        ensures err { OnErr result (self.new ≡ self.old) }
    {
        let name = String::from_str(alloc, name)?;
        self.kept.push(Kept {
            name,
            cap,
            came: true,
        })?;
        Ok(())
    }

    // The file of the last one didn't come. Where memory ran out the fetch is forgotten.
    pub(crate) fn end(&mut self, why: Fetch)
        ensures { (before : List Fetched) (name : List ℕ) (cap : ℕ) → self.old ≡ with_fetch name cap true before
            → self.new ≡ after_no_file name cap why before }
    {
        match why {
            Fetch::Failed => self.fail(),
            Fetch::Memory => self.forget(),
        }
    }

    // The last one failed.
    fn fail(&mut self)
        ensures { (before : List Fetched) (name : List ℕ) (cap : ℕ) → self.old ≡ with_fetch name cap true before
            → self.new ≡ with_fetch name cap false before }
    {
        if let Some(last) = self.kept.pop() {
            self.kept.push_reserved(Kept {
                came: false,
                ..last
            });
        }
    }

    // Forgets the last one.
    fn forget(&mut self)
        ensures { (before : List Fetched) (last : Fetched) → self.old ≡ before ++ last ∷ [] → self.new ≡ before }
    {
        let _ = self.kept.pop();
    }
}
