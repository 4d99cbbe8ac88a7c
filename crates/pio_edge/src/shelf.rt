//! Where files come from: each is fetched whole, up to a number of bytes.
ghost use Rattle.std.specs.Prelude.{◌≡◌, ◌≤◌, Option, List, vec_len, IfOk};
ghost use Rattle.pio_edge.specs.Edge.{Files, IsFetched};
ghost use Rattle.pio_edge.specs.Count.{Faults, after_fetch};
ghost use Rattle.pio_edge.specs.Fetched.{Fetched, after_fetching};

use std::alloc::Global;

/// Why a file wasn't fetched.
#[derive(Clone, Copy, Debug, PartialEq, Eq)]
pub enum Fetch {
    /// It is absent, or reading it failed. The shelf counts one fault more, and keeps the name.
    Failed,
    /// Memory ran out.
    Memory,
}

/// Files by name.
pub trait Shelf {
    /// What it holds, where that is told: the bytes of each name.
    ghost holds: { Self → Option Files };

    /// How many fetches failed, and the name of the last one that did.
    ghost faults: { Self → Faults };

    /// The fetches that gave a file or failed, in order: what it was asked for, and whether it gave it.
    ghost fetched: { Self → List Fetched };

    /// The first `cap` bytes of a file, all of them where it is shorter.
    ///
    /// `Fetch::Failed` is one fault more, at this name, which an absent file is too. `Fetch::Memory` is free.
    fn fetch(&mut self, alloc: Global, name: &str, cap: usize) -> Result<Vec<u8>, Fetch>
        ensures capped { IfOk result (λ bytes. vec_len bytes ≤ cap) }
        ensures bytes { IfOk result (λ bytes. IsFetched (holds self.old) name.now cap bytes.items) }
        ensures same { holds self.new ≡ holds self.old }
        ensures cause { faults self.new ≡ after_fetch name.now result (faults self.old) }
        ensures asked { fetched self.new ≡ after_fetching name.now cap result (fetched self.old) };
}
