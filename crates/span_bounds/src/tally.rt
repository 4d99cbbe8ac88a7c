//! A count for each context.
ghost use Rattle.std.specs.Prelude.{◌≡◌, ◌<◌, IfOk, length, replicate, slice_index, slice_set};

use std::alloc::{AllocError, Global};
use std::marker::Model;

/// A count for each context in order. Those after the last that was put aren't written, and are 0. It takes its memory
/// when it is made, and none afterwards.
#[derive(Drop)]
pub(crate) struct Tally {
    counts: Vec<u32>,
    size: usize,
}

impl Model for Tally {
    ghost use Rattle.std.specs.Prelude.{◌≤◌, List, ℕ, length, vec_capacity};
    ghost use Rattle.span_bounds.specs.Edges.{counted_out};

    ghost Value = { List ℕ };

    ghost view = { λ t. counted_out t.size t.counts.items };

    ghost invariant = { λ t. (length t.counts.items ≤ t.size) × (t.size ≤ vec_capacity t.counts) };
}

impl Tally {
    /// Nothing counted, of so many contexts.
    pub(crate) fn new(alloc: Global, size: usize) -> Result<Tally, AllocError>
        ensures { IfOk result (λ tally. tally ≡ replicate size 0) }
    {
        let counts = Vec::with_capacity(alloc, size)?;
        Ok(Tally { counts, size })
    }

    /// What is counted for a context.
    pub(crate) fn at(&self, number: usize) -> u32
        requires { number < length self.now }
        ensures { result ≡ slice_index self.now number }
    {
        match self.counts.get(number) {
            Some(count) => *count,
            None => 0,
        }
    }

    /// Counts something else for a context.
    pub(crate) fn put(&mut self, number: usize, count: u32)
        requires { number < length self.old }
        ensures { self.new ≡ slice_set self.old number count }
    {
        while self.counts.len() <= number {
            self.counts.push(0).unwrap();
        }
        self.counts[number] = count;
    }
}
