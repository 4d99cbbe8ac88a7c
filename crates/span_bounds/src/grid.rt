//! A table with a place for each context.
ghost use Rattle.std.specs.Prelude.{◌≡◌, ◌<◌, ◌≤◌, IfOk, length, replicate, slice_index_or, slice_set};
ghost use Rattle.span_bounds.specs.Edges.{EndsAt};
ghost use Rattle.span_bounds.specs.declared.entry.Entry.TheVariants.{Absent, Present};

use crate::entry::Entry;
use std::alloc::{AllocError, Global};
use std::marker::Model;

/// An entry for each context in order. Those after the last row that was put aren't written, so that a
/// program of few words touches little memory. It takes its memory when it is made, and none afterwards.
#[derive(Drop)]
pub(crate) struct Grid {
    entries: Vec<Entry>,
    size: usize,
}

impl Model for Grid {
    ghost use Rattle.std.specs.Prelude.{◌≤◌, List, length, vec_capacity};
    ghost use Rattle.span_bounds.specs.declared.entry.Entry.{Entry};
    ghost use Rattle.span_bounds.specs.Edges.{padded};

    ghost Value = { List Entry };

    ghost view = { λ g. padded g.size g.entries.items };

    ghost invariant = { λ g. (length g.entries.items ≤ g.size) × (g.size ≤ vec_capacity g.entries) };
}

impl Grid {
    /// No rows, of so many contexts.
    pub(crate) fn new(alloc: Global, size: usize) -> Result<Grid, AllocError>
        ensures { IfOk result (λ grid. grid ≡ replicate size Absent) }
    {
        let entries = Vec::with_capacity(alloc, size)?;
        Ok(Grid { entries, size })
    }

    /// How many entries it has.
    pub(crate) fn len(&self) -> usize
        ensures { result ≡ length self.now }
    {
        self.size
    }

    /// From which number on there are no rows.
    pub(crate) fn end(&self) -> usize
        ensures within { result ≤ length self.now }
        ensures rest { EndsAt self.now result }
    {
        self.entries.len()
    }

    /// What it says of a context.
    pub(crate) fn at(&self, number: usize) -> Entry
        requires { number < length self.now }
        ensures { result ≡ slice_index_or self.now number Absent }
    {
        match self.entries.get(number) {
            Some(entry) => *entry,
            None => Entry::Absent,
        }
    }

    /// Says something else of a context.
    pub(crate) fn put(&mut self, number: usize, entry: Entry)
        requires { number < length self.old }
        ensures { self.new ≡ slice_set self.old number entry }
    {
        while self.entries.len() <= number {
            self.entries.push(Entry::Absent).unwrap();
        }
        self.entries[number] = entry;
    }
}
