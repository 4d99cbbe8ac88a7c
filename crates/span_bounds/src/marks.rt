//! Which contexts have a row, and in which of them ages are open.
ghost use Rattle.std.specs.Prelude.{◌≡◌, ◌<◌, ◌≤◌, IfOk, length, replicate, slice_index_or, slice_set};
ghost use Rattle.span_bounds.specs.declared.entry.Entry.TheVariants.{Absent, Present};
ghost use Rattle.span_bounds.specs.Edges.{EndsAt};
ghost use Rattle.span_bounds.specs.Marks as spec;
ghost use Rattle.span_bounds.specs.Reach.{zeroed};

use crate::entry::Entry;
use span_step::Ages;
use std::alloc::{AllocError, Global};
use std::marker::Model;

/// What is known of a context: no row, a row without ages, or a row with some.
#[derive(Clone, Copy)]
pub(crate) enum ContextMark {
    Absent,
    Closed,
    Open,
}

impl ContextMark {
    /// The mark of a row with these ages.
    pub(crate) fn of(ages: Ages) -> ContextMark
        ensures { spec.marked result ≡ Present (zeroed ages) }
    {
        if ages.is_open() {
            ContextMark::Open
        } else {
            ContextMark::Closed
        }
    }

    /// The same as an entry, with the age 0 for any.
    fn entry(self) -> Entry
        ensures { result ≡ spec.marked self }
    {
        match self {
            ContextMark::Absent => Entry::Absent,
            ContextMark::Closed => Entry::Present(Ages::Empty),
            ContextMark::Open => Entry::Present(Ages::Between(0, 0)),
        }
    }
}

/// A mark for each context in order, seen as entries. Those after the last that was put aren't written, and say that
/// there is no row. It takes its memory when it is made, and none afterwards.
#[derive(Drop)]
pub(crate) struct Marks {
    marks: Vec<ContextMark>,
    size: usize,
}

impl Model for Marks {
    ghost use Rattle.std.specs.Prelude.{◌≤◌, List, length, vec_capacity};
    ghost use Rattle.span_bounds.specs.declared.entry.Entry.{Entry};
    ghost use Rattle.span_bounds.specs.Edges.{marked_out};

    ghost Value = { List Entry };

    ghost view = { λ m. marked_out m.size m.marks.items };

    ghost invariant = { λ m. (length m.marks.items ≤ m.size) × (m.size ≤ vec_capacity m.marks) };
}

impl Marks {
    /// No rows, of so many contexts.
    pub(crate) fn new(alloc: Global, size: usize) -> Result<Marks, AllocError>
        ensures { IfOk result (λ marks. marks ≡ replicate size Absent) }
    {
        let marks = Vec::with_capacity(alloc, size)?;
        Ok(Marks { marks, size })
    }

    /// From which number on there are no rows.
    pub(crate) fn end(&self) -> usize
        ensures within { result ≤ length self.now }
        ensures rest { EndsAt self.now result }
    {
        self.marks.len()
    }

    /// What they say of a context.
    pub(crate) fn at(&self, number: usize) -> Entry
        requires { number < length self.now }
        ensures { result ≡ slice_index_or self.now number Absent }
    {
        match self.marks.get(number) {
            Some(mark) => mark.entry(),
            None => Entry::Absent,
        }
    }

    /// Says something else of a context.
    pub(crate) fn put(&mut self, number: usize, mark: ContextMark)
        requires { number < length self.old }
        ensures { self.new ≡ slice_set self.old number (spec.marked mark) }
    {
        while self.marks.len() <= number {
            self.marks.push(ContextMark::Absent).unwrap();
        }
        self.marks[number] = mark;
    }
}
