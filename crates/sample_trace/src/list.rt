//! A trace in memory: the list of the samples, in a room that is reserved at once.
ghost use Rattle.std.specs.Prelude.{◌≡◌, ◌<◌, ◌≤◌, [], ◌∷◌, ◌++◌, true, false, Some, is_ok};
ghost use Rattle.std.specs.Prelude.{length, vec_len, vec_capacity, IfOk};
ghost use Rattle.sample_trace.specs.Told.{held_to, told_at};
ghost use Rattle.pio_edge.specs.Edge.{PutCounts};
ghost use Rattle.pio_edge.specs.Count.{one_more};
ghost use Rattle.sample_trace.specs.Listing.{has_room, after_call};

use crate::trace::{Trace, TraceFailed};
use block_core::Sample;
use std::alloc::{AllocError, Global};
use std::marker::Model;

/// The samples that it was told of, as a list with one for each clock from 0 on.
///
/// It takes the memory for all that it can keep when it is made. A call fails, and leaves the
/// list as it was, exactly where after it the list would be longer.
#[derive(Drop)]
pub struct ListTrace {
    samples: Vec<Sample>,
    room: usize,
    failed: bool,
    faults: u64,
}

impl Model for ListTrace {
    ghost use Rattle.std.specs.Prelude.{◌≤◌, vec_capacity};
    ghost use Rattle.sample_trace.specs.Listing.{Listing};

    ghost Value = { Listing };

    ghost view = { λ t. record {
      samples = t.samples.items;
      room = t.room;
      failed = t.failed;
      faults = t.faults;
    } };

    ghost invariant = { λ t. t.room ≤ vec_capacity t.samples };
}

impl ListTrace {
    /// An empty trace that keeps `room` samples at most.
    pub fn with_room(alloc: Global, room: usize) -> Result<Self, AllocError>
        ensures { IfOk result (λ t.
            t ≡ record { samples = []; room = room; failed = false; faults = 0 }) }
    {
        Ok(ListTrace {
            samples: Vec::with_capacity(alloc, room)?,
            room,
            failed: false,
            faults: 0,
        })
    }

    /// The samples, one for each clock from 0 on.
    pub fn samples(&self) -> &[Sample]
        ensures { result.now ≡ self.now.samples }
    {
        &self.samples
    }

    /// How many calls failed, up to `u64::MAX`.
    pub fn faults(&self) -> u64
        ensures { result ≡ self.now.faults }
    {
        self.faults
    }

    // Counts a call for which there is no room.
    fn fail(&mut self) -> Result<(), TraceFailed>
        ensures answer { is_ok result ≡ false }
        ensures after { self.new
            ≡ record self.old { failed = true; faults = one_more self.old.faults } }
        ensures cause { PutCounts self.old.faults self.new.faults result }
    {
        self.failed = true;
        self.faults = self.faults.saturating_add(1);
        Err(TraceFailed)
    }
}

impl Trace<Sample> for ListTrace {
    ghost name = { λ _. 0 };

    ghost faults = { λ t. t.faults };

    ghost has_failed = { λ t. t.failed };

    ghost ready = { λ _ b. b ≡ Some [] };

    ghost holds = { λ t _ l _. t.samples ≡ l };

    ghost broken = { λ t _ l _. t.room < length l };

    fn begin(&mut self) -> Result<(), TraceFailed>
        requires { self.old.failed ≡ false }
        ensures passes { is_ok result ≡ true }
        ensures after { self.new ≡ record self.old { samples = [] } }
    {
        self.samples.clear();
        Ok(())
    }

    fn sample(&mut self, clock: u64, sample: &Sample) -> Result<(), TraceFailed>
        requires { self.old.failed ≡ false }
        ensures passes { is_ok result
            ≡ has_room self.old (told_at clock sample.now self.old.samples) }
        ensures after { self.new
            ≡ after_call self.old (told_at clock sample.now self.old.samples) }
        ensures cause { PutCounts self.old.faults self.new.faults result }
    {
        if held_len(&self.samples, clock) >= self.room {
            return self.fail();
        }
        hold(&mut self.samples, clock);
        push(&mut self.samples, *sample);
        Ok(())
    }

    fn end(&mut self, clock: u64) -> Result<(), TraceFailed>
        requires { self.old.failed ≡ false }
        ensures passes { is_ok result ≡ has_room self.old (held_to clock self.old.samples) }
        ensures after { self.new ≡ after_call self.old (held_to clock self.old.samples) }
        ensures cause { PutCounts self.old.faults self.new.faults result }
    {
        if held_len(&self.samples, clock) > self.room {
            return self.fail();
        }
        hold(&mut self.samples, clock);
        Ok(())
    }

    fn failed(&self) -> bool {
        self.failed
    }
}

// How long the list is once its last sample is repeated up to a clock.
fn held_len(samples: &[Sample], clock: u64) -> usize
    ensures { result ≡ length (held_to clock samples.now) }
{
    if samples.is_empty() {
        0
    } else {
        samples.len().max(clock as usize)
    }
}

// Repeats the last sample up to a clock.
fn hold(samples: &mut Vec<Sample>, clock: u64)
    requires { length (held_to clock samples.old.items) ≤ vec_capacity samples.old }
    ensures items { samples.new.items ≡ held_to clock samples.old.items }
    ensures capacity { vec_capacity samples.old ≤ vec_capacity samples.new }
{
    if let Some(last) = samples.last().copied() {
        for _ in samples.len()..clock as usize {
            push(samples, last);
        }
    }
}

// Appends within the capacity, which takes no memory.
fn push(samples: &mut Vec<Sample>, sample: Sample)
    requires { vec_len samples.old < vec_capacity samples.old }
    ensures items { samples.new.items ≡ samples.old.items ++ sample ∷ [] }
    ensures capacity { vec_capacity samples.old ≤ vec_capacity samples.new }
{
    let _ = samples.push(sample);
}
