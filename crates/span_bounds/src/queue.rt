//! The numbers that wait in the fourth sweep: those that were pushed, the one with the least age first, then the rest in order.
ghost use Rattle.std.specs.Prelude.{◌≡◌, ◌<◌, ◌≤◌, ◌+◌, [], IfOk, IfSome, MatchOption, length};
ghost use Rattle.span_bounds.specs.Queues.{IsMore, ComesNext, to_come};

use std::alloc::{AllocError, Global};
use std::collections::BinaryHeap;
use std::marker::Model;

/// Numbers with room for so many, each with an age, and after them all from a number on. It takes its memory when it is made,
/// and none afterwards. A contract sees neither the ages nor the order of those that were pushed.
#[derive(Drop)]
pub(crate) struct Queue {
    heap: BinaryHeap<(u32, usize)>,
    /// All numbers from this on come once the heap is empty.
    rest: usize,
    /// How many numbers there are.
    end: usize,
    room: usize,
}

impl Model for Queue {
    ghost use Rattle.std.specs.Prelude.{ℕ, ◌≤◌, map};
    ghost use Rattle.std.specs.BinaryHeap.{heap_items, heap_capacity};
    ghost use Rattle.span_bounds.specs.Queues.{Queued};

    ghost Value = { Queued };

    ghost view = { λ q. record {
      numbers = map (λ (p : ℕ × ℕ). p.1) (heap_items q.heap);
      rest = q.rest;
      end = q.end;
      room = q.room;
    } };

    ghost invariant = { λ q. q.room ≤ heap_capacity q.heap };
}

impl Queue {
    /// All numbers below this in order.
    pub(crate) fn new(alloc: Global, end: usize, room: usize) -> Result<Queue, AllocError>
        ensures { IfOk result (λ queue. queue ≡ record { numbers = []; rest = 0; end = end; room = room }) }
    {
        let heap = BinaryHeap::with_capacity(alloc, room)?;
        Ok(Queue {
            heap,
            rest: 0,
            end,
            room,
        })
    }

    /// One number more, with this age.
    pub(crate) fn push(&mut self, age: u32, number: usize)
        requires { length self.old.numbers < self.old.room }
        ensures more { IsMore number self.old.numbers self.new.numbers }
        ensures rest { self.new.rest ≡ self.old.rest }
        ensures end { self.new.end ≡ self.old.end }
        ensures room { self.new.room ≡ self.old.room }
    {
        // The heap gives the greatest first.
        match self.heap.push((u32::MAX - age, number)) {
            Ok(()) => {}
            Err(_) => unreachable!(),
        }
    }

    /// Takes a number whose age is the least, or the first of the rest, if there is one.
    pub(crate) fn pop(&mut self) -> Option<usize>
        ensures next { MatchOption result ((self.old.numbers ≡ []) × (self.old.end ≤ self.old.rest))
            (λ number. ComesNext number self.old self.new) }
        ensures fewer { IfSome result (λ _. to_come self.new + 1 ≡ to_come self.old) }
        ensures end { self.new.end ≡ self.old.end }
        ensures room { self.new.room ≡ self.old.room }
    {
        if let Some((_, number)) = self.heap.pop() {
            return Some(number);
        }
        let number = self.rest;
        if number < self.end {
            self.rest = number + 1;
            Some(number)
        } else {
            None
        }
    }
}
