//! A FIFO in a ring of words, which takes its memory when it is made.
use crate::fifo::Fifo;
use circular_buffer::HeapCircularBuffer;
use std::alloc::{AllocError, Global};
use std::marker::Model;

/// The words lie where they were put, and the ends move round them.
#[derive(Drop)]
pub struct RingFifo {
    ring: HeapCircularBuffer<u32>,
}

impl Model for RingFifo {
    ghost use Rattle.fifo_pair.specs.Queue.{Queue};

    ghost Value = { Queue };

    ghost view = { λ f. record { words = f.ring.items; room = f.ring.capacity } };
}

impl Fifo for RingFifo {
    ghost items = { λ f. f.words };

    ghost room = { λ f. f.room };

    fn with_room(alloc: Global, cap: usize) -> Result<Self, AllocError> {
        Ok(RingFifo {
            ring: HeapCircularBuffer::with_capacity(alloc, cap)?,
        })
    }

    fn level(&self) -> usize {
        self.ring.len()
    }

    fn capacity(&self) -> usize {
        self.ring.capacity()
    }

    fn front(&self) -> Option<u32> {
        self.ring.front().copied()
    }

    fn push(&mut self, word: u32) {
        self.ring.push_back(word);
    }

    fn pop(&mut self) -> Option<u32> {
        self.ring.pop_front()
    }
}
