//! A FIFO in a fixed vector of 8 words, which takes no memory.
ghost use Rattle.std.specs.Prelude.{◌≡◌, ◌≤◌, Ok};
ghost use Rattle.fifo_pair.specs.Queue.{no_words};

use crate::fifo::Fifo;
use arrayvec::ArrayVec;
use std::alloc::{AllocError, Global};
use std::marker::Model;

/// The words in order, moved up by one at each `pop`.
#[derive(Drop)]
pub struct PlainFifo {
    words: ArrayVec<u32, 8>,
    room: usize,
}

impl Model for PlainFifo {
    ghost use Rattle.std.specs.Prelude.{◌≤◌, length};
    ghost use Rattle.fifo_pair.specs.Queue.{Queue};

    ghost Value = { Queue };

    ghost view = { λ f. record { words = f.words.items; room = f.room } };

    ghost invariant = { λ f. (length f.words.items ≤ f.room) × (f.room ≤ 8) };
}

impl Fifo for PlainFifo {
    ghost items = { λ f. f.words };

    ghost room = { λ f. f.room };

    /// Never fails.
    fn with_room(_alloc: Global, cap: usize) -> Result<Self, AllocError>
        requires { cap ≤ 8 }
        ensures { result ≡ Ok (no_words cap) }
    {
        Ok(PlainFifo {
            words: ArrayVec::new(),
            room: cap,
        })
    }

    fn level(&self) -> usize {
        self.words.len()
    }

    fn capacity(&self) -> usize {
        self.room
    }

    fn front(&self) -> Option<u32> {
        self.words.first().copied()
    }

    fn push(&mut self, word: u32) {
        self.words.push(word);
    }

    fn pop(&mut self) -> Option<u32> {
        self.words.pop_at(0)
    }
}
