//! What a FIFO of words is: a list of them, the oldest first, and the room that it was made with.
ghost use Rattle.std.specs.Prelude.{◌≡◌, ℕ, ◌<◌, ◌≤◌, List, [], ◌∷◌, ◌++◌, length, drop, slice_get, OnOk, IfOk};

use std::alloc::{AllocError, Global};

/// A FIFO of 32-bit words.
pub trait Fifo: Drop {
    /// The words in it, the oldest first.
    ghost items: { Self → List ℕ };

    /// For how many words it has room.
    ghost room: { Self → ℕ };

    /// An empty FIFO for `cap` words, at most 8. The error is want of memory; no other call takes any.
    fn with_room(alloc: Global, cap: usize) -> Result<Self, AllocError>
        requires { cap ≤ 8 }
        ensures empty { IfOk result (λ fifo. items fifo ≡ []) }
        ensures room { IfOk result (λ fifo. room fifo ≡ cap) };

    /// How many words are in it.
    fn level(&self) -> usize
        ensures level { result ≡ length (items self.now) }
        ensures fits { result ≤ room self.now };

    /// How many words it can hold.
    fn capacity(&self) -> usize
        ensures capacity { result ≡ room self.now }
        ensures fits { length (items self.now) ≤ result };

    /// The oldest word, `None` exactly where it is empty.
    fn front(&self) -> Option<u32>
        ensures { result ≡ slice_get (items self.now) 0 };

    /// Puts a word after all others.
    fn push(&mut self, word: u32)
        requires { length (items self.old) < room self.old }
        ensures items { items self.new ≡ items self.old ++ word ∷ [] }
        ensures room { room self.new ≡ room self.old };

    /// Takes the oldest word out, `None` exactly where it is empty.
    fn pop(&mut self) -> Option<u32>
        ensures front { result ≡ slice_get (items self.old) 0 }
        ensures items { items self.new ≡ drop 1 (items self.old) }
        ensures room { room self.new ≡ room self.old };
}
