//! The numbers that wait.
ghost use Rattle.std.specs.Prelude.{◌≡◌, ◌<◌, ◌+◌, [], ◌∷◌, ◌++◌, IfOk, MatchOption, length};

use std::alloc::{AllocError, Global};
use std::marker::Model;

/// A stack of numbers with room for so many. It takes its memory when it is made, and none afterwards.
#[derive(Drop)]
pub(crate) struct Stack {
    numbers: Vec<usize>,
    room: usize,
}

impl Model for Stack {
    ghost use Rattle.std.specs.Prelude.{◌≤◌, vec_capacity};
    ghost use Rattle.span_bounds.specs.Stacks.{Stacked};

    ghost Value = { Stacked };

    ghost view = { λ s. record {
      numbers = s.numbers.items;
      room = s.room;
    } };

    ghost invariant = { λ s. s.room ≤ vec_capacity s.numbers };
}

impl Stack {
    /// No numbers.
    pub(crate) fn new(alloc: Global, room: usize) -> Result<Stack, AllocError>
        ensures { IfOk result (λ stack. stack ≡ record { numbers = []; room = room }) }
    {
        let numbers = Vec::with_capacity(alloc, room)?;
        Ok(Stack { numbers, room })
    }

    /// One number more.
    pub(crate) fn push(&mut self, number: usize)
        requires { length self.old.numbers < self.old.room }
        ensures numbers { self.new.numbers ≡ self.old.numbers ++ number ∷ [] }
        ensures room { self.new.room ≡ self.old.room }
    {
        self.numbers.push(number).unwrap();
    }

    /// Takes the last number, if there is one.
    pub(crate) fn pop(&mut self) -> Option<usize>
        ensures items { MatchOption result ((self.old.numbers ≡ []) × (self.new.numbers ≡ []))
            (λ number. self.old.numbers ≡ self.new.numbers ++ number ∷ []) }
        ensures shorter { MatchOption result (length self.old.numbers ≡ 0)
            (λ _. length self.new.numbers + 1 ≡ length self.old.numbers) }
        ensures room { self.new.room ≡ self.old.room }
    {
        self.numbers.pop()
    }
}
