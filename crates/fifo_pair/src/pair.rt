//! The two FIFOs of a state machine, and what one clock does to them (RP2040 Datasheet, 3.2.3.5, 3.5.3).
ghost use Rattle.std.specs.Prelude.{◌≡◌, ◌<◌, ◌≤◌, ◌↔◌, ◌&&◌, length, slice_get, not, IsTrue, IsSome, IfOk};
ghost use Rattle.fifo_pair.specs.Fifos as spec;
ghost use Rattle.fifo_pair.specs.Fifos.{Fits, first_fifos, settled, is_full, is_over, is_under, got_word};

use crate::fifo::Fifo;
use crate::settle::{settle_rx, settle_tx};
use std::alloc::{AllocError, Global};
use std::marker::Model;

/// What the system is told of its accesses in a clock.
#[derive(Clone, Copy, Debug, PartialEq, Eq)]
pub struct Settled {
    /// The word that it read, if any.
    pub got: Option<u32>,
    /// It wrote to a full TX, and the word was dropped.
    pub over: bool,
    /// It read an empty RX, and got nothing.
    pub under: bool,
}

/// TX, from the system to the machine, and RX, from the machine to the system.
#[derive(Drop)]
pub struct Pair<F: Fifo> {
    tx: F,
    rx: F,
}

impl<F: Fifo> Model for Pair<F> {
    ghost use Rattle.std.specs.Prelude.{◌≤◌, length};
    ghost use Rattle.fifo_pair.specs.Fifos.{Fifos};

    ghost Value = { Fifos };

    ghost view = { λ p. record {
      tx = F.items p.tx;
      rx = F.items p.rx;
      tx_room = F.room p.tx;
      rx_room = F.room p.rx;
    } };

    ghost invariant = { λ p. (length (F.items p.tx) ≤ F.room p.tx)
        × (length (F.items p.rx) ≤ F.room p.rx) };
}

impl<F: Fifo> Pair<F> {
    /// Two empty FIFOs of 4 words, or one of 8 and one of none where one way is joined to the other. The error is
    /// want of memory.
    pub fn new(alloc: Global, join_tx: bool, join_rx: bool) -> Result<Pair<F>, AllocError>
        requires { IsTrue (not (join_tx && join_rx)) }
        ensures { IfOk result (λ pair. pair ≡ first_fifos join_tx join_rx) }
    {
        Ok(Pair {
            tx: F::with_room(alloc, room_of(join_tx, join_rx))?,
            rx: F::with_room(alloc, room_of(join_rx, join_tx))?,
        })
    }

    /// How many words are in TX.
    pub fn tx_level(&self) -> usize
        ensures level { result ≡ length self.now.tx }
        ensures fits { Fits self.now }
    {
        self.tx.level()
    }

    /// How many words are in RX.
    pub fn rx_level(&self) -> usize
        ensures level { result ≡ length self.now.rx }
        ensures fits { Fits self.now }
    {
        self.rx.level()
    }

    /// Whether TX has no room left, as one that is disabled has not.
    pub fn tx_full(&self) -> bool
        ensures full { result ≡ is_full self.now.tx_room self.now.tx }
        ensures capacity { IsTrue result ↔ (length self.now.tx ≡ self.now.tx_room) }
    {
        self.tx.level() >= self.tx.capacity()
    }

    /// Whether RX has no room left, as one that is disabled has not.
    pub fn rx_full(&self) -> bool
        ensures full { result ≡ is_full self.now.rx_room self.now.rx }
        ensures capacity { IsTrue result ↔ (length self.now.rx ≡ self.now.rx_room) }
    {
        self.rx.level() >= self.rx.capacity()
    }

    /// The oldest word of TX, `None` exactly where it is empty.
    pub fn tx_front(&self) -> Option<u32>
        ensures { result ≡ slice_get self.now.tx 0 }
    {
        self.tx.front()
    }

    /// One clock. The machine takes the oldest word of TX or doesn't, and gives a word to RX or none; the system
    /// writes a word to TX or none, and reads RX or doesn't. A level is what it was at the clock's start.
    #[tactic(auto, unfolding(crate::specs::Fifos::settled))]
    pub fn settle(
        &mut self,
        take: bool,
        machine_word: Option<u32>,
        system_word: Option<u32>,
        system_read: bool,
    ) -> Settled
        requires take { IsTrue take → 0 < length self.old.tx }
        requires word { IsSome machine_word → length self.old.rx < self.old.rx_room }
        ensures after { self.new ≡ settled take machine_word system_word system_read self.old }
        ensures fits { Fits self.new }
        ensures got { result.got ≡ got_word system_read self.old }
        ensures over { result.over ≡ is_over system_word self.old }
        ensures under { result.under ≡ is_under system_read self.old }
    {
        let under = system_read && self.rx.level() == 0;
        let over = settle_tx(&mut self.tx, take, system_word);
        let got = settle_rx(&mut self.rx, machine_word, system_read);
        Settled { got, over, under }
    }
}

/// How many words a FIFO holds, by whether the other one's words are joined to it, or its own to the other's.
fn room_of(joined: bool, other_joined: bool) -> usize
    ensures room { result ≡ spec.room_of joined other_joined }
    ensures most { result ≤ 8 }
{
    if joined {
        8
    } else if other_joined {
        0
    } else {
        4
    }
}
