//! A sink in memory, whose room is reserved at once and whose calls fail as its maker lists.
ghost use Rattle.std.specs.Prelude.{◌≡◌, ◌+◌, ◌≤◌, [], ◌++◌, Some, IfOk, length, is_ok, vec_len, vec_capacity, option_map, find, ◌==◌};
ghost use Rattle.pio_edge.specs.Edge.{Takes, PutCounts};
ghost use Rattle.pio_edge.specs.Bucket.{put_passes, finish_passes, after_put, after_finish, count_at};

use crate::answer::answer;
use crate::sink::{Sink, SinkFailed};
use std::alloc::{AllocError, Global};
use std::marker::Model;

/// Bytes in memory, up to a room that is reserved at once, with a list of the calls that fail.
///
/// `put` and `finish` are numbered together, from 1.
#[derive(Drop)]
pub struct MemSink {
    bytes: Vec<u8>,
    room: usize,
    fails: Vec<(u64, usize)>,
    calls: u64,
    faults: u64,
}

impl Model for MemSink {
    ghost use Rattle.std.specs.Prelude.{◌≤◌, vec_len, vec_capacity};
    ghost use Rattle.pio_edge.specs.Bucket.{Bucket};

    ghost Value = { Bucket };

    ghost view = { λ s. record {
      bytes = s.bytes.items;
      room = s.room;
      fails = s.fails.items;
      calls = s.calls;
      faults = s.faults;
    } };

    ghost invariant = { λ s. (vec_len s.bytes ≤ s.room) × (s.room ≤ vec_capacity s.bytes) };
}

impl MemSink {
    /// An empty sink for `room` bytes.
    ///
    /// A call that `fails` lists fails. It takes as many first bytes of its piece as the number beside
    /// it and the room left both allow; `finish` takes none. Of two entries with one number the first
    /// counts.
    pub fn with_room(alloc: Global, room: usize, fails: &[(u64, usize)]) -> Result<Self, AllocError>
        ensures { IfOk result (λ s.
            s ≡ record { bytes = []; room = room; fails = fails.now; calls = 0; faults = 0 }) }
    {
        Ok(MemSink {
            bytes: Vec::with_capacity(alloc, room)?,
            room,
            fails: fails.to_vec(alloc)?,
            calls: 0,
            faults: 0,
        })
    }

    /// The bytes that it took.
    pub fn bytes(&self) -> &[u8]
        ensures { result.now ≡ self.now.bytes }
    {
        &self.bytes
    }

    /// How many calls failed, up to `u64::MAX`.
    pub fn faults(&self) -> u64
        ensures { result ≡ self.now.faults }
    {
        self.faults
    }
}

impl Sink for MemSink {
    ghost taken = { λ s. Some s.bytes };

    ghost waiting = { λ _. [] };

    ghost faults = { λ s. s.faults };

    fn put(&mut self, piece: &[u8]) -> Result<(), SinkFailed>
        ensures bytes { Takes (Some self.old.bytes) piece.now (Some self.new.bytes) result }
        ensures cause { PutCounts self.old.faults self.new.faults result }
        // It fails exactly at a listed call and past the room.
        ensures passes { is_ok result ≡ put_passes self.old (length piece.now) }
        ensures after { self.new ≡ after_put self.old piece.now }
    {
        self.calls = self.calls.saturating_add(1);
        let listed = listed_at(&self.fails, self.calls);
        let left = self.room - self.bytes.len();
        let count = count_of(listed, left, piece.len());
        append(&mut self.bytes, &piece[..count]);
        answer(listed.is_none() && piece.len() <= left, &mut self.faults)
    }

    fn finish(&mut self) -> Result<(), SinkFailed>
        ensures bytes { Some self.new.bytes ≡ Some self.old.bytes }
        ensures cause { PutCounts self.old.faults self.new.faults result }
        // It fails exactly at a listed call.
        ensures passes { is_ok result ≡ finish_passes self.old }
        ensures after { self.new ≡ after_finish self.old }
    {
        self.calls = self.calls.saturating_add(1);
        let passed = listed_at(&self.fails, self.calls).is_none();
        answer(passed, &mut self.faults)
    }
}

// How many bytes a call takes that is listed.
fn listed_at(fails: &[(u64, usize)], call: u64) -> Option<usize>
    ensures { result ≡ option_map (λ p. p.1) (find (λ p. p.0 == call) fails.now) }
{
    fails.iter().find(|f| f.0 == call).map(|f| f.1)
}

// How many first bytes of a piece are taken, by what is listed and the room left.
fn count_of(listed: Option<usize>, left: usize, size: usize) -> usize
    ensures count { result ≡ count_at listed left size }
    ensures within { result ≤ size }
    ensures room { result ≤ left }
{
    match listed {
        Some(most) => size.min(most.min(left)),
        None if left < size => 0,
        None => size,
    }
}

// Appends within the capacity, which takes no memory.
fn append(bytes: &mut Vec<u8>, piece: &[u8])
    requires { vec_len bytes.old + length piece.now ≤ vec_capacity bytes.old }
    ensures items { bytes.new.items ≡ bytes.old.items ++ piece.now }
    ensures len { vec_len bytes.new ≡ vec_len bytes.old + length piece.now }
    ensures capacity { vec_capacity bytes.old ≤ vec_capacity bytes.new }
{
    let _ = bytes.extend_from_slice(piece);
}
