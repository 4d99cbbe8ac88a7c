//! A machine's paced transfers: how they begin, and how they move word by word (choice of this profile).
ghost use Rattle.std.specs.Prelude.{◌≡◌, ◌<◌, ◌^◌};
ghost use Rattle.dreq_pacing.specs.Transfers as spec;
ghost use Rattle.dreq_pacing.specs.Transfers.{begun};
ghost use Rattle.dreq_pacing.specs.Ports.{IsFirst, tx_ready, rx_ready, paced_moves, moves};

use crate::due::{Due, Requests};
use crate::line::{Line, LineAct};
use crate::ports::earlier;
use std::marker::Model;

/// A drain: its period, and from which clock on the next word is due.
#[derive(Clone, Copy)]
pub struct Draining {
    pub every: u32,
    pub due: u64,
}

/// What is left of a machine's feed and drain.
#[derive(Drop)]
pub struct Pacer<'a> {
    words: &'a [u32],
    every: u32,
    due: u64,
    drain: Option<Draining>,
}

impl<'a> Model for Pacer<'a> {
    ghost use Rattle.dreq_pacing.specs.Transfers.{Paced};

    ghost Value = { Paced };

    ghost view = { λ p. record {
      feed = record { words = p.words.now; every = p.every; due = p.due };
      drain = p.drain;
    } };
}

/// What a machine's transfers move in a clock.
#[derive(Clone, Copy)]
pub struct Moved {
    pub word: Option<u32>,
    pub read: bool,
}

impl<'a> Pacer<'a> {
    /// No transfer.
    pub fn new() -> Pacer<'a>
        ensures { result ≡ spec.unpaced }
    {
        Pacer {
            words: &[],
            every: 0,
            due: 0,
            drain: None,
        }
    }

    /// A clock of the machine with this number: transfers of the clock's lines begin, and words move.
    pub fn turn(
        &mut self,
        machine: usize,
        clock: u64,
        here: &'a [Line],
        lined: &Due,
        requests: &Requests,
    ) -> Moved
        requires machine { machine < 4 }
        requires clock { clock < 2 ^ 40 }
        ensures after { self.new ≡ spec.moved clock (tx_ready machine lined.now requests.now)
            (rx_ready machine lined.now requests.now) (begun machine here.now self.old) }
        ensures moved { result ≡ paced_moves machine clock lined.now requests.now
            (begun machine here.now self.old) }
    {
        self.begin_all(machine as u8, here);
        let tx_ready = lined.word[machine].is_none() && requests.tx[machine];
        let rx_ready = !lined.read[machine] && requests.rx[machine];
        self.step(clock, tx_ready, rx_ready)
    }

    /// Whether a word moves in the clock, where no line acts in it.
    pub fn moves(&self, machine: usize, clock: u64, requests: &Requests) -> bool
        requires { machine < 4 }
        ensures { result ≡ moves machine clock requests.now self.now }
    {
        self.feed_moves(clock, requests.tx[machine])
            || self.drain_moves(clock, requests.rx[machine])
    }

    /// Whether the feed moves a word in the clock.
    fn feed_moves(&self, clock: u64, ready: bool) -> bool
        ensures { result ≡ spec.feed_moves clock ready self.now.feed }
    {
        ready && self.due <= clock && !self.words.is_empty()
    }

    /// Whether the drain moves a word in the clock.
    fn drain_moves(&self, clock: u64, ready: bool) -> bool
        ensures { result ≡ spec.drain_moves clock ready self.now.drain }
    {
        match self.drain {
            Some(drain) => ready && drain.due <= clock,
            None => false,
        }
    }

    /// The least clock from this one on in which a word moves, while the requests stay as they are and no line acts.
    pub fn next_move(&self, machine: usize, clock: u64, requests: &Requests) -> Option<u64>
        requires { machine < 4 }
        ensures { IsFirst (λ c. moves machine c requests.now self.now) clock result }
    {
        let feed = if requests.tx[machine] && !self.words.is_empty() {
            Some(clock.max(self.due))
        } else {
            None
        };
        let drain = match self.drain {
            Some(drain) if requests.rx[machine] => Some(clock.max(drain.due)),
            _ => None,
        };
        earlier(feed, drain)
    }

    /// What the lines of a clock begin.
    fn begin_all(&mut self, machine: u8, here: &'a [Line])
        ensures { self.new ≡ begun machine here.now self.old }
    {
        let mut rest = here;
        while let [line, after @ ..] = rest {
            self.begin(machine, line.clock, &line.act);
            rest = after;
        }
    }

    /// A feed or drain of the machine begins where the line of this clock is one.
    pub fn begin(&mut self, machine: u8, clock: u64, act: &'a LineAct)
        ensures { self.new ≡ spec.begun_by machine clock act.now self.old }
    {
        match act {
            LineAct::Feed {
                machine: of,
                every,
                words,
            } => {
                if *of == machine {
                    self.words = words.as_slice();
                    self.every = *every;
                    self.due = clock;
                }
            }
            LineAct::Drain { machine: of, every } => {
                if *of == machine {
                    self.drain = Some(Draining {
                        every: *every,
                        due: clock,
                    });
                }
            }
            _ => {}
        }
    }

    /// The moves of a clock, by whether TX and RX are ready for transfers.
    pub fn step(&mut self, clock: u64, tx_ready: bool, rx_ready: bool) -> Moved
        requires { clock < 2 ^ 40 }
        ensures after { self.new ≡ spec.moved clock tx_ready rx_ready self.old }
        ensures word { result.word ≡ spec.fed_word clock tx_ready self.old.feed }
        ensures read { result.read ≡ spec.drain_moves clock rx_ready self.old.drain }
    {
        let word = self.feed(clock, tx_ready);
        let read = self.take(clock, rx_ready);
        Moved { word, read }
    }

    fn feed(&mut self, clock: u64, ready: bool) -> Option<u32>
        requires { clock < 2 ^ 40 }
        ensures after { self.new ≡ record self.old { feed = spec.fed clock ready self.old.feed } }
        ensures word { result ≡ spec.fed_word clock ready self.old.feed }
    {
        if !ready || clock < self.due {
            return None;
        }
        let [word, after @ ..] = self.words else {
            return None;
        };
        self.words = after;
        self.due = clock + u64::from(self.every);
        Some(*word)
    }

    fn take(&mut self, clock: u64, ready: bool) -> bool
        requires { clock < 2 ^ 40 }
        ensures after { self.new ≡ record self.old { drain = spec.drained clock ready self.old.drain } }
        ensures read { result ≡ spec.drain_moves clock ready self.old.drain }
    {
        match self.drain {
            Some(drain) if ready && drain.due <= clock => {
                self.drain = Some(Draining {
                    every: drain.every,
                    due: clock + u64::from(drain.every),
                });
                true
            }
            _ => false,
        }
    }
}
