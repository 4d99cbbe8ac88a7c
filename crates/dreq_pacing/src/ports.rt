//! The system's ports, clock by clock.
ghost use Rattle.std.specs.Prelude.{◌≡◌, ◌+◌, ◌<◌, ◌≤◌, ◌^◌, ◌||◌, length};
ghost use Rattle.std.specs.List.{AllByRecursion};
ghost use Rattle.dreq_pacing.specs.Lines.{IsLine, IsSchedule, NoneBetween, lines_in, leading, has_line};
ghost use Rattle.dreq_pacing.specs.Due.{quiet, with_lines};
ghost use Rattle.dreq_pacing.specs.Ports as spec;
ghost use Rattle.dreq_pacing.specs.Ports.{IsFirst, due_in, transfers_after, asked, acts_in, moves_in};

use crate::due::{Due, Requests};
use crate::laws::a_clock_without_acts_does_nothing;
use crate::line::Line;
use crate::schedule::Schedule;
use crate::transfer::{Moved, Pacer};
use std::marker::Model;

/// The system at its ports: the lines of a stimulus that are still to come, and what is left of its transfers.
#[derive(Drop)]
pub struct HostPorts<'a> {
    lines: &'a [Line],
    rest: &'a [Line],
    next: u64,
    first: Pacer<'a>,
    second: Pacer<'a>,
    third: Pacer<'a>,
    fourth: Pacer<'a>,
}

impl<'a> Model for HostPorts<'a> {
    ghost use Rattle.dreq_pacing.specs.Lines.{IsRest};
    ghost use Rattle.dreq_pacing.specs.Ports.{Ports};

    ghost Value = { Ports };

    ghost view = { λ p. record {
      lines = p.lines.now;
      next = p.next;
      transfers = record { first = p.first; second = p.second; third = p.third; fourth = p.fourth };
    } };

    ghost invariant = { λ p. IsRest p.lines.now p.next p.rest.now };
}

impl<'a> HostPorts<'a> {
    /// The ports at clock 0.
    pub fn new(schedule: &'a Schedule) -> HostPorts<'a>
        ensures { result ≡ spec.first_ports schedule.now }
    {
        let lines = schedule.lines();
        HostPorts {
            lines,
            rest: lines,
            next: 0,
            first: Pacer::new(),
            second: Pacer::new(),
            third: Pacer::new(),
            fourth: Pacer::new(),
        }
    }

    /// What the system does in a clock, given the requests at its start. Clocks may be left out in which nothing
    /// happens: no line acts in them, and no transfer moves.
    pub fn at(&mut self, clock: u64, requests: &Requests) -> Due
        requires next { self.old.next ≤ clock }
        requires lines { NoneBetween self.old.lines self.old.next clock }
        requires clock { clock < 2 ^ 40 }
        ensures due { result ≡ due_in self.old.lines clock requests.now self.old.transfers }
        ensures after { self.new ≡ asked clock requests.now self.old }
    {
        a_clock_without_acts_does_nothing();
        let here = self.take_lines(clock);
        if here.is_empty() && !self.moves(clock, requests) {
            return Due::quiet();
        }
        self.act(clock, here, requests)
    }

    /// Whether a transfer moves in a clock in which no line is.
    fn moves(&self, clock: u64, requests: &Requests) -> bool
        ensures { result ≡ moves_in clock requests.now self.now.transfers }
    {
        self.first.moves(0, clock, requests)
            || self.second.moves(1, clock, requests)
            || self.third.moves(2, clock, requests)
            || self.fourth.moves(3, clock, requests)
    }

    /// What these lines of the clock do, and what transfers move in it.
    #[tactic(auto, unfolding(crate::specs::Ports::due_in, crate::specs::Ports::transfers_after))]
    fn act(&mut self, clock: u64, here: &'a [Line], requests: &Requests) -> Due
        requires here { here.now ≡ lines_in clock self.old.lines }
        requires fine { AllByRecursion IsLine here.now }
        requires clock { clock < 2 ^ 40 }
        ensures due { result ≡ due_in self.old.lines clock requests.now self.old.transfers }
        ensures after { self.new ≡ record self.old { transfers = transfers_after self.old.lines clock requests.now self.old.transfers } }
    {
        let lined = due_of(here);
        let first = self.first.turn(0, clock, here, &lined, requests);
        let second = self.second.turn(1, clock, here, &lined, requests);
        let third = self.third.turn(2, clock, here, &lined, requests);
        let fourth = self.fourth.turn(3, clock, here, &lined, requests);
        with_moves(lined, first, second, third, fourth)
    }

    /// The least clock from this one on in which a line is or a transfer moves, while the requests stay as they
    /// are.
    pub fn next_due(&self, clock: u64, requests: &Requests) -> Option<u64>
        requires next { self.now.next ≤ clock }
        requires lines { NoneBetween self.now.lines self.now.next clock }
        ensures { IsFirst (λ c. acts_in self.now.lines c requests.now self.now.transfers) clock result }
    {
        earlier(
            self.next_line(clock),
            earlier(
                self.first.next_move(0, clock, requests),
                earlier(
                    self.second.next_move(1, clock, requests),
                    earlier(
                        self.third.next_move(2, clock, requests),
                        self.fourth.next_move(3, clock, requests),
                    ),
                ),
            ),
        )
    }

    /// The clock of the first line from this one on.
    fn next_line(&self, clock: u64) -> Option<u64>
        requires next { self.now.next ≤ clock }
        requires lines { NoneBetween self.now.lines self.now.next clock }
        ensures { IsFirst (λ c. has_line c self.now.lines) clock result }
    {
        match self.rest {
            [] => None,
            [line, ..] => Some(line.clock),
        }
    }

    /// The lines of a clock, which is then over.
    fn take_lines(&mut self, clock: u64) -> &'a [Line]
        requires next { self.old.next ≤ clock }
        requires lines { NoneBetween self.old.lines self.old.next clock }
        requires clock { clock < 2 ^ 40 }
        ensures lines { result.now ≡ lines_in clock self.old.lines }
        ensures fine { AllByRecursion IsLine result.now }
        ensures after { self.new ≡ record self.old { next = clock + 1 } }
    {
        let rest = self.rest;
        let number = leading(rest, clock);
        self.rest = &rest[number..];
        self.next = clock + 1;
        &rest[..number]
    }
}

/// How many lines at the head are in the clock.
fn leading(lines: &[Line], clock: u64) -> usize
    ensures number { result ≡ leading clock lines.now }
    ensures within { result ≤ length lines.now }
{
    let mut number = 0;
    let mut rest = lines;
    while let [line, after @ ..] = rest {
        if line.clock != clock {
            return number;
        }
        number += 1;
        rest = after;
    }
    number
}

/// What lines of one clock do.
fn due_of(lines: &[Line]) -> Due
    requires { AllByRecursion IsLine lines.now }
    ensures { result ≡ with_lines lines.now quiet }
{
    let mut due = Due::quiet();
    let mut rest = lines;
    while let [line, after @ ..] = rest {
        due.add(&line.act);
        rest = after;
    }
    due
}

/// What the lines of a clock do, with what the transfers of the machines move.
fn with_moves(lined: Due, first: Moved, second: Moved, third: Moved, fourth: Moved) -> Due
    ensures { result ≡ spec.with_moves lined first second third fourth }
{
    Due {
        word: [
            either_word(lined.word[0], first.word),
            either_word(lined.word[1], second.word),
            either_word(lined.word[2], third.word),
            either_word(lined.word[3], fourth.word),
        ],
        read: [
            either(lined.read[0], first.read),
            either(lined.read[1], second.read),
            either(lined.read[2], third.read),
            either(lined.read[3], fourth.read),
        ],
        word_paced: [
            first.word.is_some(),
            second.word.is_some(),
            third.word.is_some(),
            fourth.word.is_some(),
        ],
        read_paced: [first.read, second.read, third.read, fourth.read],
        ..lined
    }
}

fn either_word(line: Option<u32>, paced: Option<u32>) -> Option<u32>
    ensures { result ≡ spec.either_word line paced }
{
    match line {
        Some(word) => Some(word),
        None => paced,
    }
}

fn either(line: bool, paced: bool) -> bool
    ensures { result ≡ (line || paced) }
{
    line || paced
}

/// The earlier of two clocks that may be missing.
pub fn earlier(a: Option<u64>, b: Option<u64>) -> Option<u64>
    ensures { result ≡ spec.earlier a b }
{
    match (a, b) {
        (Some(m), Some(n)) => Some(if n < m { n } else { m }),
        (Some(m), None) => Some(m),
        (None, b) => b,
    }
}
