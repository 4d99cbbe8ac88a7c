//! A run of one block with a stimulus, which shows what the machines did in the last clock of note: it goes as the one that shows
//! its sample.
ghost use Rattle.std.specs.Prelude.{◌≡◌, ◌≤◌, List};
ghost use Rattle.idle_engine.specs.OneConduct.{Conducting, one_conduct};

use crate::kind::{Runs, until};
use block_core::{
    Conduct, Conducted, News, a_leap_shows_nothing_new, unused_fifos_ask_as_before,
    what_begins_moves_on,
};
use dreq_pacing::{HostPorts, a_clock_without_acts_does_nothing};
use fifo_pair::Fifo;
use std::borrow::Cow;

impl<'a, F: Fifo> Runs<Conduct, HostPorts<'a>> for Conducted<F> {
    ghost use Rattle.dreq_pacing.specs.declared.line.Line.{Line};
    ghost use Rattle.dreq_pacing.specs.Lines.{NoneBetween};
    ghost use Rattle.block_core.specs.Conduct.{conduct_before, conducts};
    ghost use Rattle.block_core.specs.Hosted.{hosted_at};

    ghost Hosted = { Conducting };

    ghost Lines = { List Line };

    ghost kind = { one_conduct };

    ghost hosted = { λ b p. record { hosted = record { run = b.worked.run; transfers = p.transfers }; last = b.last } };

    ghost course = { λ b p. record {
      at = λ n. record { hosted = hosted_at b.worked.run p.lines n; last = conduct_before b.worked.run p.lines n };
      samples = conducts b.worked.run p.lines;
    } };

    ghost lines = { λ p. p.lines };

    ghost may_ask = { λ p n. (p.next ≤ n) × NoneBetween p.lines p.next n };

    ghost calls = { λ b. b.worked.calls };

    #[inline(always)]
    fn is_of_its_kind(&self, _ports: &HostPorts<'a>) {
        a_clock_without_acts_does_nothing();
    }

    #[inline(always)]
    fn shown(&self, _ports: &HostPorts<'a>) -> Cow<'_, Conduct> {
        Cow::Borrowed(self.last())
    }

    #[cold]
    #[inline(never)]
    fn asked_clock(&mut self, ports: &mut HostPorts<'a>, clock: u64) {
        let due = ports.at(clock, &self.block().requests());
        self.clock(clock, &due);
    }

    #[inline(always)]
    fn quiet_clock(&mut self, _ports: &HostPorts<'a>, clock: u64) -> News {
        unused_fifos_ask_as_before();
        Conducted::quiet_clock(self, clock)
    }

    #[cold]
    #[inline(never)]
    fn next_due(&self, ports: &HostPorts<'a>, clock: u64, end: u64) -> u64 {
        until(ports.next_due(clock, &self.block().requests()), end)
    }

    #[inline(always)]
    fn begins_or_changes(&self, _ports: &HostPorts<'a>) -> bool {
        what_begins_moves_on();
        self.block().begins_or_changes()
    }

    #[cold]
    #[inline(never)]
    fn next_stir(&self, _ports: &HostPorts<'a>, most: u64) -> u64 {
        until(self.block().next_stir(), most)
    }

    // None of these clocks is of note, so what is told stays.
    #[cold]
    #[inline(never)]
    fn leap(&mut self, _ports: &HostPorts<'a>, _clock: u64, clocks: u64) {
        a_leap_shows_nothing_new();
        Conducted::leap(self, clocks);
    }
}
