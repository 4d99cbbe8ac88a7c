//! A run of one block with a stimulus.
ghost use Rattle.std.specs.Prelude.{◌≡◌, ◌≤◌, List};
ghost use Rattle.idle_engine.specs.One.{one};

use crate::kind::{Runs, until};
use block_core::{
    Block, News, Sample, a_leap_shows_nothing_new, unused_fifos_ask_as_before, what_begins_moves_on,
};
use dreq_pacing::{HostPorts, a_clock_without_acts_does_nothing};
use fifo_pair::Fifo;
use std::borrow::Cow;

impl<'a, F: Fifo> Runs<Sample, HostPorts<'a>> for Block<F> {
    ghost use Rattle.dreq_pacing.specs.declared.line.Line.{Line};
    ghost use Rattle.dreq_pacing.specs.Lines.{NoneBetween};
    ghost use Rattle.block_core.specs.Hosted.{hosted_at, samples};
    ghost use Rattle.block_core.specs.Hosted as spec;

    ghost Hosted = { spec.Hosted };

    ghost Lines = { List Line };

    ghost kind = { one };

    ghost hosted = { λ b p. record { run = b.run; transfers = p.transfers } };

    ghost course = { λ b p. record { at = hosted_at b.run p.lines; samples = samples b.run p.lines } };

    ghost lines = { λ p. p.lines };

    ghost may_ask = { λ p n. (p.next ≤ n) × NoneBetween p.lines p.next n };

    ghost calls = { λ b. b.calls };

    #[inline(always)]
    fn is_of_its_kind(&self, _ports: &HostPorts<'a>) {
        a_clock_without_acts_does_nothing();
    }

    #[inline(always)]
    fn shown(&self, _ports: &HostPorts<'a>) -> Cow<'_, Sample> {
        Cow::Borrowed(self.view())
    }

    #[cold]
    #[inline(never)]
    fn asked_clock(&mut self, ports: &mut HostPorts<'a>, clock: u64) {
        let due = ports.at(clock, &self.requests());
        self.clock(&due);
    }

    #[inline(always)]
    fn quiet_clock(&mut self, _ports: &HostPorts<'a>, _clock: u64) -> News {
        unused_fifos_ask_as_before();
        Block::quiet_clock(self)
    }

    #[cold]
    #[inline(never)]
    fn next_due(&self, ports: &HostPorts<'a>, clock: u64, end: u64) -> u64 {
        until(ports.next_due(clock, &self.requests()), end)
    }

    #[inline(always)]
    fn begins_or_changes(&self, _ports: &HostPorts<'a>) -> bool {
        what_begins_moves_on();
        Block::begins_or_changes(self)
    }

    #[cold]
    #[inline(never)]
    fn next_stir(&self, _ports: &HostPorts<'a>, most: u64) -> u64 {
        until(Block::next_stir(self), most)
    }

    #[cold]
    #[inline(never)]
    fn leap(&mut self, _ports: &HostPorts<'a>, _clock: u64, clocks: u64) {
        a_leap_shows_nothing_new();
        Block::leap(self, clocks);
    }
}
