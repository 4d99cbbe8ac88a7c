//! A run of two blocks on one set of pins, each with its stimulus.
ghost use Rattle.std.specs.Prelude.{◌≡◌, ◌≤◌, List};
ghost use Rattle.idle_engine.specs.Twin.{twin};

use crate::kind::{Runs, until};
use block_core::{
    News, Sample, Twin, a_leap_shows_nothing_new, unused_fifos_ask_as_before_over_any_pads,
    what_begins_moves_two_on,
};
use dreq_pacing::{HostPorts, a_clock_without_acts_does_nothing};
use fifo_pair::Fifo;
use std::borrow::Cow;

impl<'a, F: Fifo> Runs<(Sample, Sample), (HostPorts<'a>, HostPorts<'a>)> for Twin<F> {
    ghost use Rattle.dreq_pacing.specs.declared.line.Line.{Line};
    ghost use Rattle.dreq_pacing.specs.Lines.{NoneBetween};
    ghost use Rattle.block_core.specs.HostedTwin.{HostedTwin, hosted_twin_at, twin_samples};

    ghost Hosted = { HostedTwin };

    ghost Lines = { List Line × List Line };

    ghost kind = { twin };

    ghost hosted = { λ b p. record {
      own = b.twin.own;
      first = record { run = b.twin.first; transfers = p.0.transfers };
      second = record { run = b.twin.second; transfers = p.1.transfers };
    } };

    ghost course = { λ b p. record {
      at = hosted_twin_at b.twin p.0.lines p.1.lines;
      samples = twin_samples b.twin p.0.lines p.1.lines;
    } };

    ghost lines = { λ p. (p.0.lines, p.1.lines) };

    ghost may_ask = { λ p n. (p.0.next ≤ n) × (p.1.next ≤ n)
        × NoneBetween p.0.lines p.0.next n × NoneBetween p.1.lines p.1.next n };

    ghost calls = { λ b. b.calls };

    #[inline(always)]
    fn is_of_its_kind(&self, _ports: &(HostPorts<'a>, HostPorts<'a>)) {
        a_clock_without_acts_does_nothing();
    }

    #[inline(always)]
    fn shown(&self, _ports: &(HostPorts<'a>, HostPorts<'a>)) -> Cow<'_, (Sample, Sample)> {
        Cow::Owned(self.view())
    }

    #[cold]
    #[inline(never)]
    fn asked_clock(&mut self, ports: &mut (HostPorts<'a>, HostPorts<'a>), clock: u64) {
        let (first, second) = self.requests();
        let first = ports.0.at(clock, &first);
        let second = ports.1.at(clock, &second);
        self.clock(&first, &second);
    }

    #[inline(always)]
    fn quiet_clock(&mut self, _ports: &(HostPorts<'a>, HostPorts<'a>), _clock: u64) -> News {
        unused_fifos_ask_as_before_over_any_pads();
        let (first, second) = Twin::quiet_clock(self);
        News {
            fifos: first.fifos | second.fifos,
            shown: first.shown | second.shown,
        }
    }

    #[cold]
    #[inline(never)]
    fn next_due(&self, ports: &(HostPorts<'a>, HostPorts<'a>), clock: u64, end: u64) -> u64 {
        let (first, second) = self.requests();
        let first = until(ports.0.next_due(clock, &first), end);
        let second = until(ports.1.next_due(clock, &second), end);
        first.min(second)
    }

    #[inline(always)]
    fn begins_or_changes(&self, _ports: &(HostPorts<'a>, HostPorts<'a>)) -> bool {
        what_begins_moves_two_on();
        Twin::begins_or_changes(self)
    }

    #[cold]
    #[inline(never)]
    fn next_stir(&self, _ports: &(HostPorts<'a>, HostPorts<'a>), most: u64) -> u64 {
        until(Twin::next_stir(self), most)
    }

    #[cold]
    #[inline(never)]
    fn leap(&mut self, _ports: &(HostPorts<'a>, HostPorts<'a>), _clock: u64, clocks: u64) {
        a_leap_shows_nothing_new();
        Twin::leap(self, clocks);
    }
}
