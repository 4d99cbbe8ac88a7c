//! A run of one block with a stimulus, which shows what is inside the block: it goes as the one that shows its sample.
ghost use Rattle.std.specs.Prelude.{◌≡◌, ◌≤◌, List};
ghost use Rattle.idle_engine.specs.OneInside.{one_inside};

use crate::kind::Runs;
use block_core::{
    Block, Inside, News, Sample, a_leap_changes_nothing_inside, a_leap_shows_nothing_new,
};
use dreq_pacing::HostPorts;
use fifo_pair::Fifo;
use std::borrow::Cow;

impl<'a, F: Fifo> Runs<Inside, HostPorts<'a>> for Block<F> {
    ghost use Rattle.dreq_pacing.specs.declared.line.Line.{Line};
    ghost use Rattle.dreq_pacing.specs.Lines.{NoneBetween};
    ghost use Rattle.block_core.specs.Hosted.{hosted_at};
    ghost use Rattle.block_core.specs.Hosted as spec;
    ghost use Rattle.block_core.specs.Inside.{insides};

    ghost Hosted = { spec.Hosted };

    ghost Lines = { List Line };

    ghost kind = { one_inside };

    ghost hosted = { λ b p. record { run = b.run; transfers = p.transfers } };

    ghost course = { λ b p. record { at = hosted_at b.run p.lines; samples = insides b.run p.lines } };

    ghost lines = { λ p. p.lines };

    ghost may_ask = { λ p n. (p.next ≤ n) × NoneBetween p.lines p.next n };

    ghost calls = { λ b. b.calls };

    #[inline(always)]
    fn is_of_its_kind(&self, ports: &HostPorts<'a>) {
        <Self as Runs<Sample, HostPorts<'a>>>::is_of_its_kind(self, ports);
    }

    #[inline(always)]
    fn shown(&self, _ports: &HostPorts<'a>) -> Cow<'_, Inside> {
        Cow::Owned(self.inside())
    }

    #[inline(always)]
    fn asked_clock(&mut self, ports: &mut HostPorts<'a>, clock: u64) {
        <Self as Runs<Sample, HostPorts<'a>>>::asked_clock(self, ports, clock);
    }

    // A register may change in a clock that leaves the sample.
    #[inline(always)]
    fn quiet_clock(&mut self, ports: &HostPorts<'a>, clock: u64) -> News {
        let news = <Self as Runs<Sample, HostPorts<'a>>>::quiet_clock(self, ports, clock);
        News {
            fifos: news.fifos,
            shown: true,
        }
    }

    #[inline(always)]
    fn next_due(&self, ports: &HostPorts<'a>, clock: u64, end: u64) -> u64 {
        <Self as Runs<Sample, HostPorts<'a>>>::next_due(self, ports, clock, end)
    }

    #[inline(always)]
    fn begins_or_changes(&self, ports: &HostPorts<'a>) -> bool {
        <Self as Runs<Sample, HostPorts<'a>>>::begins_or_changes(self, ports)
    }

    #[inline(always)]
    fn next_stir(&self, ports: &HostPorts<'a>, most: u64) -> u64 {
        <Self as Runs<Sample, HostPorts<'a>>>::next_stir(self, ports, most)
    }

    #[cold]
    #[inline(never)]
    fn leap(&mut self, _ports: &HostPorts<'a>, _clock: u64, clocks: u64) {
        a_leap_shows_nothing_new();
        a_leap_changes_nothing_inside();
        Block::leap(self, clocks);
    }
}
