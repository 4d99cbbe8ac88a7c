//! Two blocks on one set of pins, as the RP2040 has them.
ghost use Rattle.std.specs.Prelude.{◌≡◌, ℕ, ◌<◌, ◌≤◌, ◌^◌, ◌+◌, false, IfOk};
ghost use Rattle.dreq_pacing.specs.Due.{quiet};
ghost use Rattle.dreq_pacing.specs.Ports.{IsFirst};
ghost use Rattle.block_core.specs.Shown.{sample_of, requests_of};
ghost use Rattle.block_core.specs.Slots.{doing};
ghost use Rattle.block_core.specs.Twin.{first_twin, first_twin_pads, twin_pads_in, twin_next, twin_from, twin_uses_fifos_in, twin_moves_on, twin_begins_or_changes, leapt_twin};
ghost use Rattle.block_core.specs.Twin as spec;

use crate::Sample;
use crate::news::News;
use crate::running::Running;
use dreq_pacing::{Due, Requests};
use fifo_pair::Fifo;
use pin_matrix::{Setup, pad_of};
use std::alloc::{AllocError, Global};
use std::marker::Model;

/// Two blocks in some clock of a run. Each drives the pins that it owns, and both see all of them.
#[derive(Drop)]
pub struct Twin<F: Fifo> {
    first: Running<F>,
    second: Running<F>,
    own: u32,
    calls: u64,
}

impl<F: Fifo> Model for Twin<F> {
    ghost use Rattle.block_core.specs.Kept.{AreTwins};
    ghost use Rattle.block_core.specs.Twin.{WorkedTwin};

    ghost Value = { WorkedTwin };

    ghost view = { λ t. record {
      twin = record { own = t.own; first = t.first; second = t.second };
      calls = t.calls;
    } };

    ghost invariant = { λ t. AreTwins t.calls t.first.clock t.second.clock };
}

impl<F: Fifo> Twin<F> {
    /// The blocks of two setups in clock 0. In `own` bit p says that the second owns pin p; the first owns the others.
    /// The error is want of memory; no other call takes any.
    pub fn new(
        alloc: Global,
        first: &Setup,
        second: &Setup,
        own: u32,
    ) -> Result<Twin<F>, AllocError>
        ensures { IfOk result (λ twin.
            twin ≡ record { twin = first_twin own first.now second.now; calls = 0 }) }
    {
        let pad = setup_pads(own, first, second);
        Ok(Twin {
            first: Running::new(alloc, first, pad)?,
            second: Running::new(alloc, second, pad)?,
            own,
            calls: 0,
        })
    }

    /// One clock, in which the system does this at the first block and that at the second. Both act from what was there
    /// at the clock's start. Of each block, true where a machine or the system did anything at a FIFO; else its
    /// machines ask for what they asked before.
    pub fn clock(&mut self, first: &Due, second: &Due) -> (bool, bool)
        requires { self.old.twin.first.clock < 2 ^ 40 }
        ensures twin { self.new.twin ≡ twin_next first.now second.now self.old.twin }
        ensures used { result ≡ twin_uses_fifos_in first.now second.now self.old.twin }
        ensures calls { self.new.calls ≡ self.old.calls + 1 }
    {
        let pad = self.pads(Some(first));
        let one = self.first.step(pad, first);
        let other = self.second.step(pad, second);
        self.calls += 1;
        (one, other)
    }

    /// The same, in which the system does nothing, and what it may have changed of each block.
    #[inline(always)]
    pub fn quiet_clock(&mut self) -> (News, News)
        requires { self.old.twin.first.clock < 2 ^ 40 }
        ensures twin { self.new.twin ≡ twin_next quiet quiet self.old.twin }
        ensures fifos { (result.0.fifos, result.1.fifos) ≡ twin_uses_fifos_in quiet quiet self.old.twin }
        ensures first { result.0.shown ≡ false
            → sample_of self.new.twin.first.state ≡ sample_of self.old.twin.first.state }
        ensures second { result.1.shown ≡ false
            → sample_of self.new.twin.second.state ≡ sample_of self.old.twin.second.state }
        ensures calls { self.new.calls ≡ self.old.calls + 1 }
    {
        let pad = self.pads(None);
        let one = self.first.quiet_step(pad);
        let other = self.second.quiet_step(pad);
        self.calls += 1;
        (one, other)
    }

    /// The pads of a clock in which the system does this at the first block.
    #[inline(always)]
    fn pads(&self, first: Option<&Due>) -> u32
        ensures { result ≡ twin_pads_in (doing first.entry) self.now.twin }
    {
        let levels = of_owners(self.own, self.first.levels(), self.second.levels());
        let directions = of_owners(self.own, self.first.directions(), self.second.directions());
        pad_of(levels, directions, self.first.outside(first))
    }

    /// Whether these pads, of the present clock, are not those of both clocks before.
    #[inline(always)]
    fn pads_change(&self, pad: u32) -> bool
        ensures { result ≡ spec.twin_pads_change pad self.now.twin }
    {
        let first = self.first.pads_change(pad);
        first | self.second.pads_change(pad)
    }

    /// Whether the present clock stirs, if the system does nothing in it, by what is known without asking a machine
    /// what it sees: the pads change, or a machine begins an instruction. Such a clock moves one of the two on
    /// (`what_begins_moves_two_on`); whether others do, `next_stir` says.
    #[inline(always)]
    pub fn begins_or_changes(&self) -> bool
        ensures { result ≡ twin_begins_or_changes self.now.twin }
    {
        let pad = self.pads(None);
        if self.pads_change(pad) {
            return true;
        }
        let first = self.first.begins_now();
        first | self.second.begins_now()
    }

    /// How many clocks go by before the next one in which either block stirs, if the system does nothing; none where no
    /// clock ever does. It takes no longer for many clocks, and no machine is asked after one that stirs at once.
    pub fn next_stir(&self) -> Option<u64>
        ensures first { IsFirst
            (λ n. twin_moves_on quiet quiet (twin_from self.now.twin (λ c. quiet) (λ c. quiet) n)) 0 result }
    {
        self.first.a_rest_only_counts();
        self.second.a_rest_only_counts();
        let pad = self.pads(None);
        if self.pads_change(pad) {
            return Some(0);
        }
        let first = self.first.next_stir(None, pad);
        self.second.next_stir(first, pad)
    }

    /// So many clocks at once, in none of which either block stirs, and in which the system does nothing. After each of
    /// them both are what they were, but for their clock and what is left of delays (`rests`). It takes no longer for
    /// many clocks.
    pub fn leap(&mut self, clocks: u64)
        requires clock { self.old.twin.first.clock + clocks ≤ 2 ^ 40 }
        requires calm { (k : ℕ) → k < clocks →
            twin_moves_on quiet quiet (twin_from self.old.twin (λ c. quiet) (λ c. quiet) k) ≡ false }
        ensures twin { self.new.twin ≡ twin_from self.old.twin (λ c. quiet) (λ c. quiet) clocks }
        ensures rests { (k : ℕ) → k ≤ clocks →
            twin_from self.old.twin (λ c. quiet) (λ c. quiet) k ≡ leapt_twin k self.old.twin }
        ensures calls { self.new.calls ≡ self.old.calls }
    {
        self.first.a_rest_only_counts();
        self.second.a_rest_only_counts();
        let pad = self.pads(None);
        self.first.leap(pad, clocks);
        self.second.leap(pad, clocks);
    }

    /// What the machines of each block ask of the system, as at the start of the present clock.
    pub fn requests(&self) -> (Requests, Requests)
        ensures { result ≡ (requests_of self.now.twin.first.state, requests_of self.now.twin.second.state) }
    {
        (self.first.requests(), self.second.requests())
    }

    /// The samples of the last clock, or the values that a run begins with.
    pub fn view(&self) -> (Sample, Sample)
        ensures { result ≡ (sample_of self.now.twin.first.state, sample_of self.now.twin.second.state) }
    {
        (*self.first.view(), *self.second.view())
    }
}

/// Of each pin the second number's bit where the second block owns the pin, else the first's.
#[inline(always)]
fn of_owners(own: u32, first: u32, second: u32) -> u32
    ensures { result ≡ spec.of_owners own first second }
{
    (first & !own) | (second & own)
}

/// The pads of two setups.
fn setup_pads(own: u32, first: &Setup, second: &Setup) -> u32
    ensures { result ≡ first_twin_pads own first.now second.now }
{
    let levels = of_owners(own, first.level, second.level);
    let directions = of_owners(own, first.out, second.out);
    pad_of(levels, directions, first.high)
}
