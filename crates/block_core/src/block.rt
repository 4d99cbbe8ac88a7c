//! The block: four machines that share instruction memory, pins and IRQ flags, and see their own pads.
ghost use Rattle.std.specs.Prelude.{◌≡◌, ℕ, ◌<◌, ◌≤◌, ◌^◌, ◌+◌, false, IfOk};
ghost use Rattle.dreq_pacing.specs.Due.{quiet};
ghost use Rattle.dreq_pacing.specs.Ports.{IsFirst};
ghost use Rattle.block_core.specs.Block.{first_run, next, pads_in, run_from, wanted_in, uses_fifos_in, level_writes, direction_writes, TakesLastWrites};
ghost use Rattle.block_core.specs.Conduct.{afters_in, standings_in};
ghost use Rattle.block_core.specs.Inside.{inside_of};
ghost use Rattle.block_core.specs.Leaps.{leapt};
ghost use Rattle.block_core.specs.Shown.{sample_of, requests_of, moved_of};
ghost use Rattle.block_core.specs.Stirring.{moves_on, begins_or_changes};

use crate::Sample;
use crate::conduct::{After, Standing};
use crate::inside::Inside;
use crate::news::News;
use crate::running::Running;
use dreq_pacing::{Due, Requests};
use fifo_pair::Fifo;
use pin_matrix::{Setup, pad_of};
use std::alloc::{AllocError, Global};
use std::marker::Model;

/// A block in some clock of a run.
#[derive(Drop)]
pub struct Block<F: Fifo> {
    running: Running<F>,
    // The clocks that were leapt over: all others were worked out singly.
    leapt: u64,
    // The pads of the present clock, if the system does nothing in it.
    pad: u32,
}

impl<F: Fifo> Model for Block<F> {
    ghost use Rattle.std.specs.Prelude.{◌≡◌, ◌≤◌, ◌-◌};
    ghost use Rattle.dreq_pacing.specs.Due.{quiet};
    ghost use Rattle.block_core.specs.Block.{Worked, pads_in};

    ghost Value = { Worked };

    ghost view = { λ b. record { run = b.running; calls = b.running.clock - b.leapt } };

    ghost invariant = { λ b. (b.leapt ≤ b.running.clock) × (b.pad ≡ pads_in quiet b.running.state) };
}

impl<F: Fifo> Block<F> {
    /// The block of a setup in clock 0. The error is out of memory; no other call takes any.
    pub fn new(alloc: Global, setup: &Setup) -> Result<Block<F>, AllocError>
        ensures { IfOk result (λ block. block ≡ record { run = first_run setup.now; calls = 0 }) }
    {
        let pad = pad_of(setup.level, setup.out, setup.high);
        Ok(Block {
            running: Running::new(alloc, setup, pad)?,
            leapt: 0,
            pad,
        })
    }

    /// One clock, in which the system does this. Every machine with a tick acts from what was there at the clock's
    /// start. True where a machine or the system did anything at a FIFO; else the machines ask for what they asked
    /// before.
    pub fn clock(&mut self, due: &Due) -> bool
        requires { self.old.run.clock < 2 ^ 40 }
        ensures run { self.new.run ≡ next due.now self.old.run }
        ensures used { result ≡ uses_fifos_in due.now self.old.run }
        ensures levels { TakesLastWrites self.old.run.state.levels self.new.run.state.levels
            (level_writes (wanted_in due.now self.old.run)) }
        ensures directions { TakesLastWrites self.old.run.state.directions self.new.run.state.directions
            (direction_writes (wanted_in due.now self.old.run)) }
        ensures calls { self.new.calls ≡ self.old.calls + 1 }
    {
        let pad = self.running.pads(Some(due));
        let used = self.running.step(pad, due);
        self.pad = self.running.pads(None);
        used
    }

    /// The same, in which the system does nothing, and what it may have changed.
    #[inline(always)]
    pub fn quiet_clock(&mut self) -> News
        requires { self.old.run.clock < 2 ^ 40 }
        ensures run { self.new.run ≡ next quiet self.old.run }
        ensures fifos { result.fifos ≡ uses_fifos_in quiet self.old.run }
        ensures shown { result.shown ≡ false → sample_of self.new.run.state ≡ sample_of self.old.run.state }
        ensures calls { self.new.calls ≡ self.old.calls + 1 }
    {
        let news = self.running.quiet_step(self.pad);
        // The pads change with the pins alone.
        if news.shown {
            self.pad = self.running.pads(None);
        }
        news
    }

    /// Whether the present clock stirs, if the system does nothing in it, by what is known without asking a machine
    /// what it sees: the pads change, or a machine begins an instruction. Such a clock moves the block on
    /// (`what_begins_moves_on`); whether others do, `next_stir` says.
    #[inline(always)]
    pub fn begins_or_changes(&self) -> bool
        ensures { result ≡ begins_or_changes self.now.run }
    {
        if self.running.is_ready() {
            return true;
        }
        if self.running.pads_change(self.pad) {
            return true;
        }
        self.running.begins_now()
    }

    /// How many clocks go by before the next one that stirs, if the system does nothing; none where no clock ever does.
    /// In a clock that stirs some machine begins or finishes an instruction or refills its OSR, or the pads aren't
    /// those of both clocks before. It takes no longer for many clocks, and no machine is asked after one that stirs at
    /// once.
    pub fn next_stir(&self) -> Option<u64>
        ensures first { IsFirst (λ n. moves_on quiet (run_from self.now.run (λ c. quiet) n)) 0 result }
    {
        self.running.a_rest_only_counts();
        if self.running.pads_change(self.pad) {
            return Some(0);
        }
        self.running.next_stir(None, self.pad)
    }

    /// So many clocks at once, none of which stirs, and in which the system does nothing. After each of them the block
    /// is what it was, but for its clock and what is left of delays (`rests`). It takes no longer for many clocks.
    pub fn leap(&mut self, clocks: u64)
        requires clock { self.old.run.clock + clocks ≤ 2 ^ 40 }
        requires calm { (k : ℕ) → k < clocks →
            moves_on quiet (run_from self.old.run (λ c. quiet) k) ≡ false }
        ensures run { self.new.run ≡ run_from self.old.run (λ c. quiet) clocks }
        ensures rests { (k : ℕ) → k ≤ clocks →
            run_from self.old.run (λ c. quiet) k ≡ leapt k self.old.run }
        ensures calls { self.new.calls ≡ self.old.calls }
    {
        self.running.a_rest_only_counts();
        self.running.leap(self.pad, clocks);
        self.pad = self.running.pads(None);
        self.leapt += clocks;
    }

    /// What the machines ask of the system, as at the start of the present clock.
    pub fn requests(&self) -> Requests
        ensures { result ≡ requests_of self.now.run.state }
    {
        self.running.requests()
    }

    /// The sample of the last clock, or the values that a run begins with.
    #[inline(always)]
    pub fn view(&self) -> &Sample
        ensures { result.now ≡ sample_of self.now.run.state }
    {
        self.running.view()
    }

    /// What is inside the block after the last clock, with the pads of that clock; or what a run begins with.
    #[inline(always)]
    pub fn inside(&self) -> Inside
        ensures { result ≡ inside_of self.now.run }
    {
        self.running.inside()
    }

    /// How its machines stand before the present clock, and which tick they have in it, if these lines act in it.
    pub(crate) fn standings(&self, due: &Due) -> [Option<Standing>; 4]
        ensures { result ≡ standings_in due.now self.now.run.state }
    {
        self.running.standings(due)
    }

    /// What its machines are after this clock, which is the one before the present one.
    pub(crate) fn afters(&self, clock: u64) -> [Option<After>; 4]
        requires within { clock < 2 ^ 40 }
        requires step { self.now.run.clock ≡ clock + 1 }
        ensures { result ≡ afters_in clock self.now.run.state }
    {
        self.running.afters(clock)
    }

    /// How many words paced transfers have moved into a machine's TX and out of its RX; none of a machine that isn't
    /// configured.
    pub fn moved(&self, machine: u8) -> (u64, u64)
        requires { machine ≤ 3 }
        ensures { result ≡ moved_of machine self.now.run.state }
    {
        self.running.moved(machine)
    }
}
