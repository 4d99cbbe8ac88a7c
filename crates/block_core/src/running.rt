//! A block in a run over pads that are given: its machines and what they share, but not where the pads come from.
ghost use Rattle.std.specs.Prelude.{◌≡◌, ℕ, ◌<◌, ◌≤◌, ◌^◌, ◌+◌, ◌||◌, Bool, true, false, Some, is_some, IfOk};
ghost use Rattle.std.specs.List.{list_any};
ghost use Rattle.dreq_pacing.specs.Due.{quiet};
ghost use Rattle.dreq_pacing.specs.Ports.{IsFirst};
ghost use Rattle.block_core.specs.Block.{first_run_over, next_over, pads_in, wanted_over, uses_fifos_over, level_writes, direction_writes, TakesLastWrites};
ghost use Rattle.block_core.specs.Block as spec;
ghost use Rattle.block_core.specs.Conduct.{afters_in, standings_in};
ghost use Rattle.block_core.specs.Inside.{inside_of};
ghost use Rattle.block_core.specs.Kept.{AreTold};
ghost use Rattle.block_core.specs.Leaps.{CalmLaws, leapt};
ghost use Rattle.block_core.specs.Shown.{sample_of, requests_of, moved_of};
ghost use Rattle.block_core.specs.Slots.{doing};
ghost use Rattle.block_core.specs.Stirring.{machines_stir_over, pads_change_over};
ghost use Rattle.block_core.specs.Stirring as spec_stirring;

use crate::Sample;
use crate::conduct::{After, Standing, stands, stands_after};
use crate::inside::{Inside, MachineInside};
use crate::leaps::{begins_now, leap, next_stir};
use crate::merging::{Wanted, outside_after};
use crate::place::{are_empty, inside, moved, shown, slot_of, step};
use crate::slot::Slot;
use dreq_pacing::{Due, Requests};
use fifo_pair::{Fifo, a_quiet_clock_changes_nothing};
use irq_flags::Flags;
use pin_matrix::{Setup, Sync, no_write_changes_nothing, pad_of, the_last_write_counts};
use sm_registers::{
    Outputs, Shared, View, a_calm_tick_only_counts, a_calm_tick_tells_nothing_new,
    writes_are_of_pins,
};
use std::alloc::{AllocError, Global};
use std::marker::Model;

mod quiet;

/// Four machines that share instruction memory, pins and IRQ flags, in some clock of a run.
pub(crate) struct Running<F: Fifo> {
    first: Option<Slot<F>>,
    second: Option<Slot<F>>,
    third: Option<Slot<F>>,
    fourth: Option<Slot<F>>,
    shared: Shared,
    // The pins as they are, and what the machines want of the flags in the clock that is worked out.
    wanted: Wanted,
    outside: u32,
    clock: u64,
    known: Known,
    // What `view` shows, brought up to date by each clock, since a trace asks after each and little of it changes.
    sample: Sample,
}

/// What is known of its places (`AreKnown`), so that most clocks don't ask for it.
#[derive(Clone, Copy)]
struct Known {
    /// Whether the places after the first are empty, as in most blocks, so that a clock asks for none of them.
    alone: bool,
    /// Whether the only machine is known to be ready in the present clock, so that only its word is asked.
    ready: bool,
}

/// One call wherever a block is dropped, in place of the drops of all that is in it.
impl<F: Fifo> Drop for Running<F> {
    fn drop(self) {
        let Running {
            first: _,
            second: _,
            third: _,
            fourth: _,
            shared: _,
            wanted: _,
            outside: _,
            clock: _,
            known: _,
            sample: _,
        } = self;
    }
}

impl<F: Fifo> Model for Running<F> {
    ghost use Rattle.block_core.specs.Block.{Run};
    ghost use Rattle.std.specs.Prelude.{◌≡◌};
    ghost use Rattle.block_core.specs.Kept.{AreInStep, AreKnown, IsSampleOf, state_of};

    ghost Value = { Run };

    ghost view = { λ b. record {
      memory = b.shared.memory;
      clock = b.clock;
      state = state_of b.first b.second b.third b.fourth b.wanted.outputs.levels b.wanted.outputs.directions b.shared.flags.up b.outside;
      synchroniser = b.shared.sync;
    } };

    ghost invariant = { λ b. AreInStep b.shared.memory b.clock b.first b.second b.third b.fourth
        × IsSampleOf (state_of b.first b.second b.third b.fourth b.wanted.outputs.levels b.wanted.outputs.directions b.shared.flags.up b.outside) b.sample
        × AreKnown b.known b.first b.second b.third b.fourth };
}

impl<F: Fifo> Running<F> {
    /// The machines of a setup in clock 0, before which these were always the pads. The error is out of memory.
    pub fn new(alloc: Global, setup: &Setup, pad: u32) -> Result<Running<F>, AllocError>
        ensures { IfOk result (λ running. running ≡ first_run_over pad setup.now) }
    {
        let [first, second, third, fourth] = &setup.machines;
        let alone = are_empty(second, third, fourth);
        Ok(Running {
            first: slot_of(alloc, first)?,
            second: slot_of(alloc, second)?,
            third: slot_of(alloc, third)?,
            fourth: slot_of(alloc, fourth)?,
            shared: Shared {
                memory: setup.memory,
                flags: Flags { up: 0 },
                sync: Sync::new(pad, setup.bypass),
            },
            wanted: Wanted {
                outputs: Outputs {
                    levels: setup.level,
                    directions: setup.out,
                },
                clears: 0,
                sets: 0,
            },
            outside: setup.high,
            clock: 0,
            known: Known {
                alone,
                ready: false,
            },
            sample: Sample {
                level: setup.level,
                direction: setup.out,
                flags: 0,
                tx: [0; 4],
                rx: [0; 4],
                got: [0; 4],
                sticky: [0; 4],
            },
        })
    }

    /// The output levels.
    #[inline(always)]
    pub fn levels(&self) -> u32
        ensures { result ≡ self.now.state.levels }
    {
        self.wanted.outputs.levels
    }

    /// The directions.
    #[inline(always)]
    pub fn directions(&self) -> u32
        ensures { result ≡ self.now.state.directions }
    {
        self.wanted.outputs.directions
    }

    /// The levels that the outside drives in a clock in which the system does this, where it does anything.
    #[inline(always)]
    pub fn outside(&self, due: Option<&Due>) -> u32
        ensures { result ≡ spec.outside_after (doing due.entry) self.now.state.outside }
    {
        outside_after(self.outside, due)
    }

    /// The pads of a clock in which the system does this, where no other block is on them.
    #[inline(always)]
    pub fn pads(&self, due: Option<&Due>) -> u32
        ensures { result ≡ pads_in (doing due.entry) self.now.state }
    {
        pad_of(self.levels(), self.directions(), self.outside(due))
    }

    /// One clock with these pads, in which the system does this. Every machine with a tick acts from what was there at
    /// the clock's start. True where a machine or the system did anything at a FIFO.
    #[inline(always)]
    pub fn step(&mut self, pad: u32, due: &Due) -> bool
        requires { self.old.clock < 2 ^ 40 }
        ensures run { self.new ≡ next_over pad due.now self.old }
        ensures used { result ≡ uses_fifos_over pad due.now self.old }
        ensures levels { TakesLastWrites self.old.state.levels self.new.state.levels
            (level_writes (wanted_over pad due.now self.old)) }
        ensures directions { TakesLastWrites self.old.state.directions self.new.state.directions
            (direction_writes (wanted_over pad due.now self.old)) }
    {
        the_last_write_counts();
        no_write_changes_nothing();
        writes_are_of_pins();
        self.step_all(pad, Some(due))
    }

    /// The same where the system does this, if anything. It is code of its own, which keeps that of a lone machine's clocks
    /// short.
    #[cold]
    #[inline(never)]
    fn step_all(&mut self, pad: u32, due: Option<&Due>) -> bool
        requires { self.old.clock < 2 ^ 40 }
        ensures run { self.new ≡ next_over pad (doing due.entry) self.old }
        ensures used { result ≡ uses_fifos_over pad (doing due.entry) self.old }
    {
        a_calm_tick_tells_nothing_new();
        self.known.ready = false;
        self.outside = outside_after(self.outside, due);
        self.wanted.begin();
        let view = View::new(&self.shared, pad);
        let (wanted, sample) = (&mut self.wanted, &mut self.sample);
        // Whether a FIFO was used, by this machine or one before it.
        let by_first = step(&mut self.first, &view, due, wanted, 0, sample, false);
        let by_second = step(&mut self.second, &view, due, wanted, 1, sample, by_first);
        let by_third = step(&mut self.third, &view, due, wanted, 2, sample, by_second);
        let used = step(&mut self.fourth, &view, due, wanted, 3, sample, by_third);
        self.shared.sync.step(pad);
        self.wanted.merge_flags(&mut self.shared.flags);
        self.sample.level = self.wanted.outputs.levels;
        self.sample.direction = self.wanted.outputs.directions;
        self.sample.flags = self.shared.flags.up;
        self.clock += 1;
        used
    }

    /// Whether these pads, of the present clock, are not those of both clocks before.
    #[inline(always)]
    pub fn pads_change(&self, pad: u32) -> bool
        ensures { result ≡ pads_change_over pad self.now }
    {
        !self.shared.sync.settled(pad)
    }

    /// Whether it is known that the only machine is ready in the present clock. It then begins an instruction.
    #[inline(always)]
    pub fn is_ready(&self) -> bool
        ensures { result ≡ true → list_any spec_stirring.begins_now self.now.state.machines ≡ true }
    {
        self.known.ready
    }

    /// Whether a machine begins an instruction in the present clock, if no line acts in it.
    #[inline(always)]
    pub fn begins_now(&self) -> bool
        ensures { result ≡ list_any spec_stirring.begins_now self.now.state.machines }
    {
        begins_now(&self.first)
            || begins_now(&self.second)
            || begins_now(&self.third)
            || begins_now(&self.fourth)
    }

    /// That only delays count in clocks in which nothing stirs: by the laws of ticks and FIFOs, and since the flags of
    /// stalls which go on are up, as the type keeps it. This call does nothing.
    pub fn a_rest_only_counts(&self)
        ensures laws { CalmLaws }
        ensures told { AreTold self.now.memory self.now.state.machines }
    {
        a_calm_tick_only_counts();
        a_calm_tick_tells_nothing_new();
        a_quiet_clock_changes_nothing();
        let _clock = self.clock;
    }

    /// The least number of clocks after which a test passes or a machine stirs, where the pads stay these and the
    /// system does nothing, from that of the test alone. No machine is asked after a test that passes at once, or a
    /// machine that stirs at once.
    #[inline(always)]
    pub fn next_stir(&self, tested: Option<u64>, pad: u32) -> Option<u64>
        ensures { (test : ℕ → Bool) → IsFirst test 0 tested →
            IsFirst (λ n. test n || machines_stir_over pad quiet (leapt n self.now)) 0 result }
    {
        let view = View::new(&self.shared, pad);
        let first = next_stir(tested, &self.first, &view);
        let second = next_stir(first, &self.second, &view);
        let third = next_stir(second, &self.third, &view);
        next_stir(third, &self.fourth, &view)
    }

    /// So many clocks at once, in none of which a machine stirs, with these pads, and in which the system does nothing.
    #[inline(always)]
    pub fn leap(&mut self, pad: u32, clocks: u64)
        requires clock { self.old.clock + clocks ≤ 2 ^ 40 }
        requires calm { (k : ℕ) → k < clocks →
            machines_stir_over pad quiet (leapt k self.old) ≡ false }
        ensures { self.new ≡ leapt clocks self.old }
    {
        self.known.ready = false;
        let view = View::new(&self.shared, pad);
        leap(&mut self.first, &view, clocks);
        leap(&mut self.second, &view, clocks);
        leap(&mut self.third, &view, clocks);
        leap(&mut self.fourth, &view, clocks);
        self.clock += clocks;
    }

    /// What the machines ask of the system, as at the start of the present clock.
    #[tactic(auto, unfolding(crate::specs::Shown::requests_of))]
    pub fn requests(&self) -> Requests
        ensures { result ≡ requests_of self.now.state }
    {
        let (first, second) = (shown(&self.first), shown(&self.second));
        let (third, fourth) = (shown(&self.third), shown(&self.fourth));
        Requests {
            tx: [
                !first.tx_full,
                !second.tx_full,
                !third.tx_full,
                !fourth.tx_full,
            ],
            rx: [
                !first.rx_empty,
                !second.rx_empty,
                !third.rx_empty,
                !fourth.rx_empty,
            ],
        }
    }

    /// What the last clock shows, or the values that a run begins with.
    #[inline(always)]
    pub fn view(&self) -> &Sample
        ensures { result.now ≡ sample_of self.now.state }
    {
        &self.sample
    }

    /// What is inside it after the last clock, or what a run begins with.
    #[inline(always)]
    #[tactic(auto, unfolding(crate::specs::Inside::inside_of))]
    pub fn inside(&self) -> Inside
        ensures { result ≡ inside_of self.now }
    {
        Inside {
            sample: self.sample,
            pads: self.shared.sync.last_pad(),
            machines: self.machines_inside(),
        }
    }

    // What is inside its machines. Where there is only the first, no other place is asked.
    #[inline(always)]
    #[tactic(auto, unfolding(crate::specs::Inside::inside_of))]
    fn machines_inside(&self) -> [Option<MachineInside>; 4]
        ensures { result ≡ (inside_of self.now).machines }
    {
        let memory = &self.shared.memory;
        let first = inside(&self.first, memory);
        if self.known.alone {
            return [first, None, None, None];
        }
        [
            first,
            inside(&self.second, memory),
            inside(&self.third, memory),
            inside(&self.fourth, memory),
        ]
    }

    /// How its machines stand before the present clock, and which tick they have in it, if these lines act in it.
    pub fn standings(&self, due: &Due) -> [Option<Standing>; 4]
        ensures { result ≡ standings_in due.now self.now.state }
    {
        [
            stands(&self.first, due),
            stands(&self.second, due),
            stands(&self.third, due),
            stands(&self.fourth, due),
        ]
    }

    /// What its machines are after this clock, which is the one before the present one.
    pub fn afters(&self, clock: u64) -> [Option<After>; 4]
        requires within { clock < 2 ^ 40 }
        requires step { self.now.clock ≡ clock + 1 }
        ensures { result ≡ afters_in clock self.now.state }
    {
        [
            stands_after(&self.first, clock),
            stands_after(&self.second, clock),
            stands_after(&self.third, clock),
            stands_after(&self.fourth, clock),
        ]
    }

    /// How many words paced transfers have moved into a machine's TX and out of its RX.
    pub fn moved(&self, machine: u8) -> (u64, u64)
        requires { machine ≤ 3 }
        ensures { result ≡ moved_of machine self.now.state }
    {
        match machine {
            0 => moved(&self.first),
            1 => moved(&self.second),
            2 => moved(&self.third),
            _ => moved(&self.fourth),
        }
    }
}
