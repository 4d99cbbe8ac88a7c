//! One machine in a run of its block, with its divider.
ghost use Rattle.std.specs.Prelude.{◌≡◌, ℕ, ◌<◌, ◌≤◌, ◌^◌, ◌+◌, Some, length, IsTrue, IsSome, IfOk, false, true};
ghost use Rattle.clock_divider.specs.Timing as timing;
ghost use Rattle.sm_registers.specs.State as spec_shown;
ghost use Rattle.dreq_pacing.specs.Due.{quiet};
ghost use Rattle.dreq_pacing.specs.Ports.{IsFirst};
ghost use Rattle.block_core.specs.Conduct.{after_in, rests_in, standing_in};
ghost use Rattle.block_core.specs.Inside.{machine_inside};
ghost use Rattle.block_core.specs.Leaps.{leapt_slot, stirs_after};
ghost use Rattle.block_core.specs.Stirring.{begins_now};
ghost use Rattle.block_core.specs.Slots as spec;
ghost use Rattle.block_core.specs.Slots.{lined, acted, settled_slot, slot_after, slot_intent, slot_uses_fifos, used_by};

use crate::conduct::{After, Standing};
use crate::inside::{MachineInside, word_at};
use clock_divider::Divider;
use dreq_pacing::Due;
use fifo_pair::{Fifo, a_quiet_clock_changes_nothing};
use pin_matrix::MachineSetup;
use sm_registers::{Idle, Intent, Machine, Shown, View, a_calm_tick_only_counts};
use std::alloc::{AllocError, Global};
use std::marker::Model;

/// A machine that is configured.
pub(crate) struct Slot<F: Fifo> {
    pub machine: Machine<F>,
    pub divider: Divider,
    enabled: bool,
    sent: u64,
    received: u64,
}

/// One call wherever a machine is dropped, in place of the drops of all that is in it.
impl<F: Fifo> Drop for Slot<F> {
    fn drop(self) {
        let Slot {
            machine: _,
            divider: _,
            enabled: _,
            sent: _,
            received: _,
        } = self;
    }
}

impl<F: Fifo> Model for Slot<F> {
    ghost use Rattle.block_core.specs.Slots as slots;

    ghost Value = { slots.Slot };

    ghost view = { λ s. record {
      machine = s.machine;
      timing = s.divider;
      enabled = s.enabled;
      sent = s.sent;
      received = s.received;
    } };
}

impl<F: Fifo> Slot<F> {
    /// The machine of a setup at the start of a run.
    pub fn new(alloc: Global, setup: &MachineSetup) -> Result<Slot<F>, AllocError>
        ensures { IfOk result (λ s. s ≡ spec.first_slot setup.now) }
    {
        Ok(Slot {
            machine: Machine::new(alloc, setup)?,
            divider: divider_of(setup),
            enabled: true,
            sent: 0,
            received: 0,
        })
    }

    // `simple_clock` is in `running/quiet.rt`.

    /// One clock, in which the system does this. It returns what the machine wants of its block, and whether it or the
    /// system did anything at its FIFOs.
    #[inline(always)]
    pub fn clock(&mut self, view: &View, due: &Due) -> (Intent, bool)
        requires clock { self.old.timing.clock < 2 ^ 40 }
        requires sent { self.old.sent < 2 ^ 40 }
        requires received { self.old.received < 2 ^ 40 }
        ensures after { self.new ≡ slot_after view.now due.now self.old }
        ensures intent { result.0 ≡ slot_intent view.now due.now self.old }
        ensures used { result.1 ≡ slot_uses_fifos view.now due.now self.old }
    {
        self.obey(due);
        let intent = self.act(view);
        let used = self.settle(due, &intent);
        (intent, used)
    }

    /// The same of a clock that is a tick of it, in which the system does nothing.
    #[inline(always)]
    #[tactic(auto, unfolding(crate::specs::Slots::acted, crate::specs::Slots::settled_slot, sm_registers::specs::State::settled_ports))]
    pub fn quiet_tick(&mut self, view: &View) -> (Intent, bool)
        requires tick { spec.has_tick self.old ≡ true }
        requires clock { self.old.timing.clock < 2 ^ 40 }
        ensures after { self.new ≡ slot_after view.now quiet self.old }
        ensures intent { result.0 ≡ slot_intent view.now quiet self.old }
        ensures used { result.1 ≡ slot_uses_fifos view.now quiet self.old }
    {
        let intent = self.machine.tick(view);
        self.divider.step_from_tick();
        let used = self.machine.settle(&intent, None, false);
        (intent, used)
    }

    /// Whether the clock is a tick of it.
    #[inline(always)]
    pub fn has_tick(&self) -> bool
        ensures { result ≡ spec.has_tick self.now }
    {
        self.enabled && self.divider.ticks_now()
    }

    /// The place of its lines in `Due`.
    fn place(&self) -> usize
        ensures id { result ≡ self.now.machine.setup.id }
        ensures below { result < 4 }
    {
        self.machine.setup().id as usize
    }

    /// The lines that enable, disable or restart it.
    #[inline(always)]
    fn obey(&mut self, due: &Due)
        ensures { self.new ≡ lined due.now self.old }
    {
        let place = self.place();
        if due.enable[place] {
            self.enabled = true;
        } else if due.disable[place] {
            self.enabled = false;
        }
        if due.restart[place] {
            self.divider.restart();
        }
    }

    /// Its tick, where it has one in this clock.
    #[inline(always)]
    #[tactic(auto, unfolding(crate::specs::Slots::acted))]
    fn act(&mut self, view: &View) -> Intent
        ensures intent { result ≡ (acted view.now self.old).1 }
        ensures after { self.new ≡ record self.old {
          machine = record self.old.machine { registers = (acted view.now self.old).0 };
        } }
        ensures take { IsTrue result.take → 0 < length self.new.machine.ports.fifos.tx }
        ensures word { IsSome result.word
            → length self.new.machine.ports.fifos.rx < self.new.machine.ports.fifos.rx_room }
    {
        if self.has_tick() {
            self.machine.tick(view)
        } else {
            Intent::none()
        }
    }

    /// The end of the clock: its FIFOs, its divider, and what the transfers moved.
    #[inline(always)]
    #[tactic(auto, unfolding(crate::specs::Slots::settled_slot, sm_registers::specs::State::settled_ports))]
    fn settle(&mut self, due: &Due, intent: &Intent) -> bool
        requires take { IsTrue intent.now.take → 0 < length self.old.machine.ports.fifos.tx }
        requires word { IsSome intent.now.word
            → length self.old.machine.ports.fifos.rx < self.old.machine.ports.fifos.rx_room }
        requires clock { self.old.timing.clock < 2 ^ 40 }
        requires sent { self.old.sent < 2 ^ 40 }
        requires received { self.old.received < 2 ^ 40 }
        ensures after { self.new ≡ settled_slot due.now (self.old.machine.registers, intent.now) self.old }
        ensures used { result ≡ used_by due.now self.old intent.now }
    {
        self.divider.step();
        let place = self.place();
        self.sent = counted(due.word_paced[place], self.sent);
        self.received = counted(due.read_paced[place], self.received);
        self.machine
            .settle(intent, due.word[place], due.read[place])
    }

    /// Whether it begins an instruction in the present clock, if no line acts in it.
    #[inline(always)]
    pub fn begins_now(&self) -> bool
        ensures { result ≡ begins_now (Some self.now) }
    {
        self.enabled && self.divider.ticks_now() && self.machine.begins_next()
    }

    /// How many clocks go by before the next one in which it stirs, where it sees the same and the system does nothing.
    pub fn next_stir(&self, view: &View) -> Option<u64>
        ensures { IsFirst (stirs_after view.now (Some self.now)) 0 result }
    {
        a_calm_tick_only_counts();
        if !self.enabled {
            return None;
        }
        match self.machine.idle_until(view) {
            Idle::Ticks(ticks) => Some(self.divider.clocks_to_tick(ticks)),
            Idle::Never => None,
        }
    }

    /// So many clocks at once, in none of which it stirs.
    pub fn leap(&mut self, view: &View, clocks: u64)
        requires clock { self.old.timing.clock + clocks ≤ 2 ^ 40 }
        requires calm { (k : ℕ) → k < clocks → stirs_after view.now (Some self.old) k ≡ false }
        ensures { self.new ≡ leapt_slot clocks self.old }
    {
        a_calm_tick_only_counts();
        if self.enabled {
            let ticks = self.divider.ticks_within(clocks);
            self.machine.leap(view, ticks);
        }
        self.divider.leap(clocks);
    }

    /// What is seen of it.
    pub fn shown(&self) -> Shown
        ensures { result ≡ spec_shown.shown_of self.now.machine.ports }
    {
        self.machine.shown()
    }

    /// What is inside it, over this memory.
    #[inline(always)]
    #[tactic(auto, unfolding(crate::specs::Inside::machine_inside))]
    pub fn inside(&self, memory: &[u16; 32]) -> MachineInside
        ensures { result ≡ machine_inside memory.now self.now }
    {
        let registers = self.machine.registers();
        MachineInside {
            pc: registers.pc,
            instruction: word_at(registers, memory),
            x: registers.x,
            y: registers.y,
            isr: registers.isr,
            osr: registers.osr,
            isr_count: registers.in_count,
            osr_count: registers.out_count,
            waits: registers.begun,
            enabled: self.enabled,
        }
    }

    /// How it stands before the present clock, and which tick it has in it, if these lines act in it.
    #[tactic(auto, unfolding(crate::specs::Conduct::standing_in))]
    pub fn stands(&self, due: &Due) -> Standing
        ensures { result ≡ standing_in due.now self.now }
    {
        let place = self.place();
        let ticks = self.ticks_after(due);
        let registers = self.machine.registers();
        let begun = registers.begun;
        let pending = registers.pending.is_some();
        Standing {
            pc: registers.pc,
            waits: begun,
            comes: (registers.delay == 0) & (!pending & !begun),
            pending,
            acts: ticks & (registers.delay == 0),
            breaks: due.disable[place] | due.restart[place],
            lined: due.disable[place] | due.restart[place] | due.enable[place],
        }
    }

    /// What it is after this clock, which is the one before the present one.
    #[tactic(auto, unfolding(crate::specs::Conduct::after_in))]
    pub fn after(&self, clock: u64) -> After
        requires within { clock < 2 ^ 40 }
        requires step { self.now.timing.clock ≡ clock + 1 }
        ensures { result ≡ after_in clock self.now }
    {
        let registers = self.machine.registers();
        let waits = registers.begun;
        After {
            waits,
            x: registers.x,
            y: registers.y,
            rests: self.rests(clock),
        }
    }

    /// The clock in which the last tick of its delay comes, as this clock says it.
    #[tactic(auto, unfolding(crate::specs::Conduct::rests_in))]
    fn rests(&self, clock: u64) -> Option<u64>
        requires within { clock < 2 ^ 40 }
        requires step { self.now.timing.clock ≡ clock + 1 }
        ensures { result ≡ rests_in clock self.now }
    {
        let delay = self.machine.registers().delay;
        if delay == 0 {
            return Some(clock);
        }
        if !self.enabled {
            return None;
        }
        Some(clock + 1 + self.divider.clocks_to_tick(u64::from(delay - 1)))
    }

    /// Whether the present clock is a tick of it, if these lines act in it.
    fn ticks_after(&self, due: &Due) -> bool
        ensures { result ≡ spec.has_tick (lined due.now self.now) }
    {
        let place = self.place();
        let now = self.divider.ticks_now();
        (due.enable[place] | (!due.disable[place] & self.enabled)) & (due.restart[place] | now)
    }

    /// How many words transfers moved into its TX and out of its RX.
    pub fn moved(&self) -> (u64, u64)
        ensures { result ≡ (self.now.sent, self.now.received) }
    {
        (self.sent, self.received)
    }
}

/// One more, where it is so.
fn counted(more: bool, n: u64) -> u64
    requires { n < 2 ^ 40 }
    ensures { result ≡ spec.counted more n }
{
    if more { n + 1 } else { n }
}

/// The divider of a machine, which its setup's type says that there is.
fn divider_of(setup: &MachineSetup) -> Divider
    ensures { result ≡ timing.first (timing.period_of setup.now.int setup.now.frac) }
{
    match Divider::new(setup.int, setup.frac) {
        Some(divider) => divider,
        None => unreachable!(),
    }
}
