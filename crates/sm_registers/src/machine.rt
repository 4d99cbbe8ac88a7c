//! A state machine with its FIFOs. In a clock it ticks or doesn't, and then settles what it and the system want.
ghost use Rattle.std.specs.Prelude.{◌≡◌, ℕ, ◌-◌, ◌<◌, false, true, length, IsTrue, IsSome, IfOk};
ghost use Rattle.sm_registers.specs.Idling.{IsIdle, IsSoon, after_ticks, begins_next, idle_of, stirs_at};
ghost use Rattle.sm_registers.specs.Simple.{MakesTick, is_done, is_ready, is_simple, leaves_ready};
ghost use Rattle.sm_registers.specs.declared.intent.Intent as spec_intent;
ghost use Rattle.sm_registers.specs.State.{IsKept, first_machine, queues_of, settled_ports, shown_of, tick_in, uses_fifos};
ghost use Rattle.sm_registers.specs.State as spec;

use crate::decoded::Decoded;
use crate::idle::Idle;
use crate::idling::{idle_of, is_unmet};
use crate::intent::Intent;
use crate::outputs::Outputs;
use crate::registers::Registers;
use crate::shown::Shown;
use crate::simple::{Tried, begins_anew, planned_effect};
use crate::sticky::{RX_UNDER, TX_OVER};
use crate::tick::{conclude, current_word, tick_of};
use crate::view::View;
use fifo_pair::{Fifo, Pair};
use pin_matrix::MachineSetup;
use std::alloc::{AllocError, Global};
use std::marker::Model;

/// A state machine. Nothing outside sees more of it than its `MachineState`.
#[derive(Drop)]
pub struct Machine<F: Fifo> {
    setup: MachineSetup,
    registers: Registers,
    fifos: Pair<F>,
    got: u32,
    sticky: u8,
    decoded: Decoded,
}

impl<F: Fifo> Model for Machine<F> {
    ghost use Rattle.std.specs.Prelude.{◌≡◌};
    ghost use Rattle.sm_registers.specs.State.{MachineState, IsKept};

    ghost Value = { MachineState };

    ghost view = { λ m. record {
      setup = m.setup;
      registers = m.registers;
      ports = record { fifos = m.fifos; got = m.got; sticky = m.sticky };
    } };

    ghost invariant = { λ m. IsKept m.setup m.registers m.fifos × (m.decoded.setup ≡ m.setup) };
}

impl<F: Fifo> Machine<F> {
    /// A machine at the start of a run. The error is out of memory; no other call takes any.
    pub fn new(alloc: Global, setup: &MachineSetup) -> Result<Machine<F>, AllocError>
        ensures { IfOk result (λ machine. machine ≡ first_machine setup.now) }
    {
        Ok(Machine {
            setup: *setup,
            registers: first_registers(setup),
            fifos: Pair::new(alloc, setup.join_tx, setup.join_rx)?,
            got: 0,
            sticky: 0,
            decoded: Decoded::new(setup),
        })
    }

    /// Its setup, which never changes.
    pub fn setup(&self) -> &MachineSetup
        ensures value { result.now ≡ self.now.setup }
        ensures kept { IsKept self.now.setup self.now.registers self.now.ports.fifos }
    {
        &self.setup
    }

    /// Its registers.
    #[inline(always)]
    pub fn registers(&self) -> &Registers
        ensures value { result.now ≡ self.now.registers }
        ensures kept { IsKept self.now.setup self.now.registers self.now.ports.fifos }
    {
        &self.registers
    }

    /// What can be seen of it.
    pub fn shown(&self) -> Shown
        ensures value { result ≡ shown_of self.now.ports }
        ensures kept { IsKept self.now.setup self.now.registers self.now.ports.fifos }
    {
        Shown {
            tx: self.tx_level(),
            rx: self.rx_level(),
            tx_full: self.fifos.tx_full(),
            rx_empty: self.rx_level() == 0,
            got: self.got,
            sticky: self.sticky,
        }
    }

    /// One tick. Its registers change; what it does outside them, `settle` and the block carry out.
    #[inline(always)]
    pub fn tick(&mut self, view: &View) -> Intent
        ensures state { self.new ≡ record self.old { registers = (tick_in view.now self.old).0 } }
        ensures intent { result ≡ (tick_in view.now self.old).1 }
        ensures take { IsTrue result.take → 0 < length self.new.ports.fifos.tx }
        ensures word { IsSome result.word → length self.new.ports.fifos.rx < self.new.ports.fifos.rx_room }
    {
        tick_of(
            &self.setup,
            view,
            &self.fifos,
            &mut self.decoded,
            &mut self.registers,
        )
    }

    /// Makes its next tick where that is simple, and else does nothing. Of a machine that is known to be ready, neither
    /// autopull, delay, stall nor pending word is asked. Outside the registers a simple tick does nothing but write
    /// pins, over those of the machines before it.
    #[inline(always)]
    #[tactic(auto, unfolding(crate::specs::Tick::tick_of))]
    pub fn simple_tick(&mut self, view: &View, outputs: &mut Outputs, ready: bool) -> Tried
        requires ready { ready ≡ true → is_ready self.old.setup self.old.registers ≡ true }
        ensures simple { is_done result ≡ is_simple self.old.setup view.now self.old.registers }
        ensures done { is_done result ≡ true
            → MakesTick view.now self.old self.new outputs.old outputs.new }
        ensures next { is_done result ≡ true
            → leaves_ready result ≡ is_ready self.new.setup self.new.registers }
        ensures kept { is_done result ≡ false → (self.new ≡ self.old) × (outputs.new ≡ outputs.old) }
    {
        if !ready {
            if self.setup.autopull {
                return Tried::NotSimple;
            }
            // A delay counts.
            if self.registers.delay > 0 {
                self.registers.delay -= 1;
                return Tried::done(begins_anew(&self.registers));
            }
            // A WAIT that has begun may wait once more.
            if self.registers.begun {
                let (place, word) = current_word(view, &self.registers);
                self.decoded.read(place, word);
                let waits = is_unmet(&self.decoded.reading(place).op.act, &self.setup, view);
                if waits {
                    return Tried::Done;
                }
                return Tried::NotSimple;
            }
            if self.registers.pending.is_some() {
                return Tried::NotSimple;
            }
        }
        // An instruction from memory begins, and ends if it never waits.
        let pc = self.registers.pc;
        self.decoded.read(pc, view.word(pc));
        let reading = self.decoded.reading(pc);
        let effect = planned_effect(reading, &self.setup, view, &self.fifos, &mut self.registers);
        let Some(end) = effect else {
            return Tried::NotSimple;
        };
        let begins = conclude(end, reading.next, reading.op.delay, &mut self.registers);
        outputs.write_end(end);
        outputs.write_side(reading.side);
        Tried::done(begins)
    }

    /// Whether its next tick begins an instruction. Such a tick stirs, whatever it sees (`a_first_tick_stirs`).
    #[inline(always)]
    pub fn begins_next(&self) -> bool
        ensures { result ≡ begins_next self.now.registers }
    {
        self.registers.delay == 0 && !self.registers.begun
    }

    /// When it next has a tick that stirs, if nothing outside it changes: in each tick it sees the same view, and its
    /// FIFOs hold the same. A refill is at once; a stall lasts; a delay of 0 to 31 ticks ends with the tick after it.
    /// It costs the same however far this is.
    #[tactic(auto, using(crate::proofs::Stirs::is_idle, crate::proofs::Stirs::is_soon))]
    pub fn idle_until(&self, view: &View) -> Idle
        ensures value { result
            ≡ idle_of self.now.setup view.now (queues_of self.now.ports.fifos) self.now.registers }
        ensures first { IsIdle self.now.setup view.now (queues_of self.now.ports.fifos) self.now.registers result }
        ensures below { IsSoon result }
    {
        idle_of(
            &self.setup,
            view,
            &self.fifos,
            &self.decoded,
            &self.registers,
        )
    }

    /// So many ticks at once, none of which stirs while it sees the same view. Only the delay counts. Their sticky
    /// flags are not raised again, and all else that they want is nothing.
    #[tactic(auto, using(crate::proofs::Stirs::passes))]
    pub fn leap(&mut self, view: &View, ticks: u64)
        requires { (k : ℕ) → k < ticks
            → stirs_at self.old.setup view.now (queues_of self.old.ports.fifos) self.old.registers k ≡ false }
        ensures ticks { self.new ≡ record self.old {
          registers =
              after_ticks self.old.setup view.now (queues_of self.old.ports.fifos) ticks self.old.registers;
        } }
        ensures delay { self.new ≡ record self.old {
          registers = record self.old.registers { delay = self.old.registers.delay - ticks };
        } }
    {
        let left = u64::from(self.registers.delay).saturating_sub(ticks);
        self.registers.delay = left as u8;
    }

    /// Ends a clock: the machine takes and gives what it wants, and the system writes the word, if any, and reads RX or
    /// doesn't. A level is what it was at the clock's start. True where any of them did anything at the FIFOs.
    #[inline(always)]
    #[tactic(auto, unfolding(crate::specs::State::settled_ports, fifo_pair::specs::Fifos::settled))]
    pub fn settle(&mut self, intent: &Intent, word: Option<u32>, read: bool) -> bool
        requires take { IsTrue intent.now.take → 0 < length self.old.ports.fifos.tx }
        requires word { IsSome intent.now.word
            → length self.old.ports.fifos.rx < self.old.ports.fifos.rx_room }
        ensures after { self.new
            ≡ record self.old { ports = settled_ports intent.now word read self.old.ports } }
        ensures used { result ≡ uses_fifos intent.now word read }
    {
        if !intent.take && intent.word.is_none() && word.is_none() && !read {
            self.sticky = intent.sticky | self.sticky;
            false
        } else {
            self.move_words(intent.take, intent.word, intent.sticky, word, read);
            true
        }
    }

    /// The same where somebody does something, by what the tick takes, gives and raises.
    #[inline(never)]
    #[tactic(auto, unfolding(crate::specs::State::settled_ports, fifo_pair::specs::Fifos::settled))]
    fn move_words(
        &mut self,
        take: bool,
        given: Option<u32>,
        sticky: u8,
        word: Option<u32>,
        read: bool,
    )
        requires take { IsTrue take → 0 < length self.old.ports.fifos.tx }
        requires word { IsSome given → length self.old.ports.fifos.rx < self.old.ports.fifos.rx_room }
        ensures { (i : spec_intent.Intent) → i.take ≡ take → i.word ≡ given → i.sticky ≡ sticky
            → self.new ≡ record self.old { ports = settled_ports i word read self.old.ports } }
    {
        let settled = self.fifos.settle(take, given, word, read);
        self.got = got_after(settled.got, self.got);
        self.sticky = told(settled.over, settled.under) | (sticky | self.sticky);
    }

    /// How many words are in TX.
    fn tx_level(&self) -> u8
        ensures { result ≡ length self.now.ports.fifos.tx }
    {
        self.fifos.tx_level() as u8
    }

    /// How many words are in RX.
    fn rx_level(&self) -> u8
        ensures { result ≡ length self.now.ports.fifos.rx }
    {
        self.fifos.rx_level() as u8
    }
}

/// The registers at the start.
fn first_registers(setup: &MachineSetup) -> Registers
    ensures { result ≡ spec.first_registers setup.now }
{
    Registers {
        pc: setup.start,
        x: setup.x,
        y: setup.y,
        isr: setup.isr,
        osr: setup.osr,
        in_count: setup.isr_count,
        out_count: setup.osr_count,
        delay: 0,
        pending: setup.pending,
        begun: false,
    }
}

/// A word that the system read, else the one before.
fn got_after(read: Option<u32>, before: u32) -> u32
    ensures { result ≡ spec.got_after read before }
{
    match read {
        Some(word) => word,
        None => before,
    }
}

/// The sticky flags of the system's accesses.
fn told(over: bool, under: bool) -> u8
    ensures { result ≡ spec.told over under }
{
    (if over { TX_OVER } else { 0 }) + (if under { RX_UNDER } else { 0 })
}
