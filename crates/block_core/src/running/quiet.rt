//! A clock in which the system does nothing, as most are: of a block, and of one machine where it is simple.
ghost use Rattle.std.specs.Prelude.{◌≡◌, ◌<◌, ◌^◌, false, true, Some};
ghost use Rattle.sm_registers.specs.Simple.{is_done, leaves_ready};
ghost use Rattle.dreq_pacing.specs.Due.{quiet};
ghost use Rattle.block_core.specs.Block.{next_over, uses_fifos_over};
ghost use Rattle.block_core.specs.Shown.{sample_of};
ghost use Rattle.block_core.specs.Slots as spec;

use crate::news::News;
use crate::running::Running;
use crate::slot::Slot;
use fifo_pair::{Fifo, a_quiet_clock_changes_nothing};
use sm_registers::{Outputs, Tried, View, a_calm_tick_tells_nothing_new};

impl<F: Fifo> Running<F> {
    /// One clock with these pads, in which the system does nothing, and what it may have changed. A simple clock of the
    /// only machine is the short way; nobody does anything at a FIFO in it.
    #[inline(always)]
    pub fn quiet_step(&mut self, pad: u32) -> News
        requires { self.old.clock < 2 ^ 40 }
        ensures run { self.new ≡ next_over pad quiet self.old }
        ensures fifos { result.fifos ≡ uses_fifos_over pad quiet self.old }
        ensures shown { result.shown ≡ false → sample_of self.new.state ≡ sample_of self.old.state }
    {
        a_calm_tick_tells_nothing_new();
        a_quiet_clock_changes_nothing();
        // `ready` is of an only machine too (`AreKnown`). It is tested first, as it holds most often.
        if self.known.ready || self.known.alone {
            if let Some(first) = &mut self.first {
                let view = View::new(&self.shared, pad);
                let outputs = &mut self.wanted.outputs;
                let tried = first.simple_clock(&view, outputs, self.known.ready);
                if tried.is_done() {
                    self.known.ready = tried.is_ready();
                    self.shared.sync.step(pad);
                    self.clock += 1;
                    return News {
                        fifos: false,
                        shown: self.sample.show_pins(&self.wanted.outputs),
                    };
                }
            }
        }
        // Of a lone machine it tries a simple clock once more, in vain: it is one piece of code for all places.
        News {
            fifos: self.step_all(pad, None),
            shown: true,
        }
    }
}

impl<F: Fifo> Slot<F> {
    /// Its clock, where the system does nothing in it and it is a simple one: it has no tick, or a simple tick. Else
    /// nothing is done. Of a machine that is known to be ready in this clock, neither autopull, delay, stall, pending
    /// word nor divider is asked. In a simple clock it wants nothing of its FIFOs, and of its block only pins, which it
    /// writes over those of the machines before it.
    #[inline(always)]
    pub fn simple_clock(&mut self, view: &View, outputs: &mut Outputs, ready: bool) -> Tried
        requires ready { ready ≡ true → spec.is_ready (Some self.old) ≡ true }
        requires clock { self.old.timing.clock < 2 ^ 40 }
        ensures simple { is_done result ≡ spec.is_simple view.now (Some self.old) }
        ensures done { is_done result ≡ true
            → spec.MakesSimpleClock view.now self.old self.new outputs.old outputs.new }
        ensures next { leaves_ready result ≡ true → spec.is_ready (Some self.new) ≡ true }
        ensures kept { is_done result ≡ false → (self.new ≡ self.old) × (outputs.new ≡ outputs.old) }
    {
        a_quiet_clock_changes_nothing();
        if !self.has_tick_by(ready) {
            self.divider.step();
            return Tried::Done;
        }
        let tried = self.machine.simple_tick(view, outputs, ready);
        if !tried.is_done() {
            return tried;
        }
        self.divider.step_from_tick();
        if self.divider.ticks_now() {
            tried
        } else {
            Tried::Done
        }
    }

    /// The same, where it may be known to be ready: its clock is a tick then.
    #[inline(always)]
    fn has_tick_by(&self, ready: bool) -> bool
        requires { ready ≡ true → spec.is_ready (Some self.now) ≡ true }
        ensures { result ≡ spec.has_tick self.now }
    {
        ready || self.has_tick()
    }
}
