//! Laws of the shift registers and the FIFOs in a tick. Each is on a function that does nothing.
ghost use Rattle.std.specs.Prelude.{◌≡◌, ℕ, ◌+◌, ◌<◌, ◌≤◌, true, false, [], is_some, min, bit_or};
ghost use Rattle.fifo_pair.specs.Fifos as fifos;
ghost use Rattle.pin_matrix.specs.declared.machine.MachineSetup as setup;
ghost use Rattle.pio_encode.specs.declared.act.Act.TheVariants.{In};
ghost use Rattle.pio_encode.specs.declared.act.InSource as in_source;
ghost use Rattle.shift_engine.specs.Shift.{shifted_in};
ghost use Rattle.sm_registers.specs.Effects.{effect_of, in_word};
ghost use Rattle.sm_registers.specs.Idling.{stirs};
ghost use Rattle.sm_registers.specs.Queues as queues;
ghost use Rattle.sm_registers.specs.Rules.{HoldsOrGives, bits_out, current_act, fills_osr, is_pull, raises, waits_for_tx};
ghost use Rattle.sm_registers.specs.State.{queues_of};
ghost use Rattle.sm_registers.specs.Tick.{after_effect, refills, tick_of};
ghost use Rattle.sm_registers.specs.StallFlags.{AreUp, IsKnown};
ghost use Rattle.sm_registers.specs.declared.sticky.TheConstants.{TX_STALL};
ghost use Rattle.sm_registers.specs.declared.registers.Registers as registers;
ghost use Rattle.sm_registers.specs.View as view;

/// Autopull, with a TX that has a word, leaves no OSR at its threshold: after any tick, first, late or of a delay, its
/// count is below (`filled`). One that was at the threshold takes the word in the same tick, unless the tick fills it
/// by a MOV (`taken`, `delayed`). No tick takes two words: a PULL that takes one isn't followed by a refill (`once`).
/// But for a PULL, a word is taken only with autopull, at the threshold, counting the bits that the tick's OUT shifts
/// out (`only`) (RP2040 Datasheet, section 3.5.4; which ticks refill is a choice of this profile).
pub fn autopull_takes_what_it_can()
    ensures filled { (s : setup.MachineSetup) (v : view.View) (q : queues.Queues) (r : registers.Registers)
        → s.autopull ≡ true → is_some q.front ≡ true → (tick_of s v q r).0.out_count < s.pull_threshold }
    ensures taken { (s : setup.MachineSetup) (v : view.View) (q : queues.Queues) (r : registers.Registers)
        → s.autopull ≡ true → is_some q.front ≡ true → s.pull_threshold ≤ r.out_count
        → fills_osr (current_act v r) ≡ false → (tick_of s v q r).1.take ≡ true }
    ensures delayed { (s : setup.MachineSetup) (v : view.View) (q : queues.Queues) (r : registers.Registers)
        → s.autopull ≡ true → is_some q.front ≡ true → s.pull_threshold ≤ r.out_count
        → 0 < r.delay → (tick_of s v q r).1.take ≡ true }
    ensures once { (s : setup.MachineSetup) (v : view.View) (q : queues.Queues) (r : registers.Registers) (delay : ℕ)
        → (effect_of (current_act v r) s v q r).take ≡ true
        → refills s q (after_effect delay s r (effect_of (current_act v r) s v q r)) ≡ false }
    ensures only { (s : setup.MachineSetup) (v : view.View) (q : queues.Queues) (r : registers.Registers)
        → is_pull (current_act v r) ≡ false → (tick_of s v q r).1.take ≡ true
        → (s.autopull ≡ true) × (s.pull_threshold ≤ r.out_count + bits_out (current_act v r)) }
{}

/// IN shifts in its first tick alone: there its bits come into the ISR, whether it then stalls, pushes or neither; a
/// late tick leaves the ISR, or empties it by its push (section 3.4.4; that a stall comes after the shift is a choice
/// of this profile).
pub fn in_shifts_once()
    ensures first { (s : setup.MachineSetup) (v : view.View) (q : queues.Queues) (r : registers.Registers)
        (source : in_source.InSource) (n : ℕ) → current_act v r ≡ In source n → r.delay ≡ 0 → r.begun ≡ false
        → HoldsOrGives (shifted_in r.isr (in_word source s v r) n s.in_right) (min 32 (r.in_count + n)) (tick_of s v q r) }
    ensures late { (s : setup.MachineSetup) (v : view.View) (q : queues.Queues) (r : registers.Registers)
        (source : in_source.InSource) (n : ℕ) → current_act v r ≡ In source n → r.delay ≡ 0 → r.begun ≡ true
        → HoldsOrGives r.isr r.in_count (tick_of s v q r) }
{}

/// TXSTALL rises only where TX is empty as the tick begins (`only`), and there in each tick in which an OUT or a PULL
/// stalls (`rises`) (section 3.7, FDEBUG).
pub fn txstall_tells_an_empty_tx()
    ensures only { (s : setup.MachineSetup) (v : view.View) (f : fifos.Fifos) (r : registers.Registers)
        → raises TX_STALL (tick_of s v (queues_of f) r).1.sticky ≡ true → f.tx ≡ [] }
    ensures rises { (s : setup.MachineSetup) (v : view.View) (f : fifos.Fifos) (r : registers.Registers)
        → waits_for_tx (current_act v r) ≡ true → r.delay ≡ 0 → (tick_of s v (queues_of f) r).1.stalled ≡ true
        → f.tx ≡ [] → raises TX_STALL (tick_of s v (queues_of f) r).1.sticky ≡ true }
{}

/// A late tick that stalls raises again the flags of its stall. Where these are up from the ticks before, it says
/// nothing new, and may be left out: `IsKnown` says that they are. Every tick keeps it, by the flags that this one
/// raises (`after`), and so do flags that come to them (`more`). A tick that doesn't stir then changes no flag
/// (`calm`). A machine that hasn't begun an instruction has it for any flags (section 3.7, FDEBUG).
pub fn a_calm_tick_tells_nothing_new()
    ensures after { (s : setup.MachineSetup) (v : view.View) (f : fifos.Fifos) (r : registers.Registers) (sticky : ℕ)
        → IsKnown v s r sticky
        → IsKnown v s (tick_of s v (queues_of f) r).0 (bit_or (tick_of s v (queues_of f) r).1.sticky sticky) }
    ensures more { (s : setup.MachineSetup) (v : view.View) (r : registers.Registers) (more sticky : ℕ)
        → IsKnown v s r sticky → IsKnown v s r (bit_or more sticky) }
    ensures calm { (s : setup.MachineSetup) (v : view.View) (q : queues.Queues) (r : registers.Registers) (sticky : ℕ)
        → IsKnown v s r sticky → stirs (tick_of s v q r).1 ≡ false → AreUp (tick_of s v q r).1.sticky sticky }
{}
