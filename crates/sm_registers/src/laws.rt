//! Laws of a tick, each on a function that does nothing. `tick_of` gives the registers after a tick and its intent.
ghost use Rattle.std.specs.Prelude.{◌≡◌, ℕ, ◌-◌, ◌^◌, ◌<◌, ◌||◌, not, Bool, true, false, Some, IfSome, is_some};
ghost use Rattle.std.specs.List.{AllByRecursion};
ghost use Rattle.pin_matrix.specs.Pins.{IsFree};
ghost use Rattle.pin_matrix.specs.declared.machine.MachineSetup as setup;
ghost use Rattle.sm_registers.specs.declared.registers.Registers as registers;
ghost use Rattle.sm_registers.specs.View as view;
ghost use Rattle.sm_registers.specs.Queues as queues;
ghost use Rattle.sm_registers.specs.declared.intent.Kind.TheVariants as kind;
ghost use Rattle.sm_registers.specs.Intents.{no_intent};
ghost use Rattle.sm_registers.specs.Idling.{IsIdle, after_ticks, begins_next, idle_of, only_counts, only_waits, stirs, stirs_at, waits_again};
ghost use Rattle.sm_registers.specs.Laws.{AreWords, AreWordsSeen, IsAlike, IsFair, TakesInto, GivesAll, WritesPins};
ghost use Rattle.sm_registers.specs.Ranges.{IsPlaced};
ghost use Rattle.sm_registers.specs.Rules.{holds};
ghost use Rattle.sm_registers.specs.Tick.{refills, tick_of};

/// A tick keeps every register in its range, and gives a word of 32 bits.
pub fn ranges_are_kept()
    ensures placed { (s : setup.MachineSetup) (v : view.View) (q : queues.Queues) (r : registers.Registers)
        → IsPlaced r → IsPlaced (tick_of s v q r).0 }
    ensures words { (s : setup.MachineSetup) (v : view.View) (q : queues.Queues) (r : registers.Registers)
        → AreWordsSeen v q → AreWords r → AreWords (tick_of s v q r).0 }
    ensures word { (s : setup.MachineSetup) (v : view.View) (q : queues.Queues) (r : registers.Registers)
        → AreWords r → AreWordsSeen v q → IfSome (tick_of s v q r).1.word (λ w. w < 2 ^ 32) }
{}

/// All that a tick writes are writes of pins: each has bits at its own pins alone, whatever the registers hold.
pub fn writes_are_of_pins()
    ensures { (s : setup.MachineSetup) (v : view.View) (q : queues.Queues) (r : registers.Registers)
        → WritesPins (tick_of s v q r).1 }
{}

/// A tick writes the pins of its machine's own mappings alone: those of OUT and of SET, and of side-set's either levels
/// or directions (RP2040 Datasheet, section 3.5.6).
pub fn a_tick_writes_its_own_pins()
    ensures level { (s : setup.MachineSetup) (v : view.View) (q : queues.Queues) (r : registers.Registers) (p : ℕ)
        → p < 32 → holds s.out p ≡ false → holds s.set p ≡ false
        → (s.side_rule.pindirs || not (holds s.side p)) ≡ true
        → AllByRecursion (IsFree p) (tick_of s v q r).1.level }
    ensures direction { (s : setup.MachineSetup) (v : view.View) (q : queues.Queues) (r : registers.Registers) (p : ℕ)
        → p < 32 → holds s.out p ≡ false → holds s.set p ≡ false
        → (not s.side_rule.pindirs || not (holds s.side p)) ≡ true
        → AllByRecursion (IsFree p) (tick_of s v q r).1.direction }
{}

/// A tick takes a word only where TX has one, and gives one only where RX has room.
pub fn moves_are_fair()
    ensures { (s : setup.MachineSetup) (v : view.View) (q : queues.Queues) (r : registers.Registers)
        → IsFair q (tick_of s v q r).1 }
{}

/// No word is lost between a FIFO and a shift register: one that a tick takes, by PULL or by a refill, is whole in the
/// OSR after it, and one that it gives leaves the ISR empty.
pub fn no_word_is_lost()
    ensures taken { (s : setup.MachineSetup) (v : view.View) (q : queues.Queues) (r : registers.Registers) (word : ℕ)
        → q.front ≡ Some word → (tick_of s v q r).1.take ≡ true → TakesInto word (tick_of s v q r).0 }
    ensures given { (s : setup.MachineSetup) (v : view.View) (q : queues.Queues) (r : registers.Registers)
        → is_some (tick_of s v q r).1.word ≡ true → GivesAll (tick_of s v q r).0 }
{}

/// A tick of a delay, in which the OSR isn't refilled, changes the delay alone, and does nothing outside.
pub fn a_delay_only_counts()
    ensures { (s : setup.MachineSetup) (v : view.View) (q : queues.Queues) (r : registers.Registers)
        → 0 < r.delay → refills s q r ≡ false
        → tick_of s v q r ≡ (record r { delay = r.delay - 1 }, record no_intent { kind = kind.Delay }) }
{}

/// A late tick that stalls, in which the OSR isn't refilled, changes no register, and does nothing outside but to raise
/// again the sticky flags of its stall.
pub fn a_late_stall_only_waits()
    ensures { (s : setup.MachineSetup) (v : view.View) (q : queues.Queues) (r : registers.Registers)
        → r.begun ≡ true → r.delay ≡ 0 → refills s q r ≡ false → (tick_of s v q r).1.stalled ≡ true
        → tick_of s v q r ≡ (
          r,
          record no_intent {
            sticky = (tick_of s v q r).1.sticky;
            kind = kind.Late;
            stalled = true;
          },
        ) }
{}

/// A tick in which a WAIT only waits once more changes nothing, and does nothing outside.
pub fn a_wait_that_goes_on_does_nothing()
    ensures { (s : setup.MachineSetup) (v : view.View) (q : queues.Queues) (r : registers.Registers)
        → waits_again s v r ≡ true → tick_of s v q r ≡ (r, record no_intent { kind = kind.Late; stalled = true }) }
{}

/// A tick that doesn't stir only counts the delay. Outside it does nothing but to raise again the sticky flags of a
/// stall (`once`). So do many in a row, which see the same (`often`).
pub fn a_calm_tick_only_counts()
    ensures once { (s : setup.MachineSetup) (v : view.View) (q : queues.Queues) (r : registers.Registers)
        → stirs (tick_of s v q r).1 ≡ false
        → tick_of s v q r ≡ (only_counts r, only_waits (tick_of s v q r).1) }
    ensures often { (s : setup.MachineSetup) (v : view.View) (q : queues.Queues) (r : registers.Registers) (n : ℕ)
        → ((k : ℕ) → k < n → stirs_at s v q r k ≡ false)
        → after_ticks s v q n r ≡ record r { delay = r.delay - n } }
{}

/// A tick that begins an instruction stirs, whatever it sees.
pub fn a_first_tick_stirs()
    ensures { (s : setup.MachineSetup) (v : view.View) (q : queues.Queues) (r : registers.Registers)
        → begins_next r ≡ true → stirs (tick_of s v q r).1 ≡ true }
{}

/// While nothing outside a machine changes, `idle_of` is exactly how many ticks pass before the next one that stirs.
pub fn a_machine_idles_until_it_stirs()
    ensures { (s : setup.MachineSetup) (v : view.View) (q : queues.Queues) (r : registers.Registers)
        → IsIdle s v q r (idle_of s v q r) }
{}

/// A tick is the same in two views that agree on what it reads. A delay reads nothing.
pub fn a_tick_sees_what_it_reads()
    ensures instruction { (s : setup.MachineSetup) (v w : view.View) (q : queues.Queues) (r : registers.Registers)
        → IsAlike s r v w → tick_of s v q r ≡ tick_of s w q r }
    ensures waiting { (s : setup.MachineSetup) (v w : view.View) (q : queues.Queues) (r : registers.Registers)
        → 0 < r.delay → tick_of s v q r ≡ tick_of s w q r }
{}
