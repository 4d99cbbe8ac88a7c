//! Laws of the order in which a machine works: side-set, PC, pending words, delay. Each is on a function that does
//! nothing.
ghost use Rattle.std.specs.Prelude.{◌≡◌, ◌≢◌, ℕ, ◌+◌, ◌%◌, ◌^◌, ◌<◌, Bool, true, false, Some, None, is_some, slice_index, if◌then◌else◌};
ghost use Rattle.irq_flags.specs.Flags.{flag_of};
ghost use Rattle.pin_matrix.specs.Pins.{writes_of};
ghost use Rattle.pin_matrix.specs.declared.machine.MachineSetup as setup;
ghost use Rattle.pio_encode.specs.Word.{reading_of};
ghost use Rattle.pio_encode.specs.declared.act.Act.TheVariants.{Jmp, Irq};
ghost use Rattle.pio_encode.specs.declared.act.Condition as condition;
ghost use Rattle.sm_registers.specs.Effects.{is_up, jumps};
ghost use Rattle.sm_registers.specs.Queues as queues;
ghost use Rattle.sm_registers.specs.Rules.{HasSideSet, current_act, is_exec, writes_pc};
ghost use Rattle.sm_registers.specs.State.{first_registers};
ghost use Rattle.sm_registers.specs.Tick.{current_word, tick_of};
ghost use Rattle.sm_registers.specs.declared.registers.Registers as registers;
ghost use Rattle.sm_registers.specs.View as view;

/// Side-set is written in the first tick of an instruction, whether it stalls or not, and in no other: an instruction
/// that has begun writes none, nor does a delay (RP2040 Datasheet, section 3.5.1).
pub fn side_set_is_written_once()
    ensures first { (s : setup.MachineSetup) (v : view.View) (q : queues.Queues) (r : registers.Registers) (value : ℕ)
        → r.begun ≡ false → r.delay ≡ 0 → (reading_of (current_word v r) s.side_rule).side ≡ Some value
        → HasSideSet (tick_of s v q r).1
        (if s.side_rule.pindirs then (0, 0) else writes_of s.side value)
        (if s.side_rule.pindirs then writes_of s.side value else (0, 0)) }
    ensures begun { (s : setup.MachineSetup) (v : view.View) (q : queues.Queues) (r : registers.Registers)
        → r.begun ≡ true → HasSideSet (tick_of s v q r).1 (0, 0) (0, 0) }
    ensures delayed { (s : setup.MachineSetup) (v : view.View) (q : queues.Queues) (r : registers.Registers)
        → 0 < r.delay → HasSideSet (tick_of s v q r).1 (0, 0) (0, 0) }
{}

/// A taken JMP goes to its target, also from `wrap_top`. Any other instruction that finishes there without writing PC
/// goes on at `wrap_bottom`, and elsewhere at the next address, after 31 at 0 (section 3.5.2).
pub fn a_taken_jump_does_not_wrap()
    ensures taken { (s : setup.MachineSetup) (v : view.View) (q : queues.Queues) (r : registers.Registers)
        (c : condition.Condition) (address : ℕ) → current_act v r ≡ Jmp c address → r.delay ≡ 0
        → jumps c s v r ≡ true → (tick_of s v q r).0.pc ≡ address }
    ensures wraps { (s : setup.MachineSetup) (v : view.View) (q : queues.Queues) (r : registers.Registers)
        → r.pending ≡ None → r.delay ≡ 0 → (tick_of s v q r).1.stalled ≡ false
        → writes_pc (current_act v r) s v r ≡ false → r.pc ≡ s.wrap_top
        → (tick_of s v q r).0.pc ≡ s.wrap_bottom }
    ensures goes_on { (s : setup.MachineSetup) (v : view.View) (q : queues.Queues) (r : registers.Registers)
        → r.pending ≡ None → r.delay ≡ 0 → (tick_of s v q r).1.stalled ≡ false
        → writes_pc (current_act v r) s v r ≡ false → r.pc ≢ s.wrap_top
        → (tick_of s v q r).0.pc ≡ (r.pc + 1) % 32 }
{}

/// The first instruction of a machine is the word that is pending in its setup, as after a write of SMx_INSTR before it
/// is enabled; else it is memory's at its start (section 3.7).
pub fn a_pending_word_is_the_first()
    ensures pending { (s : setup.MachineSetup) (v : view.View) (word : ℕ) → s.pending ≡ Some word
        → current_word v (first_registers s) ≡ word }
    ensures memory { (s : setup.MachineSetup) (v : view.View) → s.pending ≡ None
        → current_word v (first_registers s) ≡ slice_index v.memory s.start }
{}

/// After a pending word, unless it wrote PC, comes the instruction at the PC that it left, also where that is
/// `wrap_top`; once it has finished it is used up, unless it made another word pending (sections 3.4.5 and 3.4.8; that
/// it moves PC only by writing it is a choice of this profile).
pub fn a_pending_word_leaves_pc()
    ensures stays { (s : setup.MachineSetup) (v : view.View) (q : queues.Queues) (r : registers.Registers)
        → is_some r.pending ≡ true → writes_pc (current_act v r) s v r ≡ false
        → (tick_of s v q r).0.pc ≡ r.pc }
    ensures used_up { (s : setup.MachineSetup) (v : view.View) (q : queues.Queues) (r : registers.Registers)
        → r.delay ≡ 0 → (tick_of s v q r).1.stalled ≡ false → is_exec (current_act v r) ≡ false
        → (tick_of s v q r).0.pending ≡ None }
{}

/// An EXEC, by OUT or by MOV, makes a word pending and leaves no delay, whatever its delay field; every other
/// instruction that finishes leaves that of its word (sections 3.4.5 and 3.4.8).
pub fn an_exec_leaves_no_delay()
    ensures none { (s : setup.MachineSetup) (v : view.View) (q : queues.Queues) (r : registers.Registers)
        → r.delay ≡ 0 → is_exec (current_act v r) ≡ true → (tick_of s v q r).0.delay ≡ 0 }
    ensures pending { (s : setup.MachineSetup) (v : view.View) (q : queues.Queues) (r : registers.Registers)
        → r.delay ≡ 0 → is_exec (current_act v r) ≡ true → (tick_of s v q r).1.stalled ≡ false
        → is_some (tick_of s v q r).0.pending ≡ true }
    ensures others { (s : setup.MachineSetup) (v : view.View) (q : queues.Queues) (r : registers.Registers)
        → r.delay ≡ 0 → (tick_of s v q r).1.stalled ≡ false → is_exec (current_act v r) ≡ false
        → (tick_of s v q r).0.delay ≡ (reading_of (current_word v r) s.side_rule).delay }
{}

/// An IRQ with Wait, and without Clear, raises its flag and stalls in its first tick, whatever the flag was; a later
/// tick stalls exactly where the flag is still up. With Clear it never stalls (section 3.4.9).
pub fn irq_with_wait_stalls_first()
    ensures first { (s : setup.MachineSetup) (v : view.View) (q : queues.Queues) (r : registers.Registers) (index : ℕ)
        → current_act v r ≡ Irq false true index → r.delay ≡ 0 → r.begun ≡ false
        → ((tick_of s v q r).1.stalled ≡ true) × ((tick_of s v q r).1.sets ≡ 2 ^ flag_of index s.id) }
    ensures late { (s : setup.MachineSetup) (v : view.View) (q : queues.Queues) (r : registers.Registers) (index : ℕ)
        → current_act v r ≡ Irq false true index → r.delay ≡ 0 → r.begun ≡ true
        → ((tick_of s v q r).1.stalled ≡ is_up v.flags.up (flag_of index s.id)) × ((tick_of s v q r).1.sets ≡ 0) }
    ensures clear { (s : setup.MachineSetup) (v : view.View) (q : queues.Queues) (r : registers.Registers)
        (waits : Bool) (index : ℕ) → current_act v r ≡ Irq true waits index → r.delay ≡ 0
        → (tick_of s v q r).1.stalled ≡ false }
{}
