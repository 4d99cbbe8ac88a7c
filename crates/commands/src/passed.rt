//! What each command has done where its call ends with status 0, as laws on functions that do nothing: from the status
//! to the promise of the command, and from that to its record.
ghost use Rattle.std.specs.Prelude.{◌≡◌, ℕ, Bool, List, Option, None, Some};
ghost use Rattle.clap.specs.Walk.{Text};
ghost use Rattle.command_line.specs.Words as asked;
ghost use Rattle.command_line.specs.Words.{Asked};
ghost use Rattle.commands.specs.Ends.{EndsAs};
ghost use Rattle.commands.specs.Outside.{Call};
ghost use Rattle.commands.specs.Passed.{AsmPassed, CheckPassed, DisPassed, GenPassed, InspectPassed};
ghost use Rattle.commands.specs.Passed.{MeasurePassed, PairPassed, Passed, ReceivePassed, RecheckPassed};
ghost use Rattle.commands.specs.Passed.{RunPassed, SharesPassed, TablePassed, UartPassed};
ghost use Rattle.commands.specs.Promise.{Passes};
ghost use Rattle.commands.specs.Wanted.{wanted};
ghost use Rattle.fault_lines.specs.Told.{status_of};
ghost use Rattle.fault_lines.specs.declared.fault.Fault.{Fault};
ghost use Rattle.pio_edge.specs.Edge.{Files};

/// Only a call without a fault has status 0.
#[tactic(auto, using(crate::proofs::PassedRecords::no_fault))]
pub fn status_0_is_no_fault()
    ensures { (found : Option Fault) → status_of found ≡ 0 → found ≡ None }
{}

/// A call that ends as promised with status 0 kept the promise of the command that its words want.
#[tactic(auto, using(crate::proofs::PassedRecords::kept))]
pub fn a_call_with_status_0_passes()
    ensures { (words : List Text) (c : Call) (a : Asked) (found : Option Fault) → wanted words ≡ Some a
        → EndsAs words c found → status_of found ≡ 0 → Passes c a }
{}

/// `run` wrote the trace of the samples that stepping gives, and each span of its setup holds in every run.
#[tactic(auto, using(crate::proofs::PassedRecords::run_passed))]
pub fn a_passed_run_is_its_trace()
    ensures { (c : Call) (files : Files) (source : List ℕ) (config stimulus : Option (List ℕ)) (clocks : ℕ)
        → Passed c files (asked.run source config stimulus clocks)
        → RunPassed c files source config stimulus clocks }
{}

/// `pair` wrote the trace of the samples of both blocks, and each span of either holds in every run of both.
#[tactic(auto, using(crate::proofs::PassedRecords::pair_passed))]
pub fn a_passed_pair_is_its_trace()
    ensures { (c : Call) (files : Files) (source config second : List ℕ)
        (stimulus : Option (List ℕ)) (clocks : ℕ)
        → Passed c files (asked.pair source config second stimulus clocks)
        → PairPassed c files source config second stimulus clocks }
{}

/// `check` wrote the verdict on each span, and each holds in every run.
#[tactic(auto, using(crate::proofs::PassedRecords::check_passed))]
pub fn a_passed_check_is_its_verdicts()
    ensures { (c : Call) (files : Files) (source : List ℕ) (config : Option (List ℕ))
        → Passed c files (asked.check source config) → CheckPassed c files source config }
{}

/// `table` wrote the least closed table of a span, and the span holds in every run.
#[tactic(auto, using(crate::proofs::PassedRecords::table_passed))]
pub fn a_passed_table_is_a_proof()
    ensures { (c : Call) (files : Files) (source : List ℕ) (config : Option (List ℕ)) (name : List ℕ)
        → Passed c files (asked.table source config name) → TablePassed c files source config name }
{}

/// `recheck` found that the table of a file proves a span, which then holds in every run.
#[tactic(auto, using(crate::proofs::PassedRecords::recheck_passed))]
pub fn a_passed_recheck_is_a_proof()
    ensures { (c : Call) (files : Files) (source : List ℕ) (config : Option (List ℕ)) (name file : List ℕ)
        → Passed c files (asked.recheck source config name file)
        → RecheckPassed c files source config name file }
{}

/// `measure` wrote what each span measures in a run.
#[tactic(auto, using(crate::proofs::PassedRecords::measure_passed))]
pub fn a_passed_measure_is_its_lines()
    ensures { (c : Call) (files : Files) (source : List ℕ) (config stimulus : Option (List ℕ)) (clocks : ℕ)
        → Passed c files (asked.measure source config stimulus clocks)
        → MeasurePassed c files source config stimulus clocks }
{}

/// `receive` wrote the frames that a pin sends in the samples of a run.
#[tactic(auto, using(crate::proofs::PassedRecords::receive_passed))]
pub fn a_passed_receive_is_its_frames()
    ensures { (c : Call) (files : Files)
        (source : List ℕ) (config stimulus : Option (List ℕ)) (clocks pin bit : ℕ)
        → Passed c files (asked.receive source config stimulus clocks pin bit)
        → ReceivePassed c files source config stimulus clocks pin bit }
{}

/// `inspect` wrote the trace of what is inside the block in a run.
#[tactic(auto, using(crate::proofs::PassedRecords::inspect_passed))]
pub fn a_passed_inspect_is_its_trace()
    ensures { (c : Call) (files : Files) (source : List ℕ) (config stimulus : Option (List ℕ)) (clocks : ℕ)
        → Passed c files (asked.inspect source config stimulus clocks)
        → InspectPassed c files source config stimulus clocks }
{}

/// `uart` wrote each byte of a file that is sent within the clocks.
#[tactic(auto, using(crate::proofs::PassedRecords::uart_passed))]
pub fn a_passed_uart_is_its_bytes()
    ensures { (c : Call) (files : Files) (send : List ℕ) (divider clocks : ℕ)
        → Passed c files (asked.uart send divider clocks) → UartPassed c files send divider clocks }
{}

/// `shares` wrote what the machines of a setup share.
#[tactic(auto, using(crate::proofs::PassedRecords::shares_passed))]
pub fn a_passed_shares_is_its_report()
    ensures { (c : Call) (files : Files) (source : List ℕ) (config : Option (List ℕ))
        → Passed c files (asked.shares source config) → SharesPassed c files source config }
{}

/// `gen` wrote the summary of the load that a seed draws.
#[tactic(auto, using(crate::proofs::PassedRecords::gen_passed))]
pub fn a_passed_gen_is_its_summary()
    ensures { (c : Call) (files : Files) (seed clocks : ℕ)
        → Passed c files (asked.gen seed clocks) → GenPassed c seed clocks }
{}

/// `asm` wrote the listing of a source's programs.
#[tactic(auto, using(crate::proofs::PassedRecords::asm_passed))]
pub fn a_passed_asm_is_its_listing()
    ensures { (c : Call) (files : Files) (name : List ℕ)
        → Passed c files (asked.asm name) → AsmPassed c files name }
{}

/// `dis` wrote the text of each word of a file.
#[tactic(auto, using(crate::proofs::PassedRecords::dis_passed))]
pub fn a_passed_dis_is_its_lines()
    ensures { (c : Call) (files : Files) (name : List ℕ) (side : ℕ) (opt : Bool)
        → Passed c files (asked.dis name side opt) → DisPassed c files name side opt }
{}
