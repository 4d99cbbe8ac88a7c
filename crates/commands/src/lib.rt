//! The whole program as one call over its words, a shelf of files, an output and an error output, with a module for
//! each command.
#![tactic(auto)]

mod asm;
mod check;
mod dis;
mod generate;
mod handing;
mod inspect;
mod laws;
mod measure;
mod measured_lines;
mod metered;
mod pair;
mod passed;
mod receive;
mod recheck;
mod run;
mod shares;
mod span_fault;
mod table;
mod top;
mod uart;

pub use laws::{a_transmitter_sends_this_text, a_written_table_is_a_proof, clocks_enough_send_all};
pub use passed::{
    a_call_with_status_0_passes, a_passed_asm_is_its_listing, a_passed_check_is_its_verdicts,
    a_passed_dis_is_its_lines, a_passed_gen_is_its_summary, a_passed_inspect_is_its_trace,
    a_passed_measure_is_its_lines, a_passed_pair_is_its_trace, a_passed_receive_is_its_frames,
    a_passed_recheck_is_a_proof, a_passed_run_is_its_trace, a_passed_shares_is_its_report,
    a_passed_table_is_a_proof, a_passed_uart_is_its_bytes, status_0_is_no_fault,
};
pub use top::piotool;
