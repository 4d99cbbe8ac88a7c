//! One state machine of the RP2040's PIO: its registers, its FIFOs, and what one tick does to them.
#![tactic(auto)]

mod decoded;
mod end;
mod fifo_laws;
mod fifo_moves;
mod idle;
mod idling;
mod instruction;
mod intent;
mod jump;
mod laws;
mod machine;
mod moving;
mod order_laws;
mod outputs;
mod plan;
mod registers;
mod shifting;
mod shown;
mod simple;
mod sticky;
mod tick;
mod view;
mod waiting;

pub use fifo_laws::{
    a_calm_tick_tells_nothing_new, autopull_takes_what_it_can, in_shifts_once,
    txstall_tells_an_empty_tx,
};
pub use idle::Idle;
pub use intent::{Intent, Kind};
pub use laws::{
    a_calm_tick_only_counts, a_delay_only_counts, a_first_tick_stirs, a_late_stall_only_waits,
    a_machine_idles_until_it_stirs, a_tick_sees_what_it_reads, a_tick_writes_its_own_pins,
    a_wait_that_goes_on_does_nothing, moves_are_fair, no_word_is_lost, ranges_are_kept,
    writes_are_of_pins,
};
pub use machine::Machine;
pub use order_laws::{
    a_pending_word_is_the_first, a_pending_word_leaves_pc, a_taken_jump_does_not_wrap,
    an_exec_leaves_no_delay, irq_with_wait_stalls_first, side_set_is_written_once,
};
pub use outputs::Outputs;
pub use registers::Registers;
pub use shown::Shown;
pub use simple::Tried;
pub use sticky::{RX_STALL, RX_UNDER, TX_OVER, TX_STALL};
pub use view::{Shared, View};
