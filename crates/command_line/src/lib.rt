//! The words of a call of `piotool`, read by one clap command: which subcommand they ask for, with its arguments.
#![tactic(auto)]

mod advising;
mod arguments;
mod command;
mod getters;
mod laws;
mod matching;
mod order;
mod orders;

pub use advising::advice;
pub use laws::{
    asm_words, check_words, dis_words, gen_words, inspect_words, measure_words, pair_words,
    receive_words, recheck_words, run_words, shares_words, table_words, taken_words_give_all,
    uart_words,
};
pub use order::{Order, PairFiles, RunFiles, SerialLine, WordsFault};
pub use orders::read;
