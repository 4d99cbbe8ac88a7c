//! The timing checker's verdict on a span: proved, unproved, or shared with another machine.
#![tactic(auto)]

mod flawing;
mod judging;
mod opening;
mod rechecking;
mod sharing;
mod table_flaw;
mod verdict;

pub use flawing::flaw;
pub use judging::judge;
pub use opening::opens_and_closes;
pub use rechecking::is_proof;
pub use sharing::shared_by;
pub use table_flaw::Flaw;
pub use verdict::Verdict;
