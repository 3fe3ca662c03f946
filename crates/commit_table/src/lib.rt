//! Commits of many threads to one journal. Each takes the journal's lock, appends its transaction and gives the journal
//! back; all commits and reads that failed stand in one history, of which every pass has seen a beginning. While the
//! journal is at home, it has kept that history at every moment.
#![tactic(auto)]

mod answers;
mod begun;
mod commits;
mod desk;
mod making;
mod pass;
mod reads;
mod table;

pub use acts_core::Receipt;
pub use answers::{Committed, Settled};
pub use begun::{Begun, Tales};
pub use desk::Desk;
pub use pass::CommitPass;
pub use table::CommitTable;

#[cfg(test)]
mod tests;
