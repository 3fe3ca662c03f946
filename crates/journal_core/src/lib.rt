//! A journal on a disk: batches of transactions, each written so that a crash at any moment leaves all of it
//! or none, and what a history of commits has kept.
#![tactic(auto)]

mod faults;
mod journal;
pub mod laws;
mod opening;
mod put;
mod reading;
mod steps;
mod walk;

pub use faults::{CreateFault, OpenFault};
pub use journal::{Journal, Trust};
pub use journal_format::DeviceFault;
pub use opening::{create, open_batches, open_journal};
pub use walk::Batches;

#[cfg(test)]
mod tests;
