//! The bytes of a journal: transactions and batches of them, written and read back.
#![tactic(auto)]

pub mod batches;
pub mod bodies;
mod events;
mod faults;
mod items;
pub mod laws;
pub mod limits;
mod reading;
mod txns;

pub use batches::Batch;
pub use bodies::Bodies;
pub use events::Event;
pub use faults::{BatchFault, DeviceFault, TxnTooLong};
pub use items::Item;
pub use txns::Txn;

#[cfg(test)]
mod tests;
