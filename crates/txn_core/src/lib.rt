//! Parcels: what the queues of a run keep for each message, and hand to the holder of its row; and what a transaction has
//! staged.
#![tactic(auto)]

mod parcels;
mod staging;

pub use acts_core::Receipt;
pub use parcels::Parcel;
pub use staging::{Staged, Staging};

#[cfg(test)]
mod tests;
