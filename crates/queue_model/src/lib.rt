//! The vocabulary of a queue: rows and their states, acts and deeds, the state of a queue with its
//! table of acts, and the laws that every later crate rests on.
#![tactic(auto)]

pub mod deeds;
mod field_lists;
pub mod laws;
pub mod limits;
pub mod queues;
pub mod rows;
pub mod state;
pub mod steps;

pub use deeds::{Act, Deed, Unapplied};
pub use field_lists::fits_mask;
pub use limits::{ENTRY_WORTH, MOST_ENTRIES, NO_BELL, PLACE_WORTH};
pub use queues::{Bell, Depth, Limits, Policy, Queue, Reservation};
pub use rows::{Row, RowState, Slip};
pub use state::QueueState;
pub use steps::{Change, DraftWord, Node, Step, Tried, WordName};

#[cfg(test)]
mod tests;
