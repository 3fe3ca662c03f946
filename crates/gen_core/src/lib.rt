//! The script that a number makes: one priority queue, four actors that put, four that take beside them, and a last one
//! that empties the queue.
//!
//! docs/SCRIPT.md, "The generator", says what is made.
#![tactic(auto)]

mod definitions;
mod draws;
pub mod laws;
mod lines;
mod phases;

pub use definitions::PRIORITIES;
pub use draws::body_bytes;
pub use phases::{MOST_MESSAGES, generate};

#[cfg(test)]
mod tests;
