//! A phase of a run, from the entries that the one before it left to those that it leaves: its queues are opened, its
//! actors run beside each other, what they had is given back, and the queues are closed.
#![tactic(auto)]

mod counting;
mod joining;
mod phases;

pub use phases::{PhaseEnd, play_phase};
