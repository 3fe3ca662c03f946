//! The queues of a phase: opened from definitions and from what the phase before left, and closed again.
#![tactic(auto)]

mod closing;
mod opening;

pub use closing::close_queues;
pub use opening::{Opened, open_queues};

#[cfg(test)]
mod tests;
