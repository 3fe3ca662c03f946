//! The text of a phase, from what its actors' lines answered and what its queues hold.
#![tactic(auto)]

mod logs;
mod writing;

pub use logs::{Log, Rest};
pub use writing::write_phase;

#[cfg(test)]
mod tests;
