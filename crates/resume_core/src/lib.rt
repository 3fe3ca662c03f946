//! Whether a script may go on from what a journal holds, and the entries with which its queues then open.
#![tactic(auto)]

mod checking;
mod dealing;
mod doubles;
mod faults;
mod keys;
pub mod laws;
mod numbers;
mod opening;
mod puts;
mod texts;

pub use checking::check_live;
pub use faults::{LiveCause, LiveFault};
pub use opening::{Resumed, open_live};

#[cfg(test)]
mod tests;
