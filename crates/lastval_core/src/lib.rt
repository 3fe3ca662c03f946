//! A queue in which a later entry takes the place of an earlier one of its key, for one thread: the inside of a
//! held last-value queue.
#![tactic(auto)]

mod calls;
mod entering;
mod making;
mod queue;
mod search;

pub use queue::LastValue;

#[cfg(test)]
mod tests;
