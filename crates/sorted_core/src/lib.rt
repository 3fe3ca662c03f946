//! A queue that goes by key, for one thread: the inside of a held sorted queue.
#![tactic(auto)]

mod calls;
mod queue;

pub use queue::Sorted;

#[cfg(test)]
mod tests;
