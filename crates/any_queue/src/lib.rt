//! Queues of all kinds as one.
#![tactic(auto)]

mod held;
mod kinds;
mod listed;
mod lists;
mod passes;

pub use kinds::{AnyPass, AnyQueue, ListedPass};

#[cfg(test)]
mod cursor_tests;
#[cfg(test)]
mod kinds_tests;
#[cfg(test)]
mod shared_tests;
#[cfg(test)]
mod stress_tests;
#[cfg(test)]
mod tests;
