//! Whole calls of a listed queue, each made of single steps on the table. docs/QUEUE-MODEL.md, "What a call
//! means", says what each does and tells.
#![tactic(auto)]

mod appends;
mod bells;
mod depths;
mod finding;
mod locks;
mod removals;

pub use appends::enqueue;
pub use depths::{depth, give_back, reserve};
pub use finding::find;
pub use locks::{lock, release, steal, unlock};
pub use removals::{delete, dequeue};

#[cfg(test)]
mod closing_tests;
#[cfg(test)]
mod shared_tests;
#[cfg(test)]
mod stress_tests;
#[cfg(test)]
mod tests;
