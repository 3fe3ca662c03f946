//! What a journal still holds: the entries that were put and are not gone.
#![tactic(auto)]

mod contents;
mod kept;
mod keys;
pub mod laws;
mod passing;
mod recovery;

pub use kept::{Kept, Recovered};
pub use recovery::recover;

#[cfg(test)]
mod tests;
