//! The truth of a selector for a message (docs/SELECTORS.md). Nothing here takes memory.
#![tactic(auto)]

mod comparing;
mod evaluation;
pub mod laws;
mod numbers;
mod patterns;
mod properties;
mod truths;
mod values;

pub use evaluation::truth;
pub use truths::Truth;

#[cfg(test)]
mod tests;
