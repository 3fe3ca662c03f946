//! What becomes of a put to a queue that is at its limits, and which entries a full ring drops. Every decision
//! is by the depth that a call of the queue showed, so it holds of one moment of the queue's history.
#![tactic(auto)]

pub mod admission;
mod judging;
pub mod trimming;
pub mod verdicts;

pub use admission::admit;
pub use trimming::trim_ring;
pub use verdicts::{Trim, Verdict};
