//! The text of a run: what the lines of a script answered, and what each queue holds afterwards.
//!
//! docs/REPORT.md has the forms. Nothing here takes memory.
#![tactic(auto)]

mod answers;
mod phrases;
mod pieces;
mod writing;

pub use answers::{Answer, Dropped, Resting, Span};
pub use writing::{write_answer, write_queue};

#[cfg(test)]
mod tests;
