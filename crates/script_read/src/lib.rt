//! The lines of a script, and the phases that they fall into.
//!
//! docs/SCRIPT.md, "Lines", has every line with its fields, their defaults and limits, and the causes that a line is
//! refused for.
#![tactic(auto)]

mod checks;
mod faults;
pub mod laws;
mod line_feeds;
mod lines;
mod messages;
mod open_phase;
mod pieces;
mod reading;
mod scripts;
mod so_far;
mod tables;

pub use faults::{LineFault, ScriptFault};
pub use line_feeds::{first_line, has_nothing};
pub use lines::{Line, Op, What};
pub use reading::{read_line, read_message};
pub use scripts::{Phase, Script, read_script};

#[cfg(test)]
mod line_tests;
#[cfg(test)]
mod tests;
