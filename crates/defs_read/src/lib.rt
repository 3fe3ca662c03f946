//! The definitions of queues and of their consumers: the first line of a script.
//!
//! docs/SCRIPT.md, "Definitions", has every field with its default, its limits and its causes.
#![tactic(auto)]

mod consumers;
mod defs;
mod faults;
mod limits;
mod names;
mod queues;
mod reading;
mod slips;
mod tables;
mod values;

pub use defs::{ConsumerDef, Defs, QueueDef, QueueKind};
pub use faults::DefsFault;
pub use limits::LONGEST_LINE;
pub use reading::read_defs;
pub use slips::slip;

#[cfg(test)]
mod slip_tests;
#[cfg(test)]
mod tests;
