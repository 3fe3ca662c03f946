//! Runs of deleted rows in the lists of a listed queue: they are stepped over, and links are moved on past them.
#![tactic(auto)]

mod deletions;
mod nodes;
mod scavenges;
mod skips;

pub use deletions::{DELETIONS, on_deleted};
pub use nodes::step_over;
pub use scavenges::scavenge;
pub use skips::step_behind;
