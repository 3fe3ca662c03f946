//! The actors of a phase, made: each has its lines, a pass of each queue, and the targets that its lines name.
#![tactic(auto)]

mod casting;
mod rooms;
mod splitting;
mod targets;

pub use casting::make_actors;
pub use splitting::puts_in;
pub use targets::return_targets;

#[cfg(test)]
mod tests;
