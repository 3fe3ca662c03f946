//! Actors on threads: the lines of a script as calls on queues, and phases in which actors run beside each other.
#![tactic(auto)]

mod acks;
mod actors;
mod drops;
mod held;
mod jobs;
mod leaving;
mod lines;
mod locks;
mod making;
mod phases;
mod puts;
mod steals;
mod takes;

pub use actors::{Actor, ActorEnd};
pub use held::Kept;
pub use jobs::{Aid, Job};
pub use making::{Rooms, Unmade};
pub use phases::run_phase;
