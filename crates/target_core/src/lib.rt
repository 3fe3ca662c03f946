//! Targets: what consumers are, to whom a queue's entries are handed. A target is a list of deliveries and how many
//! more it takes; a roster has the targets of all consumers.
#![tactic(auto)]

mod deliveries;
mod meeting;
mod plain;
mod rosters;
mod target;

pub use deliveries::{Delivery, MOST_BODY, sum};
pub use meeting::{MeetTarget, MeetWatch};
pub use plain::PlainTarget;
pub use rosters::{CONSUMERS, Handed, Roster};
pub use target::Target;

#[cfg(test)]
mod tests;
