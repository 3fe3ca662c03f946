//! An actor's transaction: lines that are staged, with the journal's transaction that their commit will write.
#![tactic(auto)]

mod alone;
pub mod laws;
mod parcels;
pub mod room;
mod sizes;
mod staging;

pub use alone::{enter_alone, go_alone};
pub use parcels::entering;
pub use room::{GONE_ROOM, each_for, room_for};
pub use staging::{stage_ack, stage_put};

#[cfg(test)]
mod tests;
