//! The rows of a one-thread queue, with their slips, states and cargo, and the calls that every kind of held queue
//! answers alike.
#![tactic(auto)]

mod calls;
mod changes;
mod making;
mod reads;
mod rest;
mod room;
mod rows;

pub use rest::Marking;
pub use rows::KeptRows;
