//! The available rows of a one-thread queue in queue order: a tree of winners over their keys, in a
//! list that takes
//! no memory as rows come and go.
#![tactic(auto)]

mod order;
mod slots;
mod tree;

pub use order::{ArrivalOrder, KeyOrder, Ranking, is_before};
pub use slots::Slot;
pub use tree::{crown, drain, first_wanted, leftmost, set_leaf, widen, winner};
