//! What every call of every queue means: cargo, the answers of calls, and the traits of queues. The lists of
//! `byte_lists` and the model of `queue_model` are published here too.
#![tactic(auto)]

pub mod bare;
pub mod cargoes;
pub mod clients;
pub mod cores;
pub mod laws;
pub mod shared;

pub use bare::BareCore;
pub use byte_lists::{Buffer, Bytes, MOST_BYTES, NoMemory, Origin};
pub use cargoes::{Cargo, Freight, Locking, Next, Placed, Receipt, Releasing, RestEntry, Stealing};
pub use cores::QueueCore;
pub use queue_model::{
    Act, Bell, Change, Deed, Depth, DraftWord, Limits, MOST_ENTRIES, Node, Policy, Queue,
    QueueState, Reservation, Row, RowState, Slip, Step, Tried, Unapplied, WordName, fits_mask,
};
pub use shared::SharedQueue;
