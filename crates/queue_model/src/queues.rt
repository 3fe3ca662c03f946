//! The state of a queue: its rows, what its callers have reserved, and its bells.
use crate::rows::Row;
use std::collections::LinkedList;

/// How full a queue is, with what is reserved and not enqueued yet. The bytes are those of the messages'
/// encodings.
#[derive(Clone, Copy, Debug, PartialEq, Eq)]
pub struct Depth {
    pub entries: u64,
    pub bytes: u64,
}

/// What happens to a message that is over a queue's limits.
#[derive(Clone, Copy, Debug, PartialEq, Eq)]
pub enum Policy {
    /// Limits are not looked at.
    None,
    /// The oldest entries are dropped until the queue is within its limits.
    Ring,
    /// The put is refused, and so is each further one until the queue is well below its limits.
    FlowControl,
    /// The body of a persistent message is kept on disk alone.
    FlowToDisk,
    /// The put is refused.
    Reject,
}

/// The limits of a queue. An absent limit is never reached.
#[derive(Clone, Copy, Debug, PartialEq, Eq)]
pub struct Limits {
    pub policy: Policy,
    pub entries: Option<u64>,
    pub bytes: Option<u64>,
}

/// What a caller has reserved: entries, and their bytes together.
#[derive(Clone, Copy, Debug, PartialEq, Eq)]
pub struct Reservation {
    pub holder: u64,
    pub entries: u64,
    pub bytes: u64,
}

/// A bell that was rung for a consumer at a list: the earliest row that the consumer must look at
/// again, and its place in the list.
#[derive(Clone, Copy, Debug, PartialEq, Eq)]
pub struct Bell {
    pub consumer: u32,
    pub list: u32,
    pub place: u64,
    pub row: u64,
}

/// The state of a queue as plain data, of which contracts speak. No program makes a value of it:
/// `QueueState` is the executable one.
#[derive(Drop)]
pub struct Queue {
    /// How many lists it has. Only a priority queue has more than one.
    pub lists: u32,
    /// How many consumers it has.
    pub consumers: u32,
    /// The rows of all lists, in order of arrival. Rows never leave.
    pub rows: LinkedList<Row>,
    /// What callers have reserved. A caller that has nothing reserved has no record here.
    pub reserved: LinkedList<Reservation>,
    /// The bells that were rung and not taken.
    pub bells: LinkedList<Bell>,
}
