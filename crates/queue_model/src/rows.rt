//! Rows: the entries of a queue, and the states that they go through.
use byte_lists::{Bytes, Origin};

/// The state of a row. Whoever does something to a queue goes by a number, its caller number; the maker of the
/// queue has 0.
///
/// docs/QUEUE-MODEL.md, "States of an entry", has the picture.
#[derive(Clone, Copy, Debug, PartialEq, Eq)]
pub enum RowState {
    /// Nobody has it.
    Available,
    /// The caller holds it, with its cargo.
    Locked(u64),
    /// The caller left it: it may lock the row again, and anyone may steal it.
    Unlocked(u64),
    /// It was taken out of the queue, and is not deleted yet.
    Dequeued,
    /// It is gone. This state is final.
    Deleted,
}

/// What a queue knows of a message without reading it.
#[derive(Debug, Drop)]
pub struct Slip {
    /// The message's id.
    pub id: u64,
    /// The number of bytes of the message's encoding.
    pub size: u64,
    /// Bit c is set exactly where the selector of consumer c selects the message.
    pub mask: u64,
    /// The list that the message goes into, from 0. Only a priority queue has more than one.
    pub list: u32,
    /// The value of the property that a sorted or last-value queue goes by, where the message has it.
    pub key: Option<Bytes>,
}

/// An entry of a queue. Its slip, content and origin never change.
#[derive(Debug, Drop)]
pub struct Row {
    /// The number that names the row among all rows of its queue.
    pub number: u64,
    pub slip: Slip,
    pub state: RowState,
    /// The bytes of the message.
    pub content: Bytes,
    /// Where the content came from.
    pub origin: Origin,
    /// How often the message was delivered, as far as the queue was told.
    pub count: u32,
}
