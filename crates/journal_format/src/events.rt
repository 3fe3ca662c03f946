//! What happens to a journal.
use crate::items::Item;
use std::collections::LinkedList;

/// What happens to a journal. Its history is a list of these, oldest first. Plain data for what contracts see: no
/// program makes one.
#[derive(Drop)]
pub enum Event {
    /// A caller submitted a transaction.
    Sub {
        caller: u64,
        txn: LinkedList<Item>,
    },
    /// The oldest so many transactions without an outcome were stored, or not; the disk's moment then, and by how much
    /// its counts of syncs and faults rose.
    Settle {
        count: u64,
        stored: bool,
        moment: u64,
        syncs: u64,
        faults: u64,
    },
    /// A caller's read failed; by how much the disk's count of faults rose.
    Lost {
        caller: u64,
        faults: u64,
    },
}
