//! What is recovered of a journal.
use byte_lists::Bytes;
use message_core::Message;
use sqlite_items::Items;

/// An entry that was put and is not gone.
#[derive(Debug, Drop)]
pub struct Kept {
    pub queue: Bytes,
    pub message: Message,
    /// The place of its transaction among the journal's bytes.
    pub at: u64,
    /// The place of its body among the journal's bytes.
    pub body_at: u64,
}

/// What a journal still holds.
#[derive(Debug, Drop)]
pub struct Recovered {
    /// How many transactions the journal has.
    pub commits: u64,
    /// The entries that are live, in the order in which they were put.
    pub entries: Items<Kept>,
}
