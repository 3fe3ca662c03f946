//! Lines, as they were read.
use byte_lists::Bytes;
use message_core::Message;

/// What a line says.
#[derive(Debug, Drop)]
pub enum Line {
    /// The phase ends.
    Rest,
    /// An actor does something.
    Doing(Op),
}

/// What an actor does: the number of its line, the actor's name, and what.
#[derive(Debug, Drop)]
pub struct Op {
    pub line: u64,
    pub actor: Bytes,
    pub what: What,
}

/// What an actor's line does. Queues go by their number in the order of their definition from 0, consumers by theirs
/// over all queues.
#[derive(Debug, Drop)]
pub enum What {
    /// Enqueues a message.
    Put { queue: u32, message: Message },
    /// Acquires a message for a consumer.
    Take { consumer: u32 },
    /// Closes a consumer.
    Close { consumer: u32 },
    /// Takes a held message out of its queue: that of this id, or the last one held.
    Ack { queue: u32, id: Option<u64> },
    /// Makes a held message available again: that of this id, or the last one held.
    Release { queue: u32, id: Option<u64> },
    /// Locks a held message: that of this id, or the last one held.
    Lock { queue: u32, id: Option<u64> },
    /// Unlocks a held message: that of this id, or the last one held.
    Unlock { queue: u32, id: Option<u64> },
    /// Takes an unlocked message over from another actor.
    Steal { queue: u32, id: u64 },
    /// Begins a transaction.
    Begin,
    /// Commits the transaction.
    Commit,
    /// Gives the transaction up.
    Rollback,
}
