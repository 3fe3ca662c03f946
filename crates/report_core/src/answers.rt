//! What the lines of a script answer, as values.
use queue_model::{Depth, RowState};

/// Places in a list of drops: from `from` up to but without `to`.
#[derive(Clone, Copy, Debug, PartialEq, Eq)]
pub struct Span {
    pub from: u32,
    pub to: u32,
}

/// An entry that a queue acquired to make room, or because a newer message has its key.
#[derive(Clone, Copy, Debug, PartialEq, Eq)]
pub struct Dropped {
    /// The number of its queue, by the order of the definitions from 0.
    pub queue: u32,
    /// The message's id.
    pub id: u64,
    /// It could not be dequeued, and stays held.
    pub kept: bool,
}

/// An entry that a queue holds at the end of a phase.
#[derive(Clone, Copy, Debug, PartialEq, Eq)]
pub struct Resting {
    /// The message's id.
    pub id: u64,
    /// The number of bytes of the message's encoding.
    pub size: u64,
    /// The caller that had it, from 1.
    pub holder: Option<u64>,
}

/// What one line of a script answers. An id is that of a message; a place of drops is one in the list of
/// the line's actor.
#[derive(Clone, Copy, Debug, PartialEq, Eq)]
pub enum Answer {
    /// A put was done. `flowed` says that the message's body is on disk alone.
    Accepted {
        id: u64,
        flowed: bool,
        acquired: Span,
    },
    /// A put or an acknowledgement waits for the commit of the actor's transaction.
    Staged {
        id: u64,
        flowed: bool,
    },
    /// A put was refused: the queue has this depth, and the policy refuses what is over its limits.
    Rejected {
        depth: Depth,
    },
    /// A put was refused: the queue has this depth, with which the message would pass its limits, or which is
    /// still too high for an actor that such a put has stopped.
    Blocked {
        depth: Depth,
    },
    /// The device failed: the line's commit was not stored. Nothing entered or left a queue for it, but an entry that
    /// was to be acknowledged stays held, and a transaction gave back what it had reserved.
    Failed,
    /// The line's transaction would be longer than one may be.
    TooLong,
    /// A take got the message, at this delivery, the first being 1.
    Got {
        id: u64,
        number: u32,
    },
    /// A take found nothing available.
    Empty,
    /// A take was refused: the consumer has no credit.
    NoCredit,
    /// The consumer is closed: a take from it finds it so, and a close leaves it so.
    Closed,
    /// A take got the message, but could not load its body. `held` says that the actor still holds it.
    FailedId {
        id: u64,
        held: bool,
    },
    /// The message was acknowledged.
    Acked {
        id: u64,
    },
    /// The actor does not hold what the line means.
    NotHeld,
    /// Another took the entry from the actor. It has this state now.
    Stolen {
        state: RowState,
    },
    /// The entry is available again.
    Released {
        id: u64,
    },
    /// The entry was released after a newer message of its key had come, and was dropped.
    Outdated {
        id: u64,
    },
    /// The actor left the entry for others to steal.
    Unlocked {
        id: u64,
    },
    /// The actor locked the entry again.
    Locked {
        id: u64,
    },
    /// The actor stole the entry.
    Stole {
        id: u64,
    },
    /// The entry is in this state, in which it can't be stolen.
    NotStealable {
        state: RowState,
    },
    /// The entry went into this state before it was stolen.
    Moved {
        state: RowState,
    },
    /// The queue has no entry of that id.
    Absent,
    /// A transaction began.
    Begun,
    /// The actor has a transaction already.
    Already,
    /// The transaction was committed.
    Committed {
        acquired: Span,
    },
    /// The actor has no transaction.
    NoTransaction,
    /// The transaction was rolled back.
    RolledBack,
}
