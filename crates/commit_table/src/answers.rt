//! What a commit answers.
use acts_core::Receipt;
use journal_format::Txn;

/// What became of a transaction.
#[derive(Clone, Copy, Debug, PartialEq, Eq)]
pub enum Settled {
    /// It is stored: its ticket, and the place from which on it stands in the journal.
    Stored(Receipt),
    /// A call of the disk failed, in the repair before its append or in the append. It may be stored until a repair has
    /// answered Ok.
    Failed,
}

/// The answer of a commit, with the transaction's room.
#[derive(Debug, Drop)]
pub enum Committed {
    /// What became of it; the transaction comes back without items.
    Done(Settled, Txn),
    /// The pass had no ticket left; nothing was done.
    TicketsSpent(Txn),
}
