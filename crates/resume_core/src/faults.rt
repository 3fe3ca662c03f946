//! Why a script can't go on from what a journal holds.

/// The first line at which a script and a journal's live entries don't go together, and why.
#[derive(Clone, Copy, Debug, PartialEq, Eq)]
pub struct LiveFault {
    /// From 1. What is wrong with the live entries alone is told at line 1.
    pub line: u64,
    pub cause: LiveCause,
}

/// Why a script and a journal's live entries don't go together.
#[derive(Clone, Copy, Debug, PartialEq, Eq)]
pub enum LiveCause {
    /// A live entry's queue isn't defined.
    JournalQueue,
    /// Two live entries have one queue and one id.
    DoubleLive,
    /// Live entries and the puts up to the line are more than 524,288.
    TooManyEntries,
    /// The line puts a message whose queue and id are live.
    DoubleId,
}
