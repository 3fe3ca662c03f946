//! What the words of a command line ask for.

/// What the words ask for.
#[derive(Clone, Copy, Debug)]
pub enum Asked<'a> {
    /// To run a script.
    Run,
    /// To tell of messages what the selector of this text is.
    Select(&'a str),
    /// To run the script that a number makes for so many messages.
    Generate { number: u64, count: u64 },
    /// To make a journal at this path.
    Init(&'a str),
    /// To tell what the journal at this path still holds.
    Recover(&'a str),
}
