//! Why parts make no message, and why bytes are no message's.
use thiserror::Error;

/// Why parts make no message: the first that fits, in this order. Want of memory may come in place of any.
#[derive(Clone, Copy, Debug, PartialEq, Eq, Error)]
pub enum MessageFault {
    /// The priority is above 9.
    #[error("the priority is above 9")]
    BadPriority,
    /// Two headers have one name.
    #[error("two headers have one name")]
    DoubleHeader,
    /// One of the limits is passed: that on the bytes of a name, on the number of headers, or on the bytes of
    /// the whole. docs/FORMATS.md has the numbers.
    #[error("a name, the number of headers or the encoding passes its limit")]
    TooLong,
    #[error("out of memory")]
    NoMemory,
}

/// Why bytes give no message.
#[derive(Clone, Copy, Debug, PartialEq, Eq, Error)]
pub enum DecodeFault {
    /// The bytes are no message's. The first fault begins at this byte, counted from 0.
    #[error("no message: a fault at byte {at}")]
    NotMessage { at: u64 },
    #[error("out of memory")]
    NoMemory,
}
