//! Why a text is no selector.
use thiserror::Error;

/// What is at fault in a text that is no selector.
#[derive(Clone, Copy, Debug, PartialEq, Eq, Error)]
pub enum Kind {
    /// The text has more than 4,096 bytes.
    #[error("TooLong")]
    TooLong,
    /// A character begins no token, or goes on a number as if it were an identifier.
    #[error("BadChar")]
    BadChar,
    /// A string has no closing quote.
    #[error("OpenString")]
    OpenString,
    /// A number has a point or an exponent.
    #[error("FloatLiteral")]
    FloatLiteral,
    /// A whole number is above 9223372036854775807.
    #[error("IntRange")]
    IntRange,
    /// A parenthesis, a NOT or a sign would be the 65th that is unfinished.
    #[error("TooDeep")]
    TooDeep,
    /// No selector goes on with this token, or none ends here.
    #[error("Unexpected")]
    Unexpected,
}

/// Why `read` gives no selector.
#[derive(Clone, Copy, Debug, PartialEq, Eq, Error)]
pub enum SelectorFault {
    /// The first fault of the text, and the byte at which it stands, counted from 0.
    #[error("selector at {at}: {kind}")]
    Bad { at: u64, kind: Kind },
    #[error("out of memory")]
    NoMemory,
}
