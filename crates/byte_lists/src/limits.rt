//! The limit that every message keeps.

/// The greatest size of a message, in bytes.
pub const MOST_BYTES: u64 = 1_048_576;
