//! Limits that definitions keep beside those of their fields.

/// The greatest number of bytes of a line, of definitions and of a script.
pub const LONGEST_LINE: usize = 1_048_576;

/// The greatest number of consumers of all queues together.
pub(crate) const MOST_CONSUMERS: usize = 64;
