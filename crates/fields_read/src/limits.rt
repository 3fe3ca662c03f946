//! Limits that the fields of definitions and of lines keep.

/// The greatest number of queues.
pub const MOST_QUEUES: usize = 16;

/// The greatest number of priorities that a queue tells apart.
pub const MOST_PRIORITIES: u64 = 10;

/// The greatest length of the name of the header that a queue goes by, in bytes.
pub const LONGEST_KEY: usize = 255;

/// The greatest priority of a message.
pub const TOP_PRIORITY: u64 = 9;
