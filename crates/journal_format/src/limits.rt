//! Limits that a journal keeps.

/// The greatest length of a queue's name, in bytes. The least is 1.
pub const LONGEST_QUEUE_NAME: usize = 64;

/// The greatest number of items in a transaction.
pub const MOST_ITEMS: u32 = 65_536;

/// The greatest length of a transaction's encoding, in bytes.
pub const MOST_TXN_BYTES: u64 = 67_108_864;
