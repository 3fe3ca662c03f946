//! Limits that every queue keeps, and the worths by which words are packed. The limit on the bytes of a
//! message stands in `byte_lists`.

/// The greatest number of entries of a queue, those that are reserved among them.
pub const MOST_ENTRIES: u64 = 524_288;

/// The worth of an entry in the word of a depth; bytes count one each.
pub const ENTRY_WORTH: u64 = 1_099_511_627_776;

/// The worth of a place in the word of a bell; the number of the row counts one each.
pub const PLACE_WORTH: u64 = 1_048_576;

/// The word of a bell that is not rung.
pub const NO_BELL: u64 = 18_446_744_073_709_551_615;
