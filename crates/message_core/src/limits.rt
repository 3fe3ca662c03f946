//! Limits that every message keeps. The limit on its bytes is `MOST_BYTES` of `byte_lists`.

/// The greatest priority.
pub const TOP_PRIORITY: u8 = 9;

/// The greatest length of a header's name, in bytes.
pub const LONGEST_NAME: usize = 255;

/// The greatest number of headers.
pub const MOST_HEADERS: u64 = 65_535;
