//! The limit that every selector keeps.

/// The greatest length of a selector's text, in bytes.
pub(crate) const LONGEST_TEXT: usize = 4096;
