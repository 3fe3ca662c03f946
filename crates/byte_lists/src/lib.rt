//! Lists of bytes and of numbers that contracts see as plain lists, want of memory, and the limit on the
//! bytes of a message. Every crate may stand on it.
#![tactic(auto)]

pub mod limits;
pub mod lists;

pub use limits::MOST_BYTES;
pub use lists::{Buffer, Bytes, NoMemory, Origin};

#[cfg(test)]
mod tests;
