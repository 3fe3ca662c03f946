//! Messages, and their bytes: made of parts, written and read back.
#![tactic(auto)]

pub mod faults;
pub mod headers;
pub mod laws;
pub mod limits;
pub mod messages;
mod names;
pub mod numbers;
mod reading;
mod sizes;
mod writing;

pub use faults::{DecodeFault, MessageFault};
pub use headers::{Header, HeaderValue};
pub use limits::{LONGEST_NAME, MOST_HEADERS, TOP_PRIORITY};
pub use messages::Message;

#[cfg(test)]
mod tests;
