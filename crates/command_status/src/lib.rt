//! How a command of the program ends: its status, with the code of the process, and the text that tells of it.
#![tactic(auto)]

mod status;
mod telling;

pub use status::Status;
pub use telling::{refuse_words, tell, tell_device_fault, tell_no_memory};
