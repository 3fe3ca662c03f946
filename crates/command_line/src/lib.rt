//! The command line of the program: which words it has, and what they ask for.
#![tactic(auto)]

mod asked;
mod found;
mod listed;
mod numbers;
mod reading;

pub use asked::Asked;
pub use listed::{is_init, is_listed, is_recover, is_select, journal_path};
pub use reading::read_words;
