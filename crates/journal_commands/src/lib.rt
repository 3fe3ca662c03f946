//! The commands of the program that have to do with a journal alone: they make one, or tell what one still holds.
#![tactic(auto)]

mod journal_telling;
mod making;
mod recovering;

pub use making::{init_command, initialize};
pub use recovering::{recover_command, tell_journal};

#[cfg(test)]
mod tests;
