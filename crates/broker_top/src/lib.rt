//! The top call of the program: from the words of the command line and the bytes of the input to the
//! bytes of the output and a status.
#![tactic(auto)]

mod built;
mod faults;
mod generated;
mod input;
mod job;
mod phases;
mod puts;
mod select;
mod tally;
mod telling;
mod text;
mod top;

pub use command_line::journal_path;
pub use command_status::Status;
pub use faults::InputFault;
pub use input::INPUT_LIMIT;
pub use journal_commands::{init_command, recover_command};
pub use top::{run_command, select_command};

#[cfg(test)]
mod generated_tests;
#[cfg(test)]
mod kind_tests;
#[cfg(test)]
mod line_tests;
#[cfg(test)]
mod phase_tests;
#[cfg(test)]
mod policy_tests;
#[cfg(test)]
mod tests;
