//! The fields of definitions and of script lines: how each is called, what its value may be, and the first
//! cause that a JSON object has against a table of fields.
//!
//! docs/SCRIPT.md, "Definitions" and "Lines", has the fields.
#![tactic(auto)]

mod checks;
mod faults;
mod fields;
mod forms;
mod json;
mod limits;
mod reads;

pub use checks::{check_presence, check_values};
pub use faults::FieldFault;
pub use fields::Field;
pub use json::{JsonFault, read_json};
pub use limits::{LONGEST_KEY, MOST_PRIORITIES, MOST_QUEUES, TOP_PRIORITY};
pub use reads::{items, number, text, truth};

#[cfg(test)]
mod tests;
