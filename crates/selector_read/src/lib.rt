//! Selectors: their texts, and the trees that these stand for (docs/SELECTORS.md).
#![tactic(auto)]

mod begun;
pub mod laws;
mod levels;
mod limits;
mod modes;
mod patterns;
mod reading;
mod selectors;
mod steps;
mod steps_in_forms;
mod steps_of_like;
mod steps_on_values;
mod trees;
mod writing;
mod writing_pieces;

pub use patterns::as_text;
pub use reading::read;
pub use selector_tokens::{CompareOp, Kind, SelectorFault};
pub use selectors::Selector;
pub use trees::{Expr, MathOp};
pub use writing::text;

#[cfg(test)]
mod fault_tests;
#[cfg(test)]
mod tests;
#[cfg(test)]
mod writing_tests;
