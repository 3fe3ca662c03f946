//! The tokens of selectors, and the faults of texts that are none (docs/SELECTORS.md).
#![tactic(auto)]

mod faults;
mod first;
mod found;
mod lexer;
mod names;
mod next;
mod numbers;
mod reserved;
mod runs;
mod signs;
mod strings;
#[cfg(test)]
mod tests;
mod tokens;

pub use faults::{Kind, SelectorFault};
pub use lexer::Lexer;
pub use tokens::{CompareOp, Placed, Token, Word};
