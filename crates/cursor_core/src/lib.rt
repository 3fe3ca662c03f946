//! Walks of a listed queue's lists for the next and for the oldest entry. Each consumer goes on from its cursor, and goes
//! back where a released entry rang for it.
#![tactic(auto)]

mod cursor;
mod cursors;
mod handing;
pub mod laws;
mod pass_cursors;
mod takes;
mod walks;

pub use cursor::{Cursor, MOST_LISTS};
pub use cursors::{next, oldest};
pub use pass_cursors::{MOST_CONSUMERS, PassCursors};
