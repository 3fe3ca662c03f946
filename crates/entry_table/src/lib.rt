//! The table of a listed queue: single steps of many callers on the words of its rows, and what each caller
//! knows of the one history that the steps make. docs/QUEUE-MODEL.md, "Passes", says what a pass knows and
//! what rule holds between any two steps.
#![tactic(auto)]

mod bells;
mod carried;
mod changes;
mod depths;
mod draft;
mod draws;
mod entries;
mod follows;
mod givings;
mod homes;
mod links;
mod loads;
mod making;
mod marks;
mod pass;
mod plays;
mod rest;
mod splits;
mod states;
mod tails;
mod unlinks;
mod view;

pub use changes::Exchanged;
pub use draft::{Draft, Drawn, Linking};
pub use entries::Entries;
pub use follows::node_of;
pub use pass::Pass;
pub use view::{Drawing, Ruling, Shape, Told, View, Watched};

#[cfg(test)]
mod tests;
