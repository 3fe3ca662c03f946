//! What a program reads from and writes to, as traits; fakes of both over memory that fail where they are
//! told to; adapters of std's readers and writers; and gates, which say when a line of a script is done.
#![tactic(auto)]

mod gate;
pub mod laws;
mod memory;
mod outside;
mod standard;
mod writing;

pub use gate::{FreeGate, Gate, LineGate};
pub use memory::{MemorySink, MemorySource};
pub use outside::{Failed, Sink, Source};
pub use standard::{StdSink, StdSource};
pub use writing::write_all;

#[cfg(test)]
mod tests;
