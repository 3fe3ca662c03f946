//! What a journal is written to: a disk as a trait, a disk in memory that fails where it is told to and
//! shows what a crash may leave, and a disk over a file.
#![tactic(auto)]

mod crash;
mod disk;
mod file;
mod memory;
mod trails;

pub use disk::Disk;
pub use file::FileDisk;
pub use memory::MemoryDisk;
pub use trails::{Step, Trail};

#[cfg(test)]
mod tests;
