//! What a disk was through, as plain data for contracts.
use std::collections::LinkedList;

/// A call that changed what a crash may leave. No value of it is made.
#[derive(Drop)]
pub enum Step {
    /// These bytes were written at that place.
    Write { at: u64, bytes: LinkedList<u8> },
    /// A sync succeeded.
    Sync,
}

/// What a disk had at first, and each step since, the newest first. No value of it is made.
#[derive(Drop)]
pub struct Trail {
    pub first: LinkedList<u8>,
    pub steps: LinkedList<Step>,
}
