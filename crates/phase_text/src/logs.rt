//! What a phase leaves to be told.
use byte_lists::Bytes;
use report_core::{Answer, Dropped, Resting};

/// What an actor's lines answered.
#[derive(Debug, Drop)]
pub struct Log {
    /// The actor's name.
    pub name: Bytes,
    /// The numbers of its lines and their answers, in order.
    pub lines: Vec<(u64, Answer)>,
    /// The entries that its lines acquired to make room, in order. Its answers name places among these.
    pub drops: Vec<Dropped>,
}

/// What a queue holds.
#[derive(Debug, Drop)]
pub struct Rest {
    /// The queue's name.
    pub name: Bytes,
    /// Its entries, in queue order.
    pub entries: Vec<Resting>,
}
