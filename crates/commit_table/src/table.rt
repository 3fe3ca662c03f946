//! The table.
use crate::begun::{Begun, Tales};
use crate::desk::Desk;
use disk_core::Disk;
use history_lock::Locked;
use journal_format::Event;

/// A journal under a lock, for the commits of many threads. Its calls wait by the handle that it keeps.
#[derive(Drop)]
pub struct CommitTable<D: Disk + Drop, R: Drop> {
    pub(crate) lock: Locked<Desk<D>, Begun, Event, Tales>,
    pub(crate) rt: R,
    /// How many tickets there are.
    pub(crate) tickets: u64,
}
