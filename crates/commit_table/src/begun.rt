//! What a table began with, and what its journal is to the history.
use crate::desk::Desk;
use disk_core::{Disk, Trail};
use history_lock::Story;
use journal_format::{Event, Item};
use std::collections::LinkedList;
use std::marker::PhantomData;

/// What a commit table began with. Contracts alone speak of it: no value of it is made.
pub struct Begun {
    /// What a read of its disk gave. None where the disk doesn't tell its bytes.
    pub bytes: Option<LinkedList<u8>>,
    /// The commits that the journal held.
    pub commits: LinkedList<LinkedList<Item>>,
    /// The moment of its disk.
    pub moment: u64,
    /// What the disk was through.
    pub trail: Option<Trail>,
    /// The place of the journal's gate.
    pub gate: u64,
    /// How often the disk's `sync` was called.
    pub syncs: u64,
    /// How often a call of the disk had failed.
    pub faults: u64,
    /// How many passes there may be in all.
    pub callers: u64,
    /// How many tickets there are.
    pub tickets: u64,
    /// How many bytes a transaction may have.
    pub bytes_each: u64,
}

/// What the desk is to the history of commits.
pub struct Tales {
    marker: PhantomData<u64>,
}

impl<D: Disk + Drop> Story<Desk<D>, Begun, Event> for Tales {
    ghost use Rattle.commit_table.specs.Tale.{commit_tale};

    ghost tale = { commit_tale D.seen D.images D.moment D.since D.trail D.faults D.syncs };
}
