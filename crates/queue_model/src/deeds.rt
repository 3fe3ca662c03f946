//! Acts, and deeds: acts with their callers. A queue's history is a list of deeds.
use crate::rows::Slip;
use byte_lists::{Bytes, Origin};
use thiserror::Error;

/// One change of a queue. docs/QUEUE-MODEL.md, "The table of acts", says when each has a step and what
/// it does; contracts say it by `Can` and `acted` of specs/Table.antt. Sizes are in bytes.
#[derive(Debug, Drop)]
pub enum Act {
    /// Acquires an available row.
    Acq {
        row: u64,
    },
    /// Locks a row that the caller had unlocked.
    Lock {
        row: u64,
    },
    /// Leaves a held row, with the number of its deliveries.
    Unlock {
        row: u64,
        count: u32,
    },
    /// Takes a row that anyone had unlocked.
    Steal {
        row: u64,
    },
    /// Makes a held row available again, with the number of its deliveries.
    Rel {
        row: u64,
        count: u32,
    },
    /// Takes a held row out of the queue. Its entry and bytes become reserved.
    Deq {
        row: u64,
    },
    /// Deletes a row that was dequeued.
    Del {
        row: u64,
    },
    /// Reserves one entry of this size, of `MOST_BYTES` at most, while the queue has fewer entries than
    /// `MOST_ENTRIES`.
    Reserve {
        size: u64,
    },
    /// Gives one reserved entry of this size back. No more bytes may be left than the entries left can
    /// have.
    GiveBack {
        size: u64,
    },
    /// Appends a new row to its list, in place of a reserved entry of its size. No row has its number, and
    /// the queue has its list and each consumer of its mask.
    Enq {
        row: u64,
        slip: Slip,
        content: Bytes,
        origin: Origin,
        count: u32,
    },
    /// Rings the bell of a consumer for a row. Where the bell was rung before at that list, the earlier
    /// row of the two stands.
    Bell {
        row: u64,
        consumer: u32,
    },
    /// Takes the bell of a consumer at a list, whether it was rung or not.
    Take {
        consumer: u32,
        list: u32,
    },
}

/// An act and the caller that does it.
#[derive(Debug, Drop)]
pub struct Deed {
    pub caller: u64,
    pub act: Act,
}

/// Why a deed was not applied. It hands the deed back.
#[derive(Debug, Drop, Error)]
pub enum Unapplied {
    /// The table of acts has no step for this deed in this state.
    #[error("the deed has no step in this state")]
    Illegal(Deed),
    /// The deed has a step, and there was no memory for it.
    #[error("out of memory")]
    NoMemory(Deed),
}
