//! A queue of one list for one thread: the plain program of the queue model. Each of its calls is a few
//! acts of the table of acts.
#![tactic(auto)]

ghost use Rattle.std.specs.Prelude.{◌≡◌, ◌≤◌, ◌<◌, ◌^◌, length, OnOk, OnErr, ℕ, slice_get};
ghost use Rattle.std.specs.Option.{option_map};
ghost use Rattle.queue_model.specs.History.{Does};
ghost use Rattle.queue_model.specs.State.{depth, empty, entries};
ghost use Rattle.queue_model.specs.Table.{most_bytes, most_entries};
ghost use Rattle.plain_queue.specs.Calls.{ack_acts, Handles, put_acts, release_acts, Takes};

pub mod laws;
mod search;

use byte_lists::{Bytes, NoMemory, Origin};
use queue_model::{Depth, Row, RowState, Slip};
use search::{first_available, held_row};
use std::alloc::Global;
use std::marker::Model;

/// A queue of one list and no consumers. A caller is a number. Rows never leave, so memory and time
/// grow with all that was ever put. Contracts see the state that its rows stand for.
#[derive(Debug, Drop)]
pub struct PlainQueue {
    rows: Vec<Row>,
    entries: u64,
    bytes: u64,
}

impl Model for PlainQueue {
    ghost use Rattle.queue_model.specs.declared.queues.Queue.{Queue};
    ghost use Rattle.plain_queue.specs.Rows.{Keeps, one_list};

    ghost Value = { Queue };

    ghost view = { λ q. one_list q.rows.items };

    ghost invariant = { λ q. Keeps q.rows.items q.entries q.bytes };
}

impl PlainQueue {
    /// A queue with no rows, whose depth is 0 entries and 0 bytes. Takes no memory.
    pub fn make(alloc: Global) -> PlainQueue
        ensures { result ≡ empty 1 0 }
    {
        PlainQueue {
            rows: Vec::new(alloc),
            entries: 0,
            bytes: 0,
        }
    }

    /// Reserves an entry and enqueues a message at the end, whoever calls: as an available row, with a
    /// count of 0 deliveries. Its size is the length of its content, in bytes, of `MOST_BYTES` at most; the
    /// queue's depth must have fewer entries than `MOST_ENTRIES`. Refuses only for want of memory, and then
    /// nothing changed.
    pub fn put(&mut self, id: u64, content: Bytes) -> Result<(), NoMemory>
        requires size { length content ≤ most_bytes }
        requires room { entries self.old < most_entries }
        ensures ok { OnOk result ((caller : ℕ) → Does self.old caller (put_acts self.old id content) self.new) }
        ensures err { OnErr result (self.new ≡ self.old) }
    {
        if self.rows.reserve(1).is_err() {
            return Err(NoMemory);
        }
        let size = content.as_slice().len() as u64;
        let row = Row {
            number: self.rows.len() as u64,
            slip: Slip {
                id,
                size,
                mask: 0,
                list: 0,
                key: None,
            },
            state: RowState::Available,
            content,
            origin: Origin::none(*self.rows.allocator()),
            count: 0,
        };
        self.rows.push_reserved(row);
        self.entries += 1;
        self.bytes += size;
        Ok(())
    }

    /// Acquires the first available row for a caller, and answers its id; none where no row is
    /// available, and then nothing changed. It looks at the rows in turn.
    pub fn take(&mut self, caller: u64) -> Option<u64>
        ensures { Takes caller self.old result self.new }
    {
        let Some(index) = first_available(&self.rows) else {
            return None;
        };
        let row = &mut self.rows[index];
        row.state = RowState::Locked(caller);
        Some(row.slip.id)
    }

    /// Makes the first row of this id that the caller holds available again, at its place, and sets its
    /// count of deliveries to 0. Answers whether the caller held one; if not, nothing changed.
    pub fn release(&mut self, caller: u64, id: u64) -> bool
        ensures { Handles release_acts caller id self.old result self.new }
    {
        let Some(index) = held_row(&self.rows, caller, id) else {
            return false;
        };
        let row = &mut self.rows[index];
        row.state = RowState::Available;
        row.count = 0;
        true
    }

    /// Takes the first row of this id that the caller holds out of the queue for good: the row is deleted
    /// and keeps its place, and the depth has its entry and its bytes less. Answers whether the caller held
    /// one; if not, nothing changed.
    pub fn ack(&mut self, caller: u64, id: u64) -> bool
        ensures { Handles ack_acts caller id self.old result self.new }
    {
        let Some(index) = held_row(&self.rows, caller, id) else {
            return false;
        };
        let row = &mut self.rows[index];
        row.state = RowState::Deleted;
        let size = row.slip.size;
        self.entries -= 1;
        self.bytes -= size;
        true
    }

    /// How many entries the queue has, and their bytes: those of all rows that are available or held.
    pub fn depth(&self) -> Depth
        ensures { result ≡ depth self.now }
    {
        Depth {
            entries: self.entries,
            bytes: self.bytes,
        }
    }

    /// The id, size in bytes and state of the row at this place, from 0 in order of arrival; none where
    /// there is no such row.
    pub fn row(&self, row: u64) -> Option<(u64, u64, RowState)>
        ensures row { result ≡ option_map (λ x. (x.slip.id, x.slip.size, x.state)) (slice_get self.now.rows row) }
        // A number of rows always fits.
        ensures few { length self.now.rows < 2 ^ 63 }
    {
        let row = self.rows.get(row as usize)?;
        Some((row.slip.id, row.slip.size, row.state))
    }
}

#[cfg(test)]
mod tests;
