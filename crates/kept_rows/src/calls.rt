//! The calls that every kind of held queue answers alike.
ghost use Rattle.std.specs.Prelude.{ℕ, ◌≡◌, ◌+◌, ◌*◌, ◌<◌, ◌≤◌, ◌↔◌, IsTrue, None, Some, length};
ghost use Rattle.acts_core.specs.Calls.{CallDepth, CallReserve, CallGiveBack, CallPut, CallNext, CallOldest, CallFind, CallLock, CallUnlock, CallRelease, CallSteal, CallDequeue, CallDelete, IsDepth, IsAt, IsFound, IsReleased, IsFreed, IsDone};
ghost use Rattle.acts_core.specs.Replies.{of_next, of_lock, of_steal};
ghost use Rattle.acts_core.specs.Kept.{at_home};
ghost use Rattle.acts_core.specs.Serves.{MayCall, Serves};
ghost use Rattle.acts_core.specs.Sight.{Sorted};
ghost use Rattle.kept_rows.specs.Rows.{kind_by, kept_at, with_row, with_new, row_in, more_deep, less_deep, goods_in, CameOut, Settles};
ghost use Rattle.queue_model.specs.Table.{most_bytes, most_entries};
ghost use Rattle.queue_model.specs.declared.rows.RowState.TheVariants as states;

use crate::rows::KeptRows;
use acts_core::{Freight, Locking, Next, Stealing};
use queue_model::{Depth, RowState, Slip};
use row_order::Ranking;

impl<C: Freight, O: Ranking> KeptRows<C, O> {
    /// How full the queue is.
    pub fn told_depth(&mut self, caller: u64) -> Depth
        ensures serves { Serves (kind_by O.by_key) self.old self.new
            caller CallDepth (IsDepth result) }
        ensures settles { Settles self.old self.new }
    {
        let _caller = caller;
        self.depth()
    }

    /// Reserves an entry of this size in bytes, and answers the depth just before.
    pub fn reserve(&mut self, caller: u64, size: u64) -> Depth
        requires may { MayCall self.old caller (CallReserve size) }
        ensures serves { Serves (kind_by O.by_key) self.old self.new
            caller (CallReserve size) (IsDepth result) }
        ensures settles { Settles self.old self.new }
    {
        let _caller = caller;
        let before = self.depth();
        self.raise(size);
        before
    }

    // Adds one entry of this size in bytes to the depth.
    pub(crate) fn raise(&mut self, size: u64)
        requires few { self.old.depth.entries < most_entries }
        requires small { self.old.depth.bytes ≤ most_bytes * self.old.depth.entries }
        requires size { size ≤ most_bytes }
        ensures { self.new ≡ record self.old { depth = more_deep self.old.depth size } }
    {
        self.depth.entries += 1;
        self.depth.bytes += size;
    }

    /// Gives a reserved entry of this size in bytes back.
    pub fn give_back(&mut self, caller: u64, size: u64)
        requires may { MayCall self.old caller (CallGiveBack size) }
        ensures serves { Serves (kind_by O.by_key) self.old self.new
            caller (CallGiveBack size) IsDone }
        ensures settles { Settles self.old self.new }
    {
        let _caller = caller;
        self.lower(size);
    }

    // Takes one entry of this size in bytes out of the depth.
    fn lower(&mut self, size: u64)
        requires entry { 0 < self.old.depth.entries }
        requires bytes { size ≤ self.old.depth.bytes }
        ensures { self.new ≡ record self.old { depth = less_deep self.old.depth size } }
    {
        self.depth.entries -= 1;
        self.depth.bytes -= size;
    }

    /// Puts an entry, in place of a reserved one of its size, as on a queue that displaces none. It answers the
    /// entry's row.
    pub fn put(&mut self, caller: u64, slip: Slip, cargo: C) -> u64
        requires may { MayCall self.old caller (CallPut slip (C.goods cargo)) }
        requires spare { 0 < self.old.spare }
        ensures row { result ≡ length self.old.rows }
        ensures spare { self.new.spare + 1 ≡ self.old.spare }
        ensures kept { self.new ≡ with_new self.old self.new.spare slip (C.goods cargo) }
        ensures serves { Serves Sorted self.old self.new
            caller (CallPut slip (C.goods cargo)) (IsAt result None) }
    {
        let _caller = caller;
        self.push(slip, cargo)
    }

    /// Takes a row whose cargo is at home.
    pub fn take_out(&mut self, caller: u64, row: u64) -> C
        requires row { row < length self.old.rows }
        requires home { IsTrue (at_home (kept_at self.old row).state) }
        ensures kept { self.new ≡ with_row self.old row
            (row_in (states.Locked caller) None (kept_at self.old row)) }
        ensures came { CameOut (kept_at self.old row) (Some (C.goods result)) }
    {
        match self.change(row, RowState::Locked(caller), None) {
            Some(cargo) => cargo,
            None => unreachable!(),
        }
    }

    /// Acquires the first entry in queue order that is available to the consumer.
    pub fn next(&mut self, caller: u64, consumer: u32) -> Next<C>
        requires may { MayCall self.old caller (CallNext consumer) }
        ensures serves { (list : ℕ) × Serves (kind_by O.by_key) self.old self.new
            caller (CallNext consumer) (of_next C.goods list result) }
        ensures settles { Settles self.old self.new }
    {
        match self.first(consumer) {
            Some(row) => Next::Got {
                row,
                cargo: self.take_out(caller, row),
            },
            None => Next::Empty,
        }
    }

    /// Acquires the first available entry by arrival.
    pub fn oldest(&mut self, caller: u64) -> Next<C>
        ensures serves { (list : ℕ) × Serves (kind_by O.by_key) self.old self.new
            caller CallOldest (of_next C.goods list result) }
        ensures settles { Settles self.old self.new }
    {
        match self.first_come() {
            Some(row) => Next::Got {
                row,
                cargo: self.take_out(caller, row),
            },
            None => Next::Empty,
        }
    }

    /// The first row in queue order that has the id and is not deleted.
    pub fn find(&mut self, caller: u64, id: u64) -> Option<u64>
        ensures serves { Serves (kind_by O.by_key) self.old self.new
            caller (CallFind id) (IsFound result) }
        ensures settles { Settles self.old self.new }
    {
        let _caller = caller;
        self.named(id)
    }

    /// Locks a row again that the caller had left.
    pub fn lock(&mut self, caller: u64, row: u64) -> Locking<C>
        requires may { MayCall self.old caller (CallLock row) }
        ensures serves { Serves (kind_by O.by_key) self.old self.new
            caller (CallLock row) (of_lock C.goods result) }
        ensures settles { Settles self.old self.new }
    {
        let state = self.state(row);
        if !is_left_by(state, caller) {
            return Locking::Stolen(state);
        }
        Locking::Locked(self.take_out(caller, row))
    }

    /// Leaves a held row, with its cargo.
    pub fn unlock(&mut self, caller: u64, row: u64, cargo: C)
        requires may { MayCall self.old caller (CallUnlock row (C.goods cargo)) }
        ensures serves { Serves (kind_by O.by_key) self.old self.new
            caller (CallUnlock row (C.goods cargo)) IsDone }
        ensures settles { Settles self.old self.new }
    {
        self.change(row, RowState::Unlocked(caller), Some(cargo));
    }

    /// Makes a held row available again, with its cargo, as on a queue that outdates none.
    pub fn release(&mut self, caller: u64, row: u64, cargo: C)
        requires may { MayCall self.old caller (CallRelease row (C.goods cargo)) }
        ensures serves { Serves Sorted self.old self.new
            caller (CallRelease row (C.goods cargo)) (IsReleased (kept_at self.old row).slip.mask) }
        ensures kept { self.new ≡ with_row self.old row
            (row_in states.Available (Some (goods_in (C.goods cargo))) (kept_at self.old row)) }
    {
        let _caller = caller;
        self.change(row, RowState::Available, Some(cargo));
    }

    /// Takes a row that anyone had left.
    pub fn steal(&mut self, caller: u64, row: u64) -> Stealing<C>
        requires may { MayCall self.old caller (CallSteal row) }
        ensures serves { Serves (kind_by O.by_key) self.old self.new
            caller (CallSteal row) (of_steal C.goods result) }
        ensures settles { Settles self.old self.new }
    {
        let state = self.state(row);
        if !is_left(state) {
            return Stealing::NotStealable(state);
        }
        Stealing::Stolen(self.take_out(caller, row))
    }

    /// Takes a held row out of the queue.
    pub fn dequeue(&mut self, caller: u64, row: u64)
        requires may { MayCall self.old caller (CallDequeue row) }
        ensures serves { (size : ℕ) × Serves (kind_by O.by_key) self.old self.new
            caller (CallDequeue row) (IsFreed size) }
        ensures settles { Settles self.old self.new }
    {
        let _caller = caller;
        let size = self.size(row);
        self.change(row, RowState::Dequeued, None);
        self.lower(size);
    }

    /// Deletes a row that was dequeued.
    pub fn delete(&mut self, caller: u64, row: u64)
        requires may { MayCall self.old caller (CallDelete row) }
        ensures serves { Serves (kind_by O.by_key) self.old self.new
            caller (CallDelete row) IsDone }
        ensures settles { Settles self.old self.new }
    {
        let _caller = caller;
        self.change(row, RowState::Deleted, None);
    }
}

// Whether this caller left a row that is in this state.
fn is_left_by(state: RowState, caller: u64) -> bool
    ensures { IsTrue result ↔ (state ≡ states.Unlocked caller) }
{
    state == RowState::Unlocked(caller)
}

// Whether anyone left a row that is in this state.
fn is_left(state: RowState) -> bool
    ensures { IsTrue result ↔ ((h : ℕ) × (state ≡ states.Unlocked h)) }
{
    match state {
        RowState::Unlocked(_) => true,
        _ => false,
    }
}
