//! The calls of standard and priority queues, over passes with cursors. Each but `next` takes no bell, and leaves the
//! cursors true as they stand.
ghost use Rattle.std.specs.Prelude.{ℕ, ◌≤◌, ◌<◌};
ghost use mathlib.Core.List.{Mem};
ghost use Rattle.queue_model.specs.declared.rows.RowState.TheVariants.{Locked};
ghost use Rattle.queue_model.specs.State.{reserved_by, IsIn};
ghost use Rattle.queue_model.specs.Table.{CanGive, most_bytes};
ghost use Rattle.acts_core.specs.Asked.{HasDequeued, HasLeft, Handed, MayPut};
ghost use Rattle.acts_core.specs.Calls.{CallDepth, CallReserve, CallGiveBack, CallPut, CallNext, CallOldest, CallFind, CallLock, CallUnlock, CallRelease, CallSteal, CallDequeue, CallDelete, IsDepth, IsFound, IsReleased, IsFreed, IsDone};
ghost use Rattle.acts_core.specs.Meaning.{Called};
ghost use Rattle.acts_core.specs.Owed.{Has};
ghost use Rattle.acts_core.specs.Replies.{of_put, of_next, of_lock, of_steal};
ghost use Rattle.acts_core.specs.Sight.{Listed};
ghost use Rattle.entry_table.specs.Passes.{allowance, seen, state};
ghost use Rattle.entry_table.specs.Sights.{build_of, sight};
ghost use Rattle.any_queue.specs.Kinds.{ServesListed};
ghost use Rattle.any_queue.specs.Scavenging.{Deletes};
ghost use Rattle.any_queue.specs.Walked.{WalksListed};

use crate::kinds::ListedPass;
use acts_core::{Freight, Locking, Next, Placed, Stealing};
use entry_table::Entries;
use queue_model::{Depth, Slip};
use scavenge_core::on_deleted;

impl ListedPass {
    /// How full the queue is.
    pub(crate) fn depth<C: Freight>(&mut self, entries: &Entries<C>) -> Depth
        requires serves { ServesListed entries.now self.old }
        ensures serves { ServesListed entries.now self.new }
        ensures called { Called (build_of entries.now) (sight self.old.pass) (sight self.new.pass)
            CallDepth (IsDepth result) }
    {
        entry_calls::depth(entries, &mut self.pass)
    }

    /// Reserves an entry of this size, and answers the depth just before.
    pub(crate) fn reserve<C: Freight>(&mut self, entries: &Entries<C>, size: u64) -> Depth
        requires serves { ServesListed entries.now self.old }
        requires size { size ≤ most_bytes }
        requires allowed { 0 < allowance self.old.pass }
        ensures serves { ServesListed entries.now self.new }
        ensures called { Called (build_of entries.now) (sight self.old.pass) (sight self.new.pass)
            (CallReserve size) (IsDepth result) }
    {
        entry_calls::reserve(entries, &mut self.pass, size)
    }

    /// Gives a reserved entry of this size back.
    pub(crate) fn give_back<C: Freight>(&mut self, entries: &Entries<C>, size: u64)
        requires serves { ServesListed entries.now self.old }
        requires reserved { CanGive (reserved_by (state self.old.pass) self.old.pass.caller) size }
        ensures serves { ServesListed entries.now self.new }
        ensures called { Called (build_of entries.now) (sight self.old.pass) (sight self.new.pass)
            (CallGiveBack size) IsDone }
    {
        entry_calls::give_back(entries, &mut self.pass, size);
    }

    /// Puts an entry, in place of a reserved one of its size.
    pub(crate) fn put<C: Freight>(
        &mut self,
        entries: &Entries<C>,
        slip: &Slip,
        cargo: C,
    ) -> Placed<C>
        requires serves { ServesListed entries.now self.old }
        requires may { MayPut Listed (state self.old.pass) self.old.pass.caller slip.now (C.goods cargo) }
        ensures serves { ServesListed entries.now self.new }
        ensures called { Called (build_of entries.now) (sight self.old.pass) (sight self.new.pass)
            (CallPut slip.now (C.goods cargo)) (of_put C.goods result) }
    {
        entry_calls::enqueue(entries, &mut self.pass, slip, cargo)
    }

    /// Acquires the oldest available entry.
    pub(crate) fn oldest<C: Freight>(&mut self, entries: &Entries<C>) -> Next<C>
        requires serves { ServesListed entries.now self.old }
        ensures serves { ServesListed entries.now self.new }
        ensures called { (list : ℕ) × Called (build_of entries.now) (sight self.old.pass) (sight self.new.pass)
            CallOldest (of_next C.goods list result) }
    {
        cursor_core::oldest(entries, &mut self.pass)
    }

    /// The first row of this id that is not deleted.
    pub(crate) fn find<C: Freight>(&mut self, entries: &Entries<C>, id: u64) -> Option<u64>
        requires serves { ServesListed entries.now self.old }
        ensures serves { ServesListed entries.now self.new }
        ensures called { Called (build_of entries.now) (sight self.old.pass) (sight self.new.pass)
            (CallFind id) (IsFound result) }
    {
        entry_calls::find(entries, &mut self.pass, id)
    }

    /// Locks a row again that the caller had left.
    pub(crate) fn lock<C: Freight>(&mut self, entries: &Entries<C>, row: u64) -> Locking<C>
        requires serves { ServesListed entries.now self.old }
        requires left { HasLeft self.old.pass.caller row (seen self.old.pass) }
        ensures serves { ServesListed entries.now self.new }
        ensures called { Called (build_of entries.now) (sight self.old.pass) (sight self.new.pass)
            (CallLock row) (of_lock C.goods result) }
    {
        entry_calls::lock(entries, &mut self.pass, row)
    }

    /// Leaves a held row, with its cargo.
    pub(crate) fn unlock<C: Freight>(&mut self, entries: &Entries<C>, row: u64, cargo: C)
        requires serves { ServesListed entries.now self.old }
        requires handed { Handed (state self.old.pass) self.old.pass.caller row (C.goods cargo) }
        ensures serves { ServesListed entries.now self.new }
        ensures called { Called (build_of entries.now) (sight self.old.pass) (sight self.new.pass)
            (CallUnlock row (C.goods cargo)) IsDone }
    {
        entry_calls::unlock(entries, &mut self.pass, row, cargo);
    }

    /// Makes a held row available again, with its cargo.
    pub(crate) fn release<C: Freight>(&mut self, entries: &Entries<C>, row: u64, cargo: C)
        requires serves { ServesListed entries.now self.old }
        requires handed { Handed (state self.old.pass) self.old.pass.caller row (C.goods cargo) }
        ensures serves { ServesListed entries.now self.new }
        ensures called { (mask : ℕ) × Called (build_of entries.now) (sight self.old.pass) (sight self.new.pass)
            (CallRelease row (C.goods cargo)) (IsReleased mask) }
    {
        entry_calls::release(entries, &mut self.pass, row, cargo);
    }

    /// Takes a row that somebody left.
    pub(crate) fn steal<C: Freight>(&mut self, entries: &Entries<C>, row: u64) -> Stealing<C>
        requires serves { ServesListed entries.now self.old }
        requires row { Has (state self.old.pass) row }
        ensures serves { ServesListed entries.now self.new }
        ensures called { Called (build_of entries.now) (sight self.old.pass) (sight self.new.pass)
            (CallSteal row) (of_steal C.goods result) }
    {
        entry_calls::steal(entries, &mut self.pass, row)
    }

    /// Takes a held row out of the queue.
    pub(crate) fn dequeue<C: Freight>(&mut self, entries: &Entries<C>, row: u64)
        requires serves { ServesListed entries.now self.old }
        requires holder { IsIn (state self.old.pass) row (Locked self.old.pass.caller) }
        ensures serves { ServesListed entries.now self.new }
        ensures called { (size : ℕ) × Called (build_of entries.now) (sight self.old.pass) (sight self.new.pass)
            (CallDequeue row) (IsFreed size) }
    {
        entry_calls::dequeue(entries, &mut self.pass, row);
    }

    /// Acquires the next entry for a consumer, from its cursor on.
    pub(crate) fn next<C: Freight>(&mut self, entries: &Entries<C>, consumer: u32) -> Next<C>
        requires serves { ServesListed entries.now self.old }
        requires consumer { Mem consumer (sight self.old.pass).consumers }
        ensures serves { ServesListed entries.now self.new }
        ensures called { (list : ℕ) × Called (build_of entries.now) (sight self.old.pass) (sight self.new.pass)
            (CallNext consumer) (of_next C.goods list result) }
        ensures walks { WalksListed self.old self.new consumer result }
    {
        self.cursors.next(entries, &mut self.pass, consumer)
    }

    /// Deletes a row that the caller dequeued, and has its list scavenged where enough rows were deleted.
    pub(crate) fn delete<C: Freight>(&mut self, entries: &Entries<C>, row: u64)
        requires serves { ServesListed entries.now self.old }
        requires dequeued { HasDequeued self.old.pass.caller row (seen self.old.pass) }
        ensures serves { ServesListed entries.now self.new }
        ensures called { Called (build_of entries.now) (sight self.old.pass) (sight self.new.pass)
            (CallDelete row) IsDone }
        ensures scavenges { Deletes self.old.pass self.new.pass row }
    {
        entry_calls::delete(entries, &mut self.pass, row);
        on_deleted(entries, &mut self.pass, row);
    }
}
