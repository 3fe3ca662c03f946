//! A queue for one thread, as code sees it that does not send it to another.
ghost use Rattle.std.specs.Prelude.{ℕ, ◌≡◌, ◌<◌, ◌≤◌, OnOk, OnErr, map};
ghost use Rattle.queue_model.specs.declared.queues.Queue.{Queue};
ghost use Rattle.acts_core.specs.Calls.{CallDepth, CallReserve, CallGiveBack, CallPut, CallNext, CallOldest, CallFind, CallLock, CallUnlock, CallRelease, CallSteal, CallDequeue, CallDelete, IsDepth, IsFound, IsFreed, IsDone};
ghost use Rattle.acts_core.specs.Kept.{Kept, Stands};
ghost use Rattle.acts_core.specs.Replies.{of_put, of_next, of_lock, of_release, of_steal};
ghost use Rattle.acts_core.specs.Rest.{AtRest, AreRests, left_of};
ghost use Rattle.acts_core.specs.Serves.{MayCall, Serves};
ghost use Rattle.acts_core.specs.Sight.{Kind, IsHeldKind};

use crate::cargoes::{Cargo, Freight, Locking, Next, Placed, Releasing, RestEntry, Stealing};
use crate::cores::QueueCore;
use byte_lists::NoMemory;
use queue_model::{Depth, Slip};

/// `QueueCore` without its word on threads, as `Freight` is `Cargo` without it. Each `QueueCore` is one. Its
/// calls are those of `QueueCore` under names of their own.
pub trait BareCore<C: Freight>: Drop {
    /// Its kind.
    ghost kind_of: { Kind };

    /// What it keeps.
    ghost keeps: { Self → Kept };

    /// How full the queue is.
    fn bare_depth(&mut self, caller: u64) -> Depth
        requires may { MayCall (keeps self.old) caller CallDepth }
        ensures serves { Serves kind_of (keeps self.old) (keeps self.new)
            caller CallDepth (IsDepth result) };

    /// Reserves an entry of this size in bytes, and answers the depth just before.
    fn bare_reserve(&mut self, caller: u64, size: u64) -> Depth
        requires may { MayCall (keeps self.old) caller (CallReserve size) }
        ensures serves { Serves kind_of (keeps self.old) (keeps self.new)
            caller (CallReserve size) (IsDepth result) };

    /// Gives a reserved entry of this size in bytes back.
    fn bare_give_back(&mut self, caller: u64, size: u64)
        requires may { MayCall (keeps self.old) caller (CallGiveBack size) }
        ensures serves { Serves kind_of (keeps self.old) (keeps self.new)
            caller (CallGiveBack size) IsDone };

    /// Puts an entry, in place of a reserved one of its size. It takes one row of the spare, and is never
    /// `Spent`.
    fn bare_put(&mut self, caller: u64, slip: Slip, cargo: C) -> Placed<C>
        requires may { MayCall (keeps self.old) caller (CallPut slip (C.goods cargo)) }
        requires spare { 0 < (keeps self.old).spare }
        ensures serves { Serves kind_of (keeps self.old) (keeps self.new)
            caller (CallPut slip (C.goods cargo)) (of_put C.goods result) };

    /// Acquires the first entry in queue order that is available to the consumer.
    fn bare_next(&mut self, caller: u64, consumer: u32) -> Next<C>
        requires may { MayCall (keeps self.old) caller (CallNext consumer) }
        ensures serves { (list : ℕ) × Serves kind_of (keeps self.old) (keeps self.new)
            caller (CallNext consumer) (of_next C.goods list result) };

    /// Acquires the first available entry by arrival.
    fn bare_oldest(&mut self, caller: u64) -> Next<C>
        requires may { MayCall (keeps self.old) caller CallOldest }
        ensures serves { (list : ℕ) × Serves kind_of (keeps self.old) (keeps self.new)
            caller CallOldest (of_next C.goods list result) };

    /// The first row in queue order that has the id and is not deleted.
    fn bare_find(&mut self, caller: u64, id: u64) -> Option<u64>
        requires may { MayCall (keeps self.old) caller (CallFind id) }
        ensures serves { Serves kind_of (keeps self.old) (keeps self.new)
            caller (CallFind id) (IsFound result) };

    /// Locks a row again that the caller had left.
    fn bare_lock(&mut self, caller: u64, row: u64) -> Locking<C>
        requires may { MayCall (keeps self.old) caller (CallLock row) }
        ensures serves { Serves kind_of (keeps self.old) (keeps self.new)
            caller (CallLock row) (of_lock C.goods result) };

    /// Leaves a held row, with its cargo.
    fn bare_unlock(&mut self, caller: u64, row: u64, cargo: C)
        requires may { MayCall (keeps self.old) caller (CallUnlock row (C.goods cargo)) }
        ensures serves { Serves kind_of (keeps self.old) (keeps self.new)
            caller (CallUnlock row (C.goods cargo)) IsDone };

    /// Makes a held row available again, with its cargo.
    fn bare_release(&mut self, caller: u64, row: u64, cargo: C) -> Releasing<C>
        requires may { MayCall (keeps self.old) caller (CallRelease row (C.goods cargo)) }
        ensures serves { (mask : ℕ) × Serves kind_of (keeps self.old) (keeps self.new)
            caller (CallRelease row (C.goods cargo)) (of_release C.goods mask result) };

    /// Takes a row that anyone had left. It is never `Moved`.
    fn bare_steal(&mut self, caller: u64, row: u64) -> Stealing<C>
        requires may { MayCall (keeps self.old) caller (CallSteal row) }
        ensures serves { Serves kind_of (keeps self.old) (keeps self.new)
            caller (CallSteal row) (of_steal C.goods result) };

    /// Takes a held row out of the queue.
    fn bare_dequeue(&mut self, caller: u64, row: u64)
        requires may { MayCall (keeps self.old) caller (CallDequeue row) }
        ensures serves { (size : ℕ) × Serves kind_of (keeps self.old) (keeps self.new)
            caller (CallDequeue row) (IsFreed size) };

    /// Deletes a row that was dequeued.
    fn bare_delete(&mut self, caller: u64, row: u64)
        requires may { MayCall (keeps self.old) caller (CallDelete row) }
        ensures serves { Serves kind_of (keeps self.old) (keeps self.new)
            caller (CallDelete row) IsDone };

    /// Makes the spare at least so many rows. Where there is no memory for them, nothing changes.
    fn bare_reserve_rows(&mut self, rows: u64) -> Result<(), NoMemory>
        ensures same { keeps self.new ≡ record (keeps self.old) { spare = (keeps self.new).spare } }
        ensures grows { (keeps self.old).spare ≤ (keeps self.new).spare }
        ensures ok { OnOk result (rows ≤ (keeps self.new).spare) }
        ensures err { OnErr result (keeps self.new ≡ keeps self.old) };

    /// How many more rows there is room for.
    fn bare_spare(&self) -> u64
        ensures { result ≡ (keeps self.now).spare };

    /// What is left, in queue order: each entry that is not deleted. No row may be held, or dequeued and
    /// not deleted.
    fn bare_into_rest(self) -> Vec<RestEntry<C>>
        requires rest { AtRest (keeps self) }
        ensures rest { (q : Queue) → Stands (keeps self) q
            → AreRests kind_of q (map (left_of C.goods) result.items) };

    /// It is a kind of held queue.
    ghost is_held: { IsHeldKind kind_of };
}

impl<C: Cargo, Q: QueueCore<C>> BareCore<C> for Q {
    ghost kind_of = { Q.kind };

    ghost keeps = { Q.kept };

    fn bare_depth(&mut self, caller: u64) -> Depth {
        self.depth(caller)
    }

    fn bare_reserve(&mut self, caller: u64, size: u64) -> Depth {
        self.reserve(caller, size)
    }

    fn bare_give_back(&mut self, caller: u64, size: u64) {
        self.give_back(caller, size)
    }

    fn bare_put(&mut self, caller: u64, slip: Slip, cargo: C) -> Placed<C> {
        self.put(caller, slip, cargo)
    }

    fn bare_next(&mut self, caller: u64, consumer: u32) -> Next<C> {
        self.next(caller, consumer)
    }

    fn bare_oldest(&mut self, caller: u64) -> Next<C> {
        self.oldest(caller)
    }

    fn bare_find(&mut self, caller: u64, id: u64) -> Option<u64> {
        self.find(caller, id)
    }

    fn bare_lock(&mut self, caller: u64, row: u64) -> Locking<C> {
        self.lock(caller, row)
    }

    fn bare_unlock(&mut self, caller: u64, row: u64, cargo: C) {
        self.unlock(caller, row, cargo)
    }

    fn bare_release(&mut self, caller: u64, row: u64, cargo: C) -> Releasing<C> {
        self.release(caller, row, cargo)
    }

    fn bare_steal(&mut self, caller: u64, row: u64) -> Stealing<C> {
        self.steal(caller, row)
    }

    fn bare_dequeue(&mut self, caller: u64, row: u64) {
        self.dequeue(caller, row)
    }

    fn bare_delete(&mut self, caller: u64, row: u64) {
        self.delete(caller, row)
    }

    fn bare_reserve_rows(&mut self, rows: u64) -> Result<(), NoMemory> {
        self.reserve_rows(rows)
    }

    fn bare_spare(&self) -> u64 {
        self.spare()
    }

    fn bare_into_rest(self) -> Vec<RestEntry<C>> {
        self.into_rest()
    }

    ghost is_held = { Q.held };
}
