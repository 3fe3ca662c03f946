//! What a queue for one thread offers: the inside of a held queue.
ghost use Rattle.std.specs.Prelude.{ℕ, ◌≡◌, ◌<◌, ◌≤◌, OnOk, OnErr, map};
ghost use Rattle.queue_model.specs.declared.queues.Queue.{Queue};
ghost use Rattle.acts_core.specs.Calls.{CallDepth, CallReserve, CallGiveBack, CallPut, CallNext, CallOldest, CallFind, CallLock, CallUnlock, CallRelease, CallSteal, CallDequeue, CallDelete, IsDepth, IsFound, IsFreed, IsDone};
ghost use Rattle.acts_core.specs.Kept.{Kept, Stands};
ghost use Rattle.acts_core.specs.Replies.{of_put, of_next, of_lock, of_release, of_steal};
ghost use Rattle.acts_core.specs.Rest.{AtRest, AreRests, left_of};
ghost use Rattle.acts_core.specs.Serves.{MayCall, Serves};
ghost use Rattle.acts_core.specs.Sight.{Kind, IsHeldKind};

use crate::cargoes::{Cargo, Locking, Next, Placed, Releasing, RestEntry, Stealing};
use byte_lists::NoMemory;
use queue_model::{Depth, Slip};

/// A queue of one list and 64 consumers, for one thread; a caller is its number. The calls that
/// `SharedQueue` has too do here what they do there. Each may be made where `MayCall` holds: where the call's
/// condition holds in a state for which the queue stands. `Serves` says what it then does and what its answer
/// tells. No call but `reserve_rows` takes memory.
pub trait QueueCore<C: Cargo>: Send + Drop {
    /// Its kind.
    ghost kind: { Kind };

    /// What it keeps.
    ghost kept: { Self → Kept };

    /// How full the queue is.
    fn depth(&mut self, caller: u64) -> Depth
        requires may { MayCall (kept self.old) caller CallDepth }
        ensures serves { Serves kind (kept self.old) (kept self.new)
            caller CallDepth (IsDepth result) };

    /// Reserves an entry of this size in bytes, and answers the depth just before.
    fn reserve(&mut self, caller: u64, size: u64) -> Depth
        requires may { MayCall (kept self.old) caller (CallReserve size) }
        ensures serves { Serves kind (kept self.old) (kept self.new)
            caller (CallReserve size) (IsDepth result) };

    /// Gives a reserved entry of this size in bytes back.
    fn give_back(&mut self, caller: u64, size: u64)
        requires may { MayCall (kept self.old) caller (CallGiveBack size) }
        ensures serves { Serves kind (kept self.old) (kept self.new)
            caller (CallGiveBack size) IsDone };

    /// Puts an entry, in place of a reserved one of its size. It takes one row of the spare, and is never
    /// `Spent`.
    fn put(&mut self, caller: u64, slip: Slip, cargo: C) -> Placed<C>
        requires may { MayCall (kept self.old) caller (CallPut slip (C.load cargo)) }
        requires spare { 0 < (kept self.old).spare }
        ensures serves { Serves kind (kept self.old) (kept self.new)
            caller (CallPut slip (C.load cargo)) (of_put C.load result) };

    /// Acquires the first entry in queue order that is available to the consumer.
    fn next(&mut self, caller: u64, consumer: u32) -> Next<C>
        requires may { MayCall (kept self.old) caller (CallNext consumer) }
        ensures serves { (list : ℕ) × Serves kind (kept self.old) (kept self.new)
            caller (CallNext consumer) (of_next C.load list result) };

    /// Acquires the first available entry by arrival.
    fn oldest(&mut self, caller: u64) -> Next<C>
        requires may { MayCall (kept self.old) caller CallOldest }
        ensures serves { (list : ℕ) × Serves kind (kept self.old) (kept self.new)
            caller CallOldest (of_next C.load list result) };

    /// The first row in queue order that has the id and is not deleted.
    fn find(&mut self, caller: u64, id: u64) -> Option<u64>
        requires may { MayCall (kept self.old) caller (CallFind id) }
        ensures serves { Serves kind (kept self.old) (kept self.new)
            caller (CallFind id) (IsFound result) };

    /// Locks a row again that the caller had left.
    fn lock(&mut self, caller: u64, row: u64) -> Locking<C>
        requires may { MayCall (kept self.old) caller (CallLock row) }
        ensures serves { Serves kind (kept self.old) (kept self.new)
            caller (CallLock row) (of_lock C.load result) };

    /// Leaves a held row, with its cargo.
    fn unlock(&mut self, caller: u64, row: u64, cargo: C)
        requires may { MayCall (kept self.old) caller (CallUnlock row (C.load cargo)) }
        ensures serves { Serves kind (kept self.old) (kept self.new)
            caller (CallUnlock row (C.load cargo)) IsDone };

    /// Makes a held row available again, with its cargo.
    fn release(&mut self, caller: u64, row: u64, cargo: C) -> Releasing<C>
        requires may { MayCall (kept self.old) caller (CallRelease row (C.load cargo)) }
        ensures serves { (mask : ℕ) × Serves kind (kept self.old) (kept self.new)
            caller (CallRelease row (C.load cargo)) (of_release C.load mask result) };

    /// Takes a row that anyone had left. It is never `Moved`.
    fn steal(&mut self, caller: u64, row: u64) -> Stealing<C>
        requires may { MayCall (kept self.old) caller (CallSteal row) }
        ensures serves { Serves kind (kept self.old) (kept self.new)
            caller (CallSteal row) (of_steal C.load result) };

    /// Takes a held row out of the queue.
    fn dequeue(&mut self, caller: u64, row: u64)
        requires may { MayCall (kept self.old) caller (CallDequeue row) }
        ensures serves { (size : ℕ) × Serves kind (kept self.old) (kept self.new)
            caller (CallDequeue row) (IsFreed size) };

    /// Deletes a row that was dequeued.
    fn delete(&mut self, caller: u64, row: u64)
        requires may { MayCall (kept self.old) caller (CallDelete row) }
        ensures serves { Serves kind (kept self.old) (kept self.new)
            caller (CallDelete row) IsDone };

    /// Makes the spare at least so many rows. Where there is no memory for them, nothing changes.
    fn reserve_rows(&mut self, rows: u64) -> Result<(), NoMemory>
        ensures keeps { kept self.new ≡ record (kept self.old) { spare = (kept self.new).spare } }
        ensures grows { (kept self.old).spare ≤ (kept self.new).spare }
        ensures ok { OnOk result (rows ≤ (kept self.new).spare) }
        ensures err { OnErr result (kept self.new ≡ kept self.old) };

    /// How many more rows there is room for.
    fn spare(&self) -> u64
        ensures { result ≡ (kept self.now).spare };

    /// What is left, in queue order: each entry that is not deleted. No row may be held, or dequeued and
    /// not deleted.
    fn into_rest(self) -> Vec<RestEntry<C>>
        requires rest { AtRest (kept self) }
        ensures rest { (q : Queue) → Stands (kept self) q
            → AreRests kind q (map (left_of C.load) result.items) };

    /// It is a kind of held queue.
    ghost held: { IsHeldKind kind };
}
