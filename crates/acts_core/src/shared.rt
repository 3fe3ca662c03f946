//! What every queue offers to the callers that share it.
ghost use Rattle.std.specs.Prelude.{ℕ, ◌≤◌, ◌<◌};
ghost use mathlib.Core.List.{Mem};
ghost use Rattle.queue_model.specs.State.{reserved_by, IsIn};
ghost use Rattle.queue_model.specs.declared.rows.RowState.TheVariants.{Locked};
ghost use Rattle.queue_model.specs.Table.{CanGive, most_bytes};
ghost use Rattle.acts_core.specs.Asked.{HasLeft, HasDequeued, Handed, MayPut, IsSightOf};
ghost use Rattle.acts_core.specs.Calls.{CallDepth, CallReserve, CallGiveBack, CallPut, CallNext, CallOldest, CallFind, CallLock, CallUnlock, CallRelease, CallSteal, CallDequeue, CallDelete, IsDepth, IsFound, IsFreed, IsDone};
ghost use Rattle.acts_core.specs.Meaning.{Called};
ghost use Rattle.acts_core.specs.Owed.{Has};
ghost use Rattle.acts_core.specs.Replies.{of_put, of_next, of_lock, of_release, of_steal};
ghost use Rattle.acts_core.specs.Sight.{Build, Sight, known};

use crate::cargoes::{Cargo, Locking, Next, Placed, Releasing, Stealing};
use queue_model::{Depth, Slip};

/// A queue that many callers share, each by a pass of its own. Rows are named by their numbers, sizes are in
/// bytes, and a consumer is its number in the queue. Each call ends, and none takes memory. On a held queue
/// each waits once for the queue's lock.
///
/// What a call does and what its answer tells is `Called`: its acts are done, the caller did no others, and
/// the answer has the meaning that docs/QUEUE-MODEL.md describes under "What a call means".
pub trait SharedQueue<C: Cargo>: Sync {
    /// What one caller knows of the queue, and may do with it.
    type Pass: Send;

    /// What contracts see of the queue. It never changes.
    ghost build: { Self → Build };

    /// What contracts see of a pass.
    ghost sight: { Self.Pass → Sight };

    /// The pass is one of this queue.
    ghost serves: { Self → Self.Pass → Type 0 };

    /// How full the queue is.
    fn depth(&self, pass: &mut Self::Pass) -> Depth
        requires serves { serves self.now pass.old }
        ensures serves { serves self.now pass.new }
        ensures called { Called (build self.now) (sight pass.old) (sight pass.new)
            CallDepth (IsDepth result) };

    /// Reserves an entry of this size, and answers the depth just before. The pass may reserve one less
    /// then.
    fn reserve(&self, pass: &mut Self::Pass, size: u64) -> Depth
        requires serves { serves self.now pass.old }
        requires size { size ≤ most_bytes }
        requires allowed { 0 < (sight pass.old).allowance }
        ensures serves { serves self.now pass.new }
        ensures called { Called (build self.now) (sight pass.old) (sight pass.new)
            (CallReserve size) (IsDepth result) };

    /// Gives a reserved entry of this size back. The pass may reserve one more then.
    fn give_back(&self, pass: &mut Self::Pass, size: u64)
        requires serves { serves self.now pass.old }
        requires reserved { CanGive
            (reserved_by (known (sight pass.old)) (sight pass.old).caller) size }
        ensures serves { serves self.now pass.new }
        ensures called { Called (build self.now) (sight pass.old) (sight pass.new)
            (CallGiveBack size) IsDone };

    /// Puts an entry, in place of a reserved one of its size, at the end of its list. It is `Spent` exactly
    /// where the pass has no row left to draw. On a last-value queue the older entry of the key, if one is
    /// available, is displaced: the caller holds it then.
    fn put(&self, pass: &mut Self::Pass, slip: Slip, cargo: C) -> Placed<C>
        requires serves { serves self.now pass.old }
        requires may { MayPut (build self.now).kind (known (sight pass.old)) (sight pass.old).caller
            slip (C.load cargo) }
        ensures serves { serves self.now pass.new }
        ensures called { Called (build self.now) (sight pass.old) (sight pass.new)
            (CallPut slip (C.load cargo)) (of_put C.load result) };

    /// Acquires the first entry in queue order that is free to the consumer: available, and wanted by its
    /// selector. It is `Empty` only where each entry that is owed was not free to the consumer when looked
    /// at. Which are owed says docs/QUEUE-MODEL.md under "What is owed, and what empty says".
    fn next(&self, pass: &mut Self::Pass, consumer: u32) -> Next<C>
        requires serves { serves self.now pass.old }
        requires consumer { Mem consumer (sight pass.old).consumers }
        ensures serves { serves self.now pass.new }
        ensures called { (list : ℕ) × Called (build self.now) (sight pass.old) (sight pass.new)
            (CallNext consumer) (of_next C.load list result) };

    /// Acquires the oldest available entry, whoever wants it. It is `Empty` only where each entry that is
    /// owed was not available when looked at.
    fn oldest(&self, pass: &mut Self::Pass) -> Next<C>
        requires serves { serves self.now pass.old }
        ensures serves { serves self.now pass.new }
        ensures called { (list : ℕ) × Called (build self.now) (sight pass.old) (sight pass.new)
            CallOldest (of_next C.load list result) };

    /// The first row in queue order that has this id and is not deleted. It is `None` only where each row
    /// of the id that is owed was deleted when looked at.
    fn find(&self, pass: &mut Self::Pass, id: u64) -> Option<u64>
        requires serves { serves self.now pass.old }
        ensures serves { serves self.now pass.new }
        ensures called { Called (build self.now) (sight pass.old) (sight pass.new)
            (CallFind id) (IsFound result) };

    /// Locks a row again that the caller had left. It is `Stolen` exactly where the row is no longer the
    /// caller's.
    fn lock(&self, pass: &mut Self::Pass, row: u64) -> Locking<C>
        requires serves { serves self.now pass.old }
        requires left { HasLeft (sight pass.old).caller row (sight pass.old).seen }
        ensures serves { serves self.now pass.new }
        ensures called { Called (build self.now) (sight pass.old) (sight pass.new)
            (CallLock row) (of_lock C.load result) };

    /// Leaves a held row, with its cargo: the caller may lock it again, and anyone may steal it.
    fn unlock(&self, pass: &mut Self::Pass, row: u64, cargo: C)
        requires serves { serves self.now pass.old }
        requires handed { Handed (known (sight pass.old)) (sight pass.old).caller
            row (C.load cargo) }
        ensures serves { serves self.now pass.new }
        ensures called { Called (build self.now) (sight pass.old) (sight pass.new)
            (CallUnlock row (C.load cargo)) IsDone };

    /// Makes a held row available again, with its cargo, and rings the bells of the consumers that want it.
    /// It is `Outdated` only on a last-value queue, and exactly where a later row of the same key has ever
    /// come: then the row stays held.
    fn release(&self, pass: &mut Self::Pass, row: u64, cargo: C) -> Releasing<C>
        requires serves { serves self.now pass.old }
        requires handed { Handed (known (sight pass.old)) (sight pass.old).caller
            row (C.load cargo) }
        ensures serves { serves self.now pass.new }
        ensures called { (mask : ℕ) × Called (build self.now) (sight pass.old) (sight pass.new)
            (CallRelease row (C.load cargo)) (of_release C.load mask result) };

    /// Takes a row that somebody left. It is `NotStealable` exactly where nobody had left the row, and
    /// `Moved` exactly where somebody had, and then the row was found changed. Both leave all as it was.
    fn steal(&self, pass: &mut Self::Pass, row: u64) -> Stealing<C>
        requires serves { serves self.now pass.old }
        requires row { Has (known (sight pass.old)) row }
        ensures serves { serves self.now pass.new }
        ensures called { Called (build self.now) (sight pass.old) (sight pass.new)
            (CallSteal row) (of_steal C.load result) };

    /// Takes a held row out of the queue. The pass may reserve one more then.
    fn dequeue(&self, pass: &mut Self::Pass, row: u64)
        requires serves { serves self.now pass.old }
        requires holder { IsIn (known (sight pass.old)) row (Locked (sight pass.old).caller) }
        ensures serves { serves self.now pass.new }
        ensures called { (size : ℕ) × Called (build self.now) (sight pass.old) (sight pass.new)
            (CallDequeue row) (IsFreed size) };

    /// Deletes a row that the caller dequeued.
    fn delete(&self, pass: &mut Self::Pass, row: u64)
        requires serves { serves self.now pass.old }
        requires dequeued { HasDequeued (sight pass.old).caller row (sight pass.old).seen }
        ensures serves { serves self.now pass.new }
        ensures called { Called (build self.now) (sight pass.old) (sight pass.new)
            (CallDelete row) IsDone };

    /// What holds of each pass of the queue.
    ghost opens: { (queue : Self) (pass : Self.Pass) → serves queue pass
        → IsSightOf (build queue) (sight pass) };
}
