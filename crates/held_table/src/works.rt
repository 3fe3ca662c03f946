//! What each call does to the one-thread queue.
ghost use Rattle.std.specs.Prelude.{◌≡◌, ℕ, ◌≤◌};
ghost use Rattle.acts_core.specs.Calls.{Call, Answer, CallDepth, CallReserve, CallGiveBack, CallPut, CallNext, CallOldest, CallFind, CallLock, CallUnlock, CallRelease, CallSteal, CallDequeue, CallDelete, IsDepth, IsFound, IsFreed, IsDone};
ghost use Rattle.acts_core.specs.Replies.{of_put, of_next, of_lock, of_release, of_steal};
ghost use Rattle.acts_core.specs.Serves.{MayCall, Serves, rows_of_call};
ghost use Rattle.held_table.specs.Turns.{plain};

use acts_core::{BareCore, Freight, Locking, Next, Placed, Releasing, Stealing};
use queue_model::{Depth, Slip};

/// What one call does while it has the one-thread queue.
pub(crate) trait Work<C: Freight, Q: BareCore<C>> {
    /// What it replies.
    type Reply;

    /// The call.
    ghost call: { Self → Call };

    /// The answer that a reply is, with the number that it does not tell.
    ghost said: { ℕ → Self.Reply → Answer };

    /// How many rows it draws.
    fn rows(&self) -> u64
        ensures { result ≡ rows_of_call (call self.now) };

    /// Makes the call.
    fn run(self, core: &mut Q, caller: u64) -> Self::Reply
        requires may { MayCall (Q.keeps core.old) caller (call self) }
        requires spare { rows_of_call (call self) ≤ (Q.keeps core.old).spare }
        ensures serves { (x : ℕ) × Serves Q.kind_of (Q.keeps core.old) (Q.keeps core.new)
            caller (call self) (said x result) };

    /// But for that number the reply tells the answer.
    ghost alike: { (x : ℕ) (reply : Self.Reply) → plain (said x reply) ≡ plain (said 0 reply) };
}

/// How full the queue is.
pub(crate) struct Telling;

impl<C: Freight, Q: BareCore<C>> Work<C, Q> for Telling {
    ghost use Rattle.std.proofs.Common.{refl};

    type Reply = Depth;

    ghost call = { λ w. CallDepth };

    ghost said = { λ x d. IsDepth d };

    fn rows(&self) -> u64 {
        0
    }

    fn run(self, core: &mut Q, caller: u64) -> Depth {
        let Telling = self;
        core.bare_depth(caller)
    }

    ghost alike = { λ x reply. refl };
}

/// Reserves an entry.
pub(crate) struct Reserving {
    pub size: u64,
}

impl<C: Freight, Q: BareCore<C>> Work<C, Q> for Reserving {
    ghost use Rattle.std.proofs.Common.{refl};

    type Reply = Depth;

    ghost call = { λ w. CallReserve w.size };

    ghost said = { λ x d. IsDepth d };

    fn rows(&self) -> u64 {
        0
    }

    fn run(self, core: &mut Q, caller: u64) -> Depth {
        let Reserving { size } = self;
        core.bare_reserve(caller, size)
    }

    ghost alike = { λ x reply. refl };
}

/// Gives a reserved entry back.
pub(crate) struct Giving {
    pub size: u64,
}

impl<C: Freight, Q: BareCore<C>> Work<C, Q> for Giving {
    ghost use Rattle.std.proofs.Common.{refl};

    type Reply = ();

    ghost call = { λ w. CallGiveBack w.size };

    ghost said = { λ x u. IsDone };

    fn rows(&self) -> u64 {
        0
    }

    fn run(self, core: &mut Q, caller: u64) {
        let Giving { size } = self;
        core.bare_give_back(caller, size)
    }

    ghost alike = { λ x reply. refl };
}

/// Puts an entry.
pub(crate) struct Putting<C> {
    pub slip: Slip,
    pub cargo: C,
}

impl<C: Freight, Q: BareCore<C>> Work<C, Q> for Putting<C> {
    ghost use Rattle.std.proofs.Common.{refl};

    type Reply = Placed<C>;

    ghost call = { λ w. CallPut w.slip (C.goods w.cargo) };

    ghost said = { λ x r. of_put C.goods r };

    fn rows(&self) -> u64 {
        1
    }

    fn run(self, core: &mut Q, caller: u64) -> Placed<C> {
        let Putting { slip, cargo } = self;
        core.bare_put(caller, slip, cargo)
    }

    ghost alike = { λ x reply. refl };
}

/// Acquires the next entry.
pub(crate) struct Taking {
    pub consumer: u32,
}

impl<C: Freight, Q: BareCore<C>> Work<C, Q> for Taking {
    ghost use Rattle.held_table.specs.Replying.{next_alike};

    type Reply = Next<C>;

    ghost call = { λ w. CallNext w.consumer };

    ghost said = { λ x r. of_next C.goods x r };

    fn rows(&self) -> u64 {
        0
    }

    fn run(self, core: &mut Q, caller: u64) -> Next<C> {
        let Taking { consumer } = self;
        core.bare_next(caller, consumer)
    }

    ghost alike = { next_alike C.goods };
}

/// Acquires the oldest entry.
pub(crate) struct Ageing;

impl<C: Freight, Q: BareCore<C>> Work<C, Q> for Ageing {
    ghost use Rattle.held_table.specs.Replying.{next_alike};

    type Reply = Next<C>;

    ghost call = { λ w. CallOldest };

    ghost said = { λ x r. of_next C.goods x r };

    fn rows(&self) -> u64 {
        0
    }

    fn run(self, core: &mut Q, caller: u64) -> Next<C> {
        let Ageing = self;
        core.bare_oldest(caller)
    }

    ghost alike = { next_alike C.goods };
}

/// Finds the first row of an id.
pub(crate) struct Finding {
    pub id: u64,
}

impl<C: Freight, Q: BareCore<C>> Work<C, Q> for Finding {
    ghost use Rattle.std.proofs.Common.{refl};

    type Reply = Option<u64>;

    ghost call = { λ w. CallFind w.id };

    ghost said = { λ x r. IsFound r };

    fn rows(&self) -> u64 {
        0
    }

    fn run(self, core: &mut Q, caller: u64) -> Option<u64> {
        let Finding { id } = self;
        core.bare_find(caller, id)
    }

    ghost alike = { λ x reply. refl };
}

/// Locks a row again.
pub(crate) struct Relocking {
    pub row: u64,
}

impl<C: Freight, Q: BareCore<C>> Work<C, Q> for Relocking {
    ghost use Rattle.std.proofs.Common.{refl};

    type Reply = Locking<C>;

    ghost call = { λ w. CallLock w.row };

    ghost said = { λ x r. of_lock C.goods r };

    fn rows(&self) -> u64 {
        0
    }

    fn run(self, core: &mut Q, caller: u64) -> Locking<C> {
        let Relocking { row } = self;
        core.bare_lock(caller, row)
    }

    ghost alike = { λ x reply. refl };
}

/// Leaves a row.
pub(crate) struct Leaving<C> {
    pub row: u64,
    pub cargo: C,
}

impl<C: Freight, Q: BareCore<C>> Work<C, Q> for Leaving<C> {
    ghost use Rattle.std.proofs.Common.{refl};

    type Reply = ();

    ghost call = { λ w. CallUnlock w.row (C.goods w.cargo) };

    ghost said = { λ x u. IsDone };

    fn rows(&self) -> u64 {
        0
    }

    fn run(self, core: &mut Q, caller: u64) {
        let Leaving { row, cargo } = self;
        core.bare_unlock(caller, row, cargo)
    }

    ghost alike = { λ x reply. refl };
}

/// Makes a row available again.
pub(crate) struct Freeing<C> {
    pub row: u64,
    pub cargo: C,
}

impl<C: Freight, Q: BareCore<C>> Work<C, Q> for Freeing<C> {
    ghost use Rattle.held_table.specs.Replying.{release_alike};

    type Reply = Releasing<C>;

    ghost call = { λ w. CallRelease w.row (C.goods w.cargo) };

    ghost said = { λ x r. of_release C.goods x r };

    fn rows(&self) -> u64 {
        0
    }

    fn run(self, core: &mut Q, caller: u64) -> Releasing<C> {
        let Freeing { row, cargo } = self;
        core.bare_release(caller, row, cargo)
    }

    ghost alike = { release_alike C.goods };
}

/// Takes a row that somebody left.
pub(crate) struct Seizing {
    pub row: u64,
}

impl<C: Freight, Q: BareCore<C>> Work<C, Q> for Seizing {
    ghost use Rattle.std.proofs.Common.{refl};

    type Reply = Stealing<C>;

    ghost call = { λ w. CallSteal w.row };

    ghost said = { λ x r. of_steal C.goods r };

    fn rows(&self) -> u64 {
        0
    }

    fn run(self, core: &mut Q, caller: u64) -> Stealing<C> {
        let Seizing { row } = self;
        core.bare_steal(caller, row)
    }

    ghost alike = { λ x reply. refl };
}

/// Takes a row out of the queue.
pub(crate) struct Removing {
    pub row: u64,
}

impl<C: Freight, Q: BareCore<C>> Work<C, Q> for Removing {
    ghost use Rattle.std.proofs.Common.{refl};

    type Reply = ();

    ghost call = { λ w. CallDequeue w.row };

    ghost said = { λ x u. IsFreed x };

    fn rows(&self) -> u64 {
        0
    }

    fn run(self, core: &mut Q, caller: u64) {
        let Removing { row } = self;
        core.bare_dequeue(caller, row)
    }

    ghost alike = { λ x reply. refl };
}

/// Deletes a row.
pub(crate) struct Deleting {
    pub row: u64,
}

impl<C: Freight, Q: BareCore<C>> Work<C, Q> for Deleting {
    ghost use Rattle.std.proofs.Common.{refl};

    type Reply = ();

    ghost call = { λ w. CallDelete w.row };

    ghost said = { λ x u. IsDone };

    fn rows(&self) -> u64 {
        0
    }

    fn run(self, core: &mut Q, caller: u64) {
        let Deleting { row } = self;
        core.bare_delete(caller, row)
    }

    ghost alike = { λ x reply. refl };
}
