//! Cargo, what a holder of a row is handed, and the answers of a queue's calls.
ghost use Rattle.std.specs.Prelude.{◌≡◌, ◌≤◌, length};
ghost use Rattle.acts_core.specs.Load.{Load};

use queue_model::{RowState, Slip};

/// What a queue keeps for a message and hands to the holder of its row.
pub trait Cargo: Send + Drop {
    /// What contracts see of it.
    ghost load: { Self → Load };

    /// The id of the message.
    fn id(&self) -> u64
        ensures { result ≡ (load self.now).id };

    /// The number of bytes of the message's encoding.
    fn size(&self) -> u64
        ensures { result ≡ (load self.now).size };

    /// The number of the message's deliveries.
    fn count(&self) -> u32
        ensures { result ≡ (load self.now).count };

    /// A content is never longer than its message's encoding.
    ghost content_fits: { (cargo : Self) → length (load cargo).content ≤ (load cargo).size };
}

/// A cargo as code sees it that does not send it to a thread: `Cargo` without its word on threads. Each
/// cargo is freight. A call that is made of others may speak of freight alone where one on cargo could not
/// be proved.
pub trait Freight: Drop {
    /// What contracts see of it.
    ghost goods: { Self → Load };

    /// The id of the message.
    fn ident(&self) -> u64
        ensures { result ≡ (goods self.now).id };

    /// The number of bytes of the message's encoding.
    fn weight(&self) -> u64
        ensures { result ≡ (goods self.now).size };

    /// The number of the message's deliveries.
    fn deliveries(&self) -> u32
        ensures { result ≡ (goods self.now).count };

    /// A content is never longer than its message's encoding.
    ghost goods_fit: { (freight : Self) → length (goods freight).content ≤ (goods freight).size };
}

impl<C: Cargo> Freight for C {
    ghost goods = { C.load };

    fn ident(&self) -> u64 {
        self.id()
    }

    fn weight(&self) -> u64 {
        self.size()
    }

    fn deliveries(&self) -> u32 {
        self.count()
    }

    ghost goods_fit = { C.content_fits };
}

/// The answer to a put.
#[derive(Debug, Drop)]
pub enum Placed<C> {
    /// It stands in this row. On a last-value queue the older entry that it displaced, if any, is now
    /// held by the caller.
    At {
        row: u64,
        displaced: Option<(u64, C)>,
    },
    /// Nothing was put: the caller has no rows left to draw. The cargo comes back, and the reservation
    /// stays.
    Spent(C),
}

/// The answer to a call for the next entry.
#[derive(Debug, Drop)]
pub enum Next<C> {
    /// The caller now holds this row.
    Got { row: u64, cargo: C },
    /// There is no entry for the caller to take.
    Empty,
}

/// The answer to a lock of a row that the caller had unlocked.
#[derive(Debug, Drop)]
pub enum Locking<C> {
    /// The caller holds the row again.
    Locked(C),
    /// The row is no longer the caller's. It was seen in this state.
    Stolen(RowState),
}

/// The answer to a release.
#[derive(Debug, Drop)]
pub enum Releasing<C> {
    /// The row is available again.
    Released,
    /// On a last-value queue a later entry of the same key has come. The row stays held, and its cargo
    /// comes back.
    Outdated(C),
}

/// The answer to a steal.
#[derive(Debug, Drop)]
pub enum Stealing<C> {
    /// The caller now holds the row.
    Stolen(C),
    /// The row was not unlocked by anyone. It was seen in this state.
    NotStealable(RowState),
    /// The row was unlocked by someone, and had changed to this state when it was to be taken.
    Moved(RowState),
}

/// An entry that is left of a queue at its end.
#[derive(Debug, Drop)]
pub struct RestEntry<C> {
    pub slip: Slip,
    /// Available, or left by a caller.
    pub state: RowState,
    /// On a last-value queue, whether a later entry of the same key has come; false on the others.
    pub outdated: bool,
    pub cargo: C,
}

/// Where a transaction stands that was stored in the journal.
#[derive(Clone, Copy, Debug, PartialEq, Eq)]
pub struct Receipt {
    /// The number of transactions that were submitted before it in this session.
    pub ticket: u64,
    /// The place of its first byte in the journal.
    pub at: u64,
}
