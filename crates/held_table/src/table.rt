//! The queue.
ghost use Rattle.std.specs.Prelude.{◌<◌};

use crate::view::{Outset, Tales};
use acts_core::{BareCore, Freight};
use history_lock::Locked;
use queue_model::Deed;
use std::sync::Wait;

/// A queue for one thread, behind one lock. It keeps a copy of the handle by which its calls wait.
#[derive(Drop)]
pub struct Held<C: Freight, Q: BareCore<C>, R: Wait + Drop> {
    pub(crate) lock: Locked<Q, Outset, Deed, Tales<C>>,
    pub(crate) rt: R,
    /// How many entries it began with.
    pub(crate) entries: u64,
    /// How many rows it had room for besides.
    pub(crate) spare: u64,
    pub ghost fits: { spare < 18446744073709551616 },
}
