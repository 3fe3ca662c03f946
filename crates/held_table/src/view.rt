//! How a held queue began, and what its one-thread queue is to its history.
use acts_core::{BareCore, Freight};
use history_lock::Story;
use queue_model::{Deed, Queue};
use std::marker::PhantomData;

/// How a held queue began. No value of it is made.
pub struct Outset {
    /// The state before its history.
    pub opening: Queue,
    /// How many rows it has room for, those of the opening among them.
    pub rows: u64,
}

/// What a one-thread queue is to the history of a held queue: it stands for the state after it.
pub struct Tales<C> {
    marker: PhantomData<C>,
}

impl<C: Freight, Q: BareCore<C>> Story<Q, Outset, Deed> for Tales<C> {
    ghost use Rattle.held_table.specs.Tales.{core_tale};

    ghost tale = { core_tale Q.keeps };
}
