//! What the rows are kept in.
use acts_core::{Freight, RestEntry};
use queue_model::Depth;
use row_order::{Ranking, Slot};
use std::marker::{Model, PhantomData};

/// The rows of a one-thread queue in order of arrival, with the available ones in a tree of winners: node 1 is
/// its root, and the leaf of row r is node `width + r`. All memory is taken before: for the spare rows, and for
/// what is left in the end. Contracts see it as what it keeps.
#[derive(Drop)]
pub struct KeptRows<C: Freight, O: Ranking> {
    pub(crate) slots: Vec<Slot<C>>,
    pub(crate) nodes: Vec<u64>,
    pub(crate) width: usize,
    pub(crate) depth: Depth,
    pub(crate) spare: u64,
    /// Room for the order of the rows that are left.
    pub(crate) order: Vec<u64>,
    /// Room for what is left.
    pub(crate) rest: Vec<RestEntry<C>>,
    pub(crate) ranking: PhantomData<O>,
}

impl<C: Freight, O: Ranking> Model for KeptRows<C, O> {
    ghost use Rattle.std.specs.Prelude.{◌≡◌, ◌+◌, ◌≤◌, vec_len, vec_capacity};
    ghost use Rattle.acts_core.specs.Kept.{Kept};

    ghost Value = { Kept };

    ghost use Rattle.kept_rows.specs.Keeping.{Keeps, HasRoom, kept_of};

    ghost view = { λ k. kept_of C.goods k.slots.items k.depth k.spare };

    ghost invariant = { λ k. Keeps C.goods O.by_key k.slots.items k.nodes.items k.width
        × HasRoom (k.spare + vec_len k.slots) k.width (vec_capacity k.slots)
        (vec_len k.order) (vec_capacity k.order) (vec_len k.rest) (vec_capacity k.rest) };
}
