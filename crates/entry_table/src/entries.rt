//! The table.
ghost use Rattle.link_core.specs.Layout.{words_of};
ghost use Rattle.queue_model.specs.Table.{most_entries};
ghost use Rattle.std.specs.Prelude.{◌≡◌, ◌+◌, ◌*◌, ◌≤◌, vec_len, vec_capacity};

use crate::view::{Ruling, Shape, View};
use acts_core::{Freight, RestEntry};
use atomic_table::Table;
use std::alloc::Global;

/// The table of a listed queue.
#[derive(Drop)]
pub struct Entries<C: Freight> {
    pub(crate) table: Table<Option<C>, View, Shape, Ruling<C>, Global>,
    pub(crate) shape: Shape,
    /// Room for what is left when the table is closed.
    pub(crate) rest: Vec<RestEntry<C>>,
    pub ghost room: { (vec_len rest ≡ 0) × (shape.rows ≤ vec_capacity rest) },
    pub ghost wide: { table.shared.table_id.words ≡ words_of shape.rows shape.lists },
    pub ghost slots: { table.shared.table_id.slots ≡ shape.rows },
    pub ghost keyed: { table.shared.key ≡ shape },
    pub ghost rows: { shape.rows ≤ most_entries },
    pub ghost lists: { shape.lists ≤ 10 },
    pub ghost consumers: { shape.consumers ≤ 64 },
}

impl<C: Freight> Entries<C> {
    /// How many lists the table has.
    pub fn lists(&self) -> u32
        ensures { result ≡ self.now.shape.lists }
    {
        self.shape.lists
    }

    /// How many consumers the table has.
    pub fn consumers(&self) -> u32
        ensures { result ≡ self.now.shape.consumers }
    {
        self.shape.consumers
    }
}
