//! The queue.
ghost use Rattle.std.specs.Prelude.{◌≡◌, ◌≤◌, OnOk, OnErr};

use acts_core::Freight;
use byte_lists::NoMemory;
use kept_rows::KeptRows;
use row_order::ArrivalOrder;
use std::alloc::AllocError;
use std::marker::Model;

/// A queue whose entries are handed out by arrival, and in which the available entry of a key goes to whoever
/// puts a later one. Contracts see it as what it keeps.
#[derive(Drop)]
pub struct LastValue<C: Freight> {
    pub(crate) rows: KeptRows<C, ArrivalOrder>,
    /// The last row of each key, by key in byte order.
    pub(crate) lasts: Vec<u64>,
    /// For each row whether a later one of its key has come.
    pub(crate) outdated: Vec<bool>,
}

impl<C: Freight> Model for LastValue<C> {
    ghost use Rattle.std.specs.Prelude.{vec_capacity};
    ghost use Rattle.acts_core.specs.Kept.{Kept};
    ghost use Rattle.lastval_core.specs.Lasts.{KeepsLast, HasRoom};

    ghost Value = { Kept };

    ghost view = { λ q. q.rows };

    ghost invariant = { λ q. KeepsLast q.rows q.lasts.items q.outdated.items
        × HasRoom q.rows (vec_capacity q.lasts) (vec_capacity q.outdated) };
}

impl<C: Freight> LastValue<C> {
    /// Makes the spare at least so many rows. Where there is no memory for them, nothing changes.
    pub(crate) fn make_room(&mut self, rows: u64) -> Result<(), NoMemory>
        ensures keeps { self.new ≡ record self.old { spare = self.new.spare } }
        ensures grows { self.old.spare ≤ self.new.spare }
        ensures ok { OnOk result (rows ≤ self.new.spare) }
        ensures err { OnErr result (self.new ≡ self.old) }
    {
        if rows <= self.rows.spare() {
            return Ok(());
        }
        match self.grow(rows) {
            Ok(()) => Ok(()),
            Err(_) => Err(NoMemory),
        }
    }

    /// The spare becomes so many rows. Where there is no memory for them, nothing changes.
    pub fn grow(&mut self, rows: u64) -> Result<(), AllocError>
        requires { self.old.spare ≤ rows }
        ensures ok { OnOk result (self.new ≡ record self.old { spare = rows }) }
        ensures err { OnErr result (self.new ≡ self.old) }
    {
        let Some(all) = self.outdated.len().checked_add(rows as usize) else {
            return Err(AllocError);
        };
        self.outdated.reserve(rows as usize)?;
        self.lasts.reserve(all)?;
        self.rows.make_room(rows)?;
        Ok(())
    }
}
