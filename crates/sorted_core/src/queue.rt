//! The queue.
ghost use Rattle.std.specs.Prelude.{IfOk, OnErr, OnOk, ◌≡◌, ◌≤◌, vec_len};
ghost use Rattle.queue_model.specs.Table.{most_entries};
ghost use Rattle.kept_rows.specs.Starting.{AllMayStart, IsMade};

use acts_core::Freight;
use byte_lists::NoMemory;
use kept_rows::KeptRows;
use queue_model::Slip;
use row_order::KeyOrder;
use std::alloc::{AllocError, Global};
use std::marker::Model;

/// A queue whose entries are handed out by key in byte order, those of one key by arrival, and those without
/// a key last. Contracts see it as what it keeps.
#[derive(Drop)]
pub struct Sorted<C: Freight> {
    pub(crate) rows: KeptRows<C, KeyOrder>,
}

impl<C: Freight> Model for Sorted<C> {
    ghost use Rattle.acts_core.specs.Kept.{Kept};

    ghost Value = { Kept };

    ghost view = { λ q. q.rows };
}

impl<C: Freight> Sorted<C> {
    /// Makes a queue that starts with these entries, available and in their order, with no spare. There may be
    /// 524,288 at most. Without memory they are dropped.
    pub fn make(alloc: Global, start: Vec<(Slip, C)>) -> Result<Sorted<C>, NoMemory>
        requires few { vec_len start ≤ most_entries }
        requires start { AllMayStart C.goods start.items }
        ensures { IfOk result (λ q. IsMade C.goods start.items q) }
    {
        Ok(Sorted {
            rows: KeptRows::make(alloc, start)?,
        })
    }

    /// The spare becomes so many rows. Where there is no memory for them, nothing changes.
    pub fn grow(&mut self, rows: u64) -> Result<(), AllocError>
        requires { self.old.spare ≤ rows }
        ensures ok { OnOk result (self.new ≡ record self.old { spare = rows }) }
        ensures err { OnErr result (self.new ≡ self.old) }
    {
        self.rows.make_room(rows)
    }
}
