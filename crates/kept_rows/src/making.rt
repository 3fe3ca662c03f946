//! Rows to start with.
ghost use Rattle.std.specs.Prelude.{ℕ, ◌≡◌, ◌+◌, ◌-◌, ◌*◌, ◌<◌, ◌≤◌, IfOk, [], ◌∷◌, ◌++◌, length, sum_by, vec_len};
ghost use Rattle.queue_model.specs.Table.{most_bytes, most_entries};
ghost use Rattle.kept_rows.specs.Rows.{more_deep, with_new};
ghost use Rattle.kept_rows.specs.Starting.{AllMayStart, MayStart, IsMade, IsEntered, room_for};

use crate::rows::KeptRows;
use acts_core::Freight;
use byte_lists::NoMemory;
use queue_model::Slip;
use row_order::Ranking;
use std::alloc::Global;

impl<C: Freight, O: Ranking> KeptRows<C, O> {
    /// Makes rows of these entries, available and in their order, with no spare. There may be 524,288 at most.
    /// Without memory they are dropped.
    pub fn make(alloc: Global, start: Vec<(Slip, C)>) -> Result<KeptRows<C, O>, NoMemory>
        requires few { vec_len start ≤ most_entries }
        requires start { AllMayStart C.goods start.items }
        ensures { IfOk result (λ k. IsMade C.goods start.items k) }
    {
        let Ok(mut rows) = Self::bare(alloc) else {
            return Err(NoMemory);
        };
        if rows.make_room(start.len() as u64).is_err() {
            return Err(NoMemory);
        }
        rows.enter_all(start);
        Ok(rows)
    }

    // These entries come, in their order, from the spare.
    fn enter_all(&mut self, start: Vec<(Slip, C)>)
        requires few { vec_len start ≤ most_entries }
        requires start { AllMayStart C.goods start.items }
        requires empty { self.old ≡ room_for (vec_len start) }
        ensures entered { IsEntered C.goods start.items self.new }
        ensures spare { self.new.spare ≡ 0 }
    {
        let mut waiting = start;
        waiting.as_mut_slice().reverse();
        'entering: while let Some((slip, cargo)) = waiting.pop() {
            self.enter(slip, cargo);
        }
    }

    // One entry comes from the spare, and counts.
    fn enter(&mut self, slip: Slip, cargo: C)
        requires start { MayStart C.goods slip cargo }
        requires few { self.old.depth.entries < most_entries }
        requires small { self.old.depth.bytes ≤ most_bytes * self.old.depth.entries }
        requires spare { 0 < self.old.spare }
        ensures { self.new ≡ record (with_new self.old (self.old.spare - 1) slip (C.goods cargo)) {
          depth = more_deep self.old.depth slip.size;
        } }
    {
        self.raise(slip.size);
        self.push(slip, cargo);
    }
}
