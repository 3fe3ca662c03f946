//! One row comes, or one is changed.
ghost use Rattle.std.specs.Prelude.{◌≡◌, ℕ, ◌+◌, ◌^◌, ◌<◌, Option, Some, None, length};
ghost use Rattle.std.specs.Option.{option_map};
ghost use Rattle.queue_model.specs.declared.rows.RowState.TheVariants.{Available};
ghost use Rattle.kept_rows.specs.Keeping.{Names};
ghost use Rattle.kept_rows.specs.Rows.{kept_at, with_row, with_new, row_in, goods_in, Fitting, CameOut};

use crate::rows::KeptRows;
use acts_core::Freight;
use queue_model::{RowState, Slip};
use row_order::{Ranking, Slot, set_leaf};
use std::mem;

impl<C: Freight, O: Ranking> KeptRows<C, O> {
    /// A new row comes, available, and takes one of the spare. It answers its number.
    pub fn push(&mut self, slip: Slip, cargo: C) -> u64
        requires spare { 0 < self.old.spare }
        requires fits { Fitting slip Available (Some (C.goods cargo)) }
        ensures row { result ≡ length self.old.rows }
        ensures spare { self.new.spare + 1 ≡ self.old.spare }
        ensures kept { self.new ≡ with_new self.old self.new.spare slip (C.goods cargo) }
    {
        let row = self.slots.len() as u64;
        self.slots.push_reserved(Slot {
            slip,
            state: RowState::Available,
            cargo: Some(cargo),
        });
        set_leaf::<C, O>(&self.slots, &mut self.nodes, self.width, row, row + 1);
        self.spare -= 1;
        row
    }

    /// Puts a row into a state, with its cargo where that is then at home, and answers the cargo that it had.
    pub fn change(&mut self, row: u64, state: RowState, cargo: Option<C>) -> Option<C>
        requires row { row < length self.old.rows }
        requires fits { Fitting (kept_at self.old row).slip state (option_map C.goods cargo) }
        ensures kept { self.new ≡ with_row self.old row
            (row_in state (option_map (λ c. goods_in (C.goods c)) cargo) (kept_at self.old row)) }
        ensures came { CameOut (kept_at self.old row) (option_map C.goods result) }
    {
        let slot = &mut self.slots[row as usize];
        slot.state = state;
        let before = mem::replace(&mut slot.cargo, cargo);
        let word = leaf_word(row, state);
        set_leaf::<C, O>(&self.slots, &mut self.nodes, self.width, row, word);
        before
    }
}

// The word of the leaf of a row that is in this state.
fn leaf_word(row: u64, state: RowState) -> u64
    requires { row + 1 < 2 ^ 64 }
    ensures { Names state row result }
{
    match state {
        RowState::Available => row + 1,
        _ => 0,
    }
}
