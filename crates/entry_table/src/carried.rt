//! A row's slot, taken and given back by a load for its sake.
ghost use Rattle.std.specs.Prelude.{◌≡◌, ℕ, [], ◌∷◌, None, Some};
ghost use Rattle.queue_model.specs.declared.steps.Step.TheVariants as steps;
ghost use Rattle.queue_model.specs.declared.steps.WordName.TheVariants as names;
ghost use Rattle.entry_table.specs.Views.{rest_of, state_in, Mine};
ghost use Rattle.entry_table.specs.Plays.{fetched, given, Slotted};

use crate::entries::Entries;
use crate::plays::{Fetches, Gives, Placing};
use crate::view::View;
use acts_core::Freight;
use atomic_table::Seat;
use std::marker::Brand;

impl<C: Freight> Entries<C> {
    // The slot of a drawn or held row is taken, and gets the cargo.
    pub(crate) fn put_in(&self, seat: &mut Seat<Option<C>, View>, row: u64, cargo: C, caller: u64)
        requires table { seat.old.table_id ≡ self.now.table.shared.table_id }
        requires caller { seat.old.me.0.callers ≡ caller ∷ rest_of seat.old.me.0.callers }
        requires idle { (seat.old.me.1 ≡ []) × (seat.old.me.0.slot ≡ None) }
        requires mine { Mine (state_in seat.old.me.0) seat.old.me.0 row }
        ensures table { (seat.new.table_id ≡ seat.old.table_id) × (seat.new.id ≡ seat.old.id) }
        ensures carried { seat.new.me.1 ≡ (row, Some cargo) ∷ [] }
        ensures told { Slotted seat.old.me.0 seat.new.me.0 (Some row) }
    {
        self.fetch::<Brand>(seat, row, caller);
        let _ = self.table.shared.exchange(seat, row as usize, Some(cargo));
    }

    // The cargo is taken out of the slot, which is given back.
    pub(crate) fn take_out(&self, seat: &mut Seat<Option<C>, View>, row: u64, caller: u64) -> C
        requires table { seat.old.table_id ≡ self.now.table.shared.table_id }
        requires caller { seat.old.me.0.callers ≡ caller ∷ rest_of seat.old.me.0.callers }
        requires out { ((c : C) × (seat.old.me.1 ≡ (row, Some c) ∷ []))
            × (seat.old.me.0.slot ≡ Some row) }
        requires mine { Mine (state_in seat.old.me.0) seat.old.me.0 row }
        ensures table { (seat.new.table_id ≡ seat.old.table_id) × (seat.new.id ≡ seat.old.id) }
        ensures carried { (seat.old.me.1 ≡ (row, Some result) ∷ []) × (seat.new.me.1 ≡ []) }
        ensures told { Slotted seat.old.me.0 seat.new.me.0 None }
    {
        let Some(cargo) = self.table.shared.exchange(seat, row as usize, None) else {
            unreachable!()
        };
        self.give(seat, row, caller);
        cargo
    }

    // A load that takes the slot of a row that the pass drew or holds.
    fn fetch<J: Placing>(&self, seat: &mut Seat<Option<C>, View>, row: u64, caller: u64)
        requires picked { J.number ≡ row }
        requires table { seat.old.table_id ≡ self.now.table.shared.table_id }
        requires caller { seat.old.me.0.callers ≡ caller ∷ rest_of seat.old.me.0.callers }
        requires idle { seat.old.me.0.slot ≡ None }
        requires mine { Mine (state_in seat.old.me.0) seat.old.me.0 row }
        ensures table { (seat.new.table_id ≡ seat.old.table_id) × (seat.new.id ≡ seat.old.id) }
        ensures told { (n : ℕ) × fetched row (steps.Load names.Callers) seat.old.me n seat.new.me }
    {
        let _row = (row, caller);
        self.table.shared.load::<Fetches<J>>(seat, 1);
    }

    // A load that gives the slot back, empty.
    fn give(&self, seat: &mut Seat<Option<C>, View>, row: u64, caller: u64)
        requires table { seat.old.table_id ≡ self.now.table.shared.table_id }
        requires caller { seat.old.me.0.callers ≡ caller ∷ rest_of seat.old.me.0.callers }
        requires out { (seat.old.me.1 ≡ (row, None) ∷ []) × (seat.old.me.0.slot ≡ Some row) }
        requires mine { Mine (state_in seat.old.me.0) seat.old.me.0 row }
        ensures table { (seat.new.table_id ≡ seat.old.table_id) × (seat.new.id ≡ seat.old.id) }
        ensures told { (n : ℕ) × given (steps.Load names.Callers) seat.old.me n seat.new.me }
    {
        let _row = (row, caller);
        self.table.shared.load::<Gives>(seat, 1);
    }
}
