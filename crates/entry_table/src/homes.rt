//! Changes that bring a row's cargo home, and deletions.
ghost use Rattle.std.specs.Prelude.{◌≡◌, ℕ, ◌<◌, [], ◌∷◌, ◌++◌, None, Some};
ghost use Rattle.queue_model.specs.declared.deeds.Act.TheVariants as acts;
ghost use Rattle.queue_model.specs.declared.steps.Change.TheVariants as changes;
ghost use Rattle.queue_model.specs.declared.rows.RowState.TheVariants.{Locked, Dequeued, Deleted};
ghost use Rattle.queue_model.specs.declared.steps.Step.TheVariants as steps;
ghost use Rattle.queue_model.specs.declared.rows.Row.{Row};
ghost use Rattle.queue_model.specs.State.{row_at};
ghost use Rattle.queue_model.specs.Packing.{pack_state};
ghost use Rattle.acts_core.specs.Asked.{HasDequeued};
ghost use Rattle.link_core.specs.Steps.{act_with, goes_to};
ghost use Rattle.entry_table.specs.Views.{rest_of, state_in, entry};
ghost use Rattle.entry_table.specs.Plays.{AfterCall, DidChange};
ghost use Rattle.entry_table.specs.Homes.{bringing, BringsHome, Brought, deleted, Holding, HomeReady};
ghost use Rattle.entry_table.specs.Passes.{IsPassOf, Kept, Did, state, shown, seen, view, KeepsRights, SpeaksBy};

use crate::entries::Entries;
use crate::pass::Pass;
use crate::states::Altering;
use crate::view::View;
use acts_core::Freight;
use atomic_table::{Badge, Play, Seat};
use link_core::places::{state_place, state_word};
use queue_model::{Change, RowState};
use std::marker::{Brand, PhantomData};
use std::mem;

/// An exchange that brings the row's cargo home.
pub struct Brings<C, J> {
    cargo: PhantomData<C>,
    change: PhantomData<J>,
}

impl<C: Freight, J: Altering> Play<Option<C>, View> for Brings<C, J> {
    ghost then = { λ st. bringing C.goods J.target J.change };
}

/// A deletion.
pub struct Deletes<J> {
    change: PhantomData<J>,
}

impl<C, J: Altering> Play<Option<C>, View> for Deletes<J> {
    ghost then = { λ st. deleted J.target };
}

/// The state to which a change leads that brings the cargo home.
fn home_state(caller: u64, change: Change) -> RowState
    requires { BringsHome change }
    ensures { result ≡ goes_to caller change }
{
    match change {
        Change::Unlock => RowState::Unlocked(caller),
        _ => RowState::Available,
    }
}

impl<C: Freight> Entries<C> {
    /// Unlock or Rel of a row that the caller holds, with its cargo. It cannot miss.
    pub fn bring_row(&self, pass: &mut Pass, row: u64, change: Change, cargo: C)
        requires table { IsPassOf self.now pass.old }
        requires change { BringsHome change }
        requires holding { Holding (state pass.old) pass.old.caller row (C.goods cargo) }
        ensures kept { Kept pass.old pass.new }
        ensures rights { KeepsRights pass.old pass.new }
        ensures brought { Brought (view pass.old) (view pass.new) row change (C.goods cargo).count }
    {
        let mut seat = mem::replace(&mut pass.badge, Badge::blank()).into_seat::<Option<C>>();
        self.bring_at(&mut seat, row, change, cargo, pass.caller);
        pass.badge = seat.into_badge();
    }

    // The row's slot is taken and gets the cargo, and then the state changes.
    fn bring_at(
        &self,
        seat: &mut Seat<Option<C>, View>,
        row: u64,
        change: Change,
        cargo: C,
        caller: u64,
    )
        requires table { seat.old.table_id ≡ self.now.table.shared.table_id }
        requires caller { SpeaksBy caller seat.old.me.0 }
        requires idle { (seat.old.me.1 ≡ []) × (seat.old.me.0.slot ≡ None) }
        requires change { BringsHome change }
        requires low { row < self.now.shape.rows }
        requires holding { Holding (state_in seat.old.me.0) caller row (C.goods cargo) }
        ensures table { (seat.new.table_id ≡ seat.old.table_id)
            × (seat.new.id ≡ seat.old.id)
            × (seat.new.me.1 ≡ []) }
        ensures brought { Brought seat.old.me.0 seat.new.me.0 row change (C.goods cargo).count }
        ensures after { AfterCall seat.old.me.0 seat.new.me.0 }
    {
        self.put_in(seat, row, cargo, caller);
        self.bring_word::<Brand>(seat, row, change, home_state(caller, change), caller);
    }

    // The exchange alone.
    fn bring_word<J: Altering>(
        &self,
        seat: &mut Seat<Option<C>, View>,
        row: u64,
        change: Change,
        to: RowState,
        caller: u64,
    ) -> u64
        requires picked { (J.target ≡ row) × (J.change ≡ change) }
        requires table { seat.old.table_id ≡ self.now.table.shared.table_id }
        requires caller { SpeaksBy caller seat.old.me.0 }
        requires change { BringsHome change × (to ≡ goes_to caller change) }
        requires low { row < self.now.shape.rows }
        requires ready { HomeReady C.goods seat.old.me caller row }
        ensures table { (seat.new.table_id ≡ seat.old.table_id) × (seat.new.id ≡ seat.old.id) }
        ensures told { bringing C.goods row change seat.old.me result seat.new.me }
    {
        let _change = change;
        self.table.shared.compare_exchange::<Brings<C, J>>(
            seat,
            state_place(row),
            state_word(RowState::Locked(caller)),
            state_word(to),
        )
    }

    /// Del of a row that the caller dequeued, and did no more to since. It cannot miss.
    pub fn delete_row(&self, pass: &mut Pass, row: u64)
        requires table { IsPassOf self.now pass.old }
        requires known { (x : Row) × (row_at (state pass.old) row ≡ Some x) }
        requires dequeued { HasDequeued pass.old.caller row (seen pass.old) }
        ensures kept { Kept pass.old pass.new }
        ensures rights { KeepsRights pass.old pass.new }
        ensures did { Did pass.old pass.new (acts.Del row ∷ []) }
        ensures changed { (x : Row) × DidChange (view pass.old) (view pass.new) row changes.Del
            Dequeued None (acts.Del row) x }
        ensures shown { shown pass.new ≡ shown pass.old
            ++ entry (steps.State row changes.Del Dequeued) (pack_state Dequeued)
            (pack_state Deleted) (seen pass.new) ∷ [] }
    {
        let mut seat = mem::replace(&mut pass.badge, Badge::blank()).into_seat::<Option<C>>();
        self.delete_at::<Brand>(&mut seat, row, pass.caller);
        pass.badge = seat.into_badge();
    }

    // The exchange alone.
    fn delete_at<J: Altering>(&self, seat: &mut Seat<Option<C>, View>, row: u64, caller: u64)
        requires picked { J.target ≡ row }
        requires table { seat.old.table_id ≡ self.now.table.shared.table_id }
        requires caller { seat.old.me.0.callers ≡ caller ∷ rest_of seat.old.me.0.callers }
        requires idle { seat.old.me.0.slot ≡ None }
        requires low { row < self.now.shape.rows }
        requires dequeued { HasDequeued caller row seat.old.me.0.seen }
        ensures table { (seat.new.table_id ≡ seat.old.table_id) × (seat.new.id ≡ seat.old.id) }
        ensures carried { seat.new.me.1 ≡ seat.old.me.1 }
        ensures told { (x : Row)
            × DidChange seat.old.me.0 seat.new.me.0 row changes.Del Dequeued None (acts.Del row) x }
        ensures after { AfterCall seat.old.me.0 seat.new.me.0 }
    {
        let _caller = caller;
        self.table.shared.compare_exchange::<Deletes<J>>(
            seat,
            state_place(row),
            state_word(RowState::Dequeued),
            state_word(RowState::Deleted),
        );
    }
}
