//! Exchanges of a row's state.
ghost use Rattle.std.specs.Prelude.{◌≡◌, ◌≢◌, ℕ, ◌≤◌, ◌<◌, [], ◌∷◌, None, Some};
ghost use Rattle.queue_model.specs.declared.rows.Row.{Row};
ghost use Rattle.queue_model.specs.State.{row_at, IsIn};
ghost use Rattle.queue_model.specs.Packing.{pack_state};
ghost use Rattle.link_core.specs.Steps.{GoesFrom, IsPackable, goes_to};
ghost use Rattle.entry_table.specs.Views.{rest_of, state_in};
ghost use Rattle.entry_table.specs.Plays.{took, ended, TakesOut, IsEnding, Taking, DidChange, AfterCall};
ghost use Rattle.queue_model.specs.declared.deeds.Act.TheVariants as acts;
ghost use Rattle.queue_model.specs.declared.steps.Change.TheVariants as changes;
ghost use Rattle.queue_model.specs.declared.rows.RowState.TheVariants.{Locked};
ghost use Rattle.entry_table.specs.Passes.{IsPassOf, Kept, view, state, KeepsRights, SpeaksBy};

use crate::entries::Entries;
use crate::pass::Pass;
use crate::view::View;
use acts_core::Freight;
use atomic_table::{Badge, Play, Seat};
use link_core::places::{state_of, state_place, state_word};
use queue_model::{Change, RowState};
use std::marker::{Brand, PhantomData};
use std::mem;

/// The row whose state changes, and how. Each call picks them.
pub trait Altering {
    ghost use Rattle.queue_model.specs.declared.steps.Change.{Change};
    ghost use Rattle.queue_model.specs.declared.rows.RowState.{RowState};

    ghost target: { ℕ };

    ghost change: { Change };

    ghost before: { RowState };
}

impl Altering for Brand {
    ghost use Rattle.queue_model.specs.declared.steps.Change.TheVariants.{Acq};
    ghost use Rattle.queue_model.specs.declared.rows.RowState.TheVariants.{Available};

    ghost target = { 0 };

    ghost change = { Acq };

    ghost before = { Available };
}

/// An exchange that takes the row's cargo out.
pub struct Takes<C, J> {
    cargo: PhantomData<C>,
    change: PhantomData<J>,
}

impl<C: Freight, J: Altering> Play<Option<C>, View> for Takes<C, J> {
    ghost then = { λ st. took C.goods J.target J.change J.before };
}

/// An exchange that moves no cargo.
pub struct Ending<J> {
    change: PhantomData<J>,
}

impl<C, J: Altering> Play<Option<C>, View> for Ending<J> {
    ghost then = { λ st. ended J.target J.change J.before };
}

impl<C: Freight> Entries<C> {
    // The exchange alone: Acq, Lock or Steal.
    fn take_word<J: Altering>(
        &self,
        seat: &mut Seat<Option<C>, View>,
        row: u64,
        change: Change,
        from: RowState,
        caller: u64,
    ) -> u64
        requires picked { (J.target ≡ row) × (J.change ≡ change) × (J.before ≡ from) }
        requires table { seat.old.table_id ≡ self.now.table.shared.table_id }
        requires caller { SpeaksBy caller seat.old.me.0 }
        requires idle { seat.old.me.0.slot ≡ None }
        requires known { (row < self.now.shape.rows)
            × ((x : Row) × (row_at (state_in seat.old.me.0) row ≡ Some x)) }
        requires fits { TakesOut change × GoesFrom caller change from × IsPackable from }
        ensures table { (seat.new.table_id ≡ seat.old.table_id) × (seat.new.id ≡ seat.old.id) }
        ensures told { took C.goods row change from seat.old.me result seat.new.me }
    {
        let _change = change;
        self.table.shared.compare_exchange::<Takes<C, J>>(
            seat,
            state_place(row),
            state_word(from),
            state_word(RowState::Locked(caller)),
        )
    }

    // Acq, Lock or Steal, by the cargo.
    fn take_at(
        &self,
        seat: &mut Seat<Option<C>, View>,
        row: u64,
        change: Change,
        from: RowState,
        caller: u64,
    ) -> Result<C, RowState>
        requires table { (seat.old.table_id ≡ self.now.table.shared.table_id) }
        requires caller { SpeaksBy caller seat.old.me.0 }
        requires idle { (seat.old.me.1 ≡ []) × (seat.old.me.0.slot ≡ None) }
        requires known { (row < self.now.shape.rows)
            × ((x : Row) × (row_at (state_in seat.old.me.0) row ≡ Some x)) }
        requires fits { TakesOut change × GoesFrom caller change from × IsPackable from }
        ensures table { (seat.new.table_id ≡ seat.old.table_id)
            × (seat.new.id ≡ seat.old.id)
            × (seat.new.me.1 ≡ []) }
        ensures answer { Taking C.goods row change from seat.old.me.0 seat.new.me.0 result }
        ensures after { AfterCall seat.old.me.0 seat.new.me.0 }
    {
        let found = self.take_word::<Brand>(seat, row, change, from, caller);
        if found == state_word(from) {
            Ok(self.take_out(seat, row, caller))
        } else {
            Err(state_of(found))
        }
    }

    /// Acq, Lock or Steal: the row's cargo, or the state that the row had.
    pub fn take_row(
        &self,
        pass: &mut Pass,
        row: u64,
        change: Change,
        from: RowState,
    ) -> Result<C, RowState>
        requires table { IsPassOf self.now pass.old }
        requires known { (x : Row) × (row_at (state pass.old) row ≡ Some x) }
        requires fits { TakesOut change × GoesFrom pass.old.caller change from × IsPackable from }
        ensures kept { Kept pass.old pass.new }
        ensures rights { KeepsRights pass.old pass.new }
        ensures answer { Taking C.goods row change from (view pass.old) (view pass.new) result }
    {
        let mut seat = mem::replace(&mut pass.badge, Badge::blank()).into_seat::<Option<C>>();
        let answer = self.take_at(&mut seat, row, change, from, pass.caller);
        pass.badge = seat.into_badge();
        answer
    }

    // The exchange alone: Deq or Del.
    fn end_word<J: Altering>(
        &self,
        seat: &mut Seat<Option<C>, View>,
        row: u64,
        change: Change,
        from: RowState,
        to: RowState,
        caller: u64,
    ) -> u64
        requires picked { (J.target ≡ row) × (J.change ≡ change) × (J.before ≡ from) }
        requires table { seat.old.table_id ≡ self.now.table.shared.table_id }
        requires caller { SpeaksBy caller seat.old.me.0 }
        requires idle { seat.old.me.0.slot ≡ None }
        requires known { (row < self.now.shape.rows)
            × ((x : Row) × (row_at (state_in seat.old.me.0) row ≡ Some x)) }
        requires fits { IsEnding change seat.old.me.0 row
            × GoesFrom caller change from
            × IsPackable from
            × (goes_to caller change ≡ to)
            × IsPackable to }
        ensures table { (seat.new.table_id ≡ seat.old.table_id) × (seat.new.id ≡ seat.old.id) }
        ensures told { ended row change from seat.old.me result seat.new.me }
    {
        let _caller = caller;
        let _change = change;
        self.table
            .shared
            .compare_exchange::<Ending<J>>(seat, state_place(row), state_word(from), state_word(to))
    }

    // Deq of a row that the caller holds.
    fn dequeue_at(&self, seat: &mut Seat<Option<C>, View>, row: u64, caller: u64)
        requires table { seat.old.table_id ≡ self.now.table.shared.table_id }
        requires caller { SpeaksBy caller seat.old.me.0 }
        requires idle { (seat.old.me.1 ≡ []) × (seat.old.me.0.slot ≡ None) }
        requires held { (row < self.now.shape.rows)
            × IsIn (state_in seat.old.me.0) row (Locked caller) }
        ensures table { (seat.new.table_id ≡ seat.old.table_id)
            × (seat.new.id ≡ seat.old.id)
            × (seat.new.me.1 ≡ []) }
        ensures told { (x : Row) × DidChange seat.old.me.0 seat.new.me.0 row changes.Deq
            (Locked caller) None (acts.Deq row) x }
        ensures after { AfterCall seat.old.me.0 seat.new.me.0 }
    {
        self.end_word::<Brand>(
            seat,
            row,
            Change::Deq,
            RowState::Locked(caller),
            RowState::Dequeued,
            caller,
        );
    }

    /// Deq of a row that the caller holds. It can't miss.
    pub fn dequeue_row(&self, pass: &mut Pass, row: u64)
        requires table { IsPassOf self.now pass.old }
        requires held { IsIn (state pass.old) row (Locked pass.old.caller) }
        ensures kept { Kept pass.old pass.new }
        ensures rights { KeepsRights pass.old pass.new }
        ensures changed { (x : Row) × DidChange (view pass.old) (view pass.new) row changes.Deq
            (Locked pass.old.caller) None (acts.Deq row) x }
    {
        let mut seat = mem::replace(&mut pass.badge, Badge::blank()).into_seat::<Option<C>>();
        self.dequeue_at(&mut seat, row, pass.caller);
        pass.badge = seat.into_badge();
    }
}
