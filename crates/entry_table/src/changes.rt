//! The exchange of a row's state, whatever the change.
ghost use Rattle.std.specs.Prelude.{◌≡◌, Some};
ghost use Rattle.queue_model.specs.declared.rows.Row.{Row};
ghost use Rattle.queue_model.specs.State.{row_at};
ghost use Rattle.link_core.specs.Steps.{GoesFrom, IsPackable};
ghost use Rattle.entry_table.specs.Exchanges.{CameHome, Changed, HoldsWith, MayChange, Taken};
ghost use Rattle.entry_table.specs.Homes.{BringsHome};
ghost use Rattle.entry_table.specs.Passes.{IsPassOf, Kept, allowance, drawn, share, state, view};
ghost use Rattle.entry_table.specs.Plays.{TakesOut};

use crate::entries::Entries;
use crate::pass::Pass;
use acts_core::Freight;
use queue_model::{Change, RowState};

/// The answer to an exchange of a row's state.
#[derive(Drop)]
pub enum Exchanged<C> {
    /// The state changed. The row's cargo, where the change takes it out.
    Done(Option<C>),
    /// The row was in this other state, and nothing changed. The cargo that was to come home.
    Shown(RowState, Option<C>),
}

impl<C: Freight> Entries<C> {
    /// Changes the state of a row where it is still `from`. Acq, Lock and Steal hand out the row's cargo, Unlock
    /// and Rel bring it home. Only what another caller may have changed before can show another state: what the
    /// caller itself holds, or dequeued, is as it left it.
    pub fn exchange_state(
        &self,
        pass: &mut Pass,
        row: u64,
        change: Change,
        from: RowState,
        cargo: Option<C>,
    ) -> Exchanged<C>
        requires table { IsPassOf self.now pass.old }
        requires may { MayChange C.goods (view pass.old) pass.old.caller row change from cargo }
        ensures kept { Kept pass.old pass.new }
        ensures allowance { allowance pass.new ≡ allowance pass.old }
        ensures share { share pass.new ≡ share pass.old }
        ensures drawn { drawn pass.new ≡ drawn pass.old }
        ensures changed { Changed C.goods (view pass.old) (view pass.new) pass.old.caller row change
            from cargo result }
    {
        match change {
            Change::Unlock => self.bring(pass, row, Change::Unlock, cargo),
            Change::Rel => self.bring(pass, row, Change::Rel, cargo),
            Change::Deq => {
                self.dequeue_row(pass, row);
                Exchanged::Done(None)
            }
            Change::Del => {
                self.delete_row(pass, row);
                Exchanged::Done(None)
            }
            Change::Acq => self.take(pass, row, Change::Acq, from),
            Change::Lock => self.take(pass, row, Change::Lock, from),
            Change::Steal => self.take(pass, row, Change::Steal, from),
        }
    }

    // Acq, Lock or Steal.
    fn take(&self, pass: &mut Pass, row: u64, change: Change, from: RowState) -> Exchanged<C>
        requires table { IsPassOf self.now pass.old }
        requires known { (x : Row) × (row_at (state pass.old) row ≡ Some x) }
        requires fits { TakesOut change × GoesFrom pass.old.caller change from × IsPackable from }
        ensures kept { Kept pass.old pass.new }
        ensures allowance { allowance pass.new ≡ allowance pass.old }
        ensures share { share pass.new ≡ share pass.old }
        ensures drawn { drawn pass.new ≡ drawn pass.old }
        ensures taken { Taken C.goods (view pass.old) (view pass.new) row change from result }
    {
        match self.take_row(pass, row, change, from) {
            Ok(cargo) => Exchanged::Done(Some(cargo)),
            Err(state) => Exchanged::Shown(state, None),
        }
    }

    // Unlock or Rel.
    fn bring(&self, pass: &mut Pass, row: u64, change: Change, cargo: Option<C>) -> Exchanged<C>
        requires table { IsPassOf self.now pass.old }
        requires change { BringsHome change }
        requires holding { HoldsWith C.goods (view pass.old) pass.old.caller row cargo }
        ensures kept { Kept pass.old pass.new }
        ensures allowance { allowance pass.new ≡ allowance pass.old }
        ensures share { share pass.new ≡ share pass.old }
        ensures drawn { drawn pass.new ≡ drawn pass.old }
        ensures brought { CameHome C.goods (view pass.old) (view pass.new) row change cargo result }
    {
        match cargo {
            Some(cargo) => {
                self.bring_row(pass, row, change, cargo);
                Exchanged::Done(None)
            }
            None => unreachable!(),
        }
    }
}
