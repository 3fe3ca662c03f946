//! Calls that take a row, and calls that leave one.
ghost use Rattle.std.specs.Prelude.{◌≡◌, ℕ};
ghost use Rattle.acts_core.specs.Asked.{HasLeft, Handed};
ghost use Rattle.acts_core.specs.Calls.{CallLock, CallUnlock, CallRelease, CallSteal, IsDone, IsReleased};
ghost use Rattle.acts_core.specs.Meaning.{Called};
ghost use Rattle.acts_core.specs.Owed.{Has};
ghost use Rattle.acts_core.specs.Replies.{of_lock, of_steal};
ghost use Rattle.entry_table.specs.Passes.{seen, state};
ghost use Rattle.entry_table.specs.Sights.{build_of, Serves, sight};

use crate::bells::ring_row;
use acts_core::{Freight, Locking, Stealing};
use entry_table::{Entries, Pass};
use link_core::places::state_of;
use queue_model::{Change, RowState, WordName};

/// Locks a row again that the caller had left. It is `Stolen` exactly where the row is no longer the caller's.
pub fn lock<C: Freight>(entries: &Entries<C>, pass: &mut Pass, row: u64) -> Locking<C>
    requires serves { Serves entries.now pass.old }
    requires left { HasLeft pass.old.caller row (seen pass.old) }
    ensures serves { Serves entries.now pass.new }
    ensures called { Called (build_of entries.now) (sight pass.old) (sight pass.new) (CallLock row)
        (of_lock C.goods result) }
{
    let own = RowState::Unlocked(pass.caller());
    match entries.take_row(pass, row, Change::Lock, own) {
        Ok(cargo) => Locking::Locked(cargo),
        Err(state) => Locking::Stolen(state),
    }
}

/// Leaves a held row, with its cargo: the caller may lock it again, and anyone may steal it.
pub fn unlock<C: Freight>(entries: &Entries<C>, pass: &mut Pass, row: u64, cargo: C)
    requires serves { Serves entries.now pass.old }
    requires handed { Handed (state pass.old) pass.old.caller row (C.goods cargo) }
    ensures serves { Serves entries.now pass.new }
    ensures called { Called (build_of entries.now) (sight pass.old) (sight pass.new)
        (CallUnlock row (C.goods cargo)) IsDone }
{
    entries.bring_row(pass, row, Change::Unlock, cargo);
}

/// Makes a held row available again, with its cargo, and then rings the bell of each consumer that wants it.
pub fn release<C: Freight>(entries: &Entries<C>, pass: &mut Pass, row: u64, cargo: C)
    requires serves { Serves entries.now pass.old }
    requires handed { Handed (state pass.old) pass.old.caller row (C.goods cargo) }
    ensures serves { Serves entries.now pass.new }
    ensures called { (mask : ℕ) × Called (build_of entries.now) (sight pass.old) (sight pass.new)
        (CallRelease row (C.goods cargo)) (IsReleased mask) }
{
    entries.bring_row(pass, row, Change::Rel, cargo);
    ring_row(entries, pass, row);
}

/// Takes a row that somebody left. It is `NotStealable` exactly where nobody had left the row, and `Moved`
/// exactly where somebody had, and then the row was found changed. Both leave all as it was.
pub fn steal<C: Freight>(entries: &Entries<C>, pass: &mut Pass, row: u64) -> Stealing<C>
    requires serves { Serves entries.now pass.old }
    requires row { Has (state pass.old) row }
    ensures serves { Serves entries.now pass.new }
    ensures called { Called (build_of entries.now) (sight pass.old) (sight pass.new) (CallSteal row)
        (of_steal C.goods result) }
{
    let state = state_of(entries.look(pass, WordName::State(row)));
    let RowState::Unlocked(_) = state else {
        return Stealing::NotStealable(state);
    };
    match entries.take_row(pass, row, Change::Steal, state) {
        Ok(cargo) => Stealing::Stolen(cargo),
        Err(other) => Stealing::Moved(other),
    }
}
