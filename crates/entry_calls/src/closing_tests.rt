//! What a table leaves when it is closed, for a boss who isn't told what its threads did: a pass of its own looks at each
//! row, while nobody else has one.
ghost use Rattle.std.specs.Prelude.{◌≡◌, ◌<◌, ◌∷◌, [], ℕ, List, Some, IsTrue, ◌↔◌};
ghost use mathlib.Core.List.{IsPrefix};
ghost use Rattle.queue_model.specs.declared.deeds.Deed.{Deed};
ghost use Rattle.queue_model.specs.declared.rows.Row.{Row};
ghost use Rattle.queue_model.specs.History.{after, own};
ghost use Rattle.queue_model.specs.State.{row_at};
ghost use Rattle.acts_core.specs.Asked.{most_callers};
ghost use Rattle.acts_core.specs.Rest.{Rests};
ghost use Rattle.entry_table.specs.Passes.{IsPassOf, Kept, callers, opening, seen, state, view};
ghost use Rattle.entry_table.specs.Resting.{Settled};
ghost use Rattle.entry_table.specs.Sights.{Serves};
ghost use Rattle.entry_table.specs.Views.{Has};

use crate::depth;
use crate::tests::Empty;
use acts_core::RestEntry;
use entry_table::{Entries, Pass};
use link_core::places::state_of;
use queue_model::{RowState, WordName};

/// Whether a row in this state is at rest.
fn rests(state: RowState) -> bool
    ensures { IsTrue result ↔ Rests state }
{
    match state {
        RowState::Available | RowState::Unlocked(_) | RowState::Deleted => true,
        RowState::Locked(_) | RowState::Dequeued => false,
    }
}

/// Whether each row was at rest when it was looked at.
fn saw_rest(entries: &Entries<Empty>, pass: &mut Pass, rows: u64) -> bool
    requires table { IsPassOf entries.now pass.old }
    requires rows { rows ≡ entries.now.shape.rows }
    ensures table { IsPassOf entries.now pass.new }
    ensures kept { Kept pass.old pass.new }
    ensures grows { IsPrefix (seen pass.old) (seen pass.new) }
    ensures idle { own pass.old.caller (seen pass.new) ≡ own pass.old.caller (seen pass.old) }
    ensures saw { IsTrue result → (r : ℕ) → r < rows → (at : List Deed)
        × IsPrefix (seen pass.old) at × IsPrefix at (seen pass.new)
        × ((x : Row) → row_at (after (opening pass.old) at) r ≡ Some x → Rests x.state) }
{
    for row in 0..rows {
        let word = entries.look(pass, WordName::State(row));
        if !rests(state_of(word)) {
            return false;
        }
    }
    true
}

/// Whether each row is at rest.
pub(crate) fn is_settled(entries: &Entries<Empty>, boss: &mut Pass, rows: u64) -> bool
    requires serves { Serves entries.now boss.old }
    requires rows { rows ≡ entries.now.shape.rows }
    requires boss { boss.old.caller ≡ 0 }
    requires made { (view boss.old).made < most_callers }
    requires every { (k : ℕ) → k < (view boss.old).made → Has k (callers boss.old) }
    ensures table { IsPassOf entries.now boss.new }
    ensures boss { boss.new.caller ≡ 0 }
    ensures every { (k : ℕ) → k < (view boss.new).made → Has k (callers boss.new) }
    ensures settled { IsTrue result → Settled (state boss.new) }
{
    let mut other = entries.split(boss, &[], 0);
    let saw = saw_rest(entries, &mut other, rows);
    entries.join(boss, other);
    saw
}

/// How many entries the depth word tells.
fn entries_in(entries: &Entries<Empty>, boss: &mut Pass) -> u64
    requires serves { Serves entries.now boss.old }
    requires every { (k : ℕ) → k < (view boss.old).made → Has k (callers boss.old) }
    ensures serves { Serves entries.now boss.new }
    ensures boss { (boss.new.caller ≡ boss.old.caller)
        × ((view boss.new).made ≡ (view boss.old).made) }
    ensures every { (k : ℕ) → k < (view boss.new).made → Has k (callers boss.new) }
{
    depth(entries, boss).entries
}

/// What a table leaves: how many entries its depth word tells, and the entries.
#[derive(Drop)]
pub(crate) struct Remains {
    pub(crate) depth: u64,
    pub(crate) rest: Vec<RestEntry<Empty>>,
}

/// What is left, where each row is at rest.
pub(crate) fn left(entries: Entries<Empty>, boss: Pass, rows: u64) -> Option<Remains>
    requires serves { Serves entries boss }
    requires rows { rows ≡ entries.shape.rows }
    requires boss { boss.caller ≡ 0 }
    requires made { (view boss).made < most_callers }
    requires every { (k : ℕ) → k < (view boss).made → Has k (callers boss) }
{
    let mut boss = boss;
    let depth = entries_in(&entries, &mut boss);
    if is_settled(&entries, &mut boss, rows) {
        let rest = entries.close(boss);
        Some(Remains { depth, rest })
    } else {
        None
    }
}
