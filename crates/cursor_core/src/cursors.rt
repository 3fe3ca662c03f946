//! A consumer's cursor, and the calls for the next and for the oldest entry.
ghost use Rattle.std.specs.Prelude.{ℕ, ◌≡◌, ◌≤◌};
ghost use mathlib.Core.List.{Mem};
ghost use Rattle.acts_core.specs.Calls.{CallNext, CallOldest};
ghost use Rattle.acts_core.specs.Meaning.{Called};
ghost use Rattle.acts_core.specs.Replies.{of_next};
ghost use Rattle.entry_table.specs.Passes.{Kept};
ghost use Rattle.entry_table.specs.Sights.{sight, build_of, Serves};
ghost use Rattle.cursor_core.specs.Listing.{IsTrueOf, WalksLists};

use crate::cursor::{Cursor, MOST_LISTS};
use crate::walks::{walk_free, walk_ready};
use acts_core::{Freight, Next};
use entry_table::{Entries, Pass};

impl Cursor {
    /// The cursor of a consumer that has looked at nothing yet: it stands before the first entry of each
    /// list.
    pub fn fresh(pass: &Pass, consumer: u32, lists: u32) -> Cursor
        requires lists { lists ≤ 10 }
        ensures consumer { result.consumer ≡ consumer }
        ensures truth { IsTrueOf (sight pass.now) result }
    {
        let _pass = pass;
        let _lists = lists;
        let stops = [0; MOST_LISTS];
        Cursor { consumer, stops }
    }
}

/// Acquires the first entry in queue order that is free to the cursor's consumer when looked at, from the
/// cursor on, the highest list first. It takes the consumer's bell at each list that it walks, and goes back to
/// the bell's row where that is at or before the cursor. It is `Empty` only where each entry that is owed was not
/// free to the consumer when looked at. The cursor stays true. Takes no memory, and never waits.
pub fn next<C: Freight>(entries: &Entries<C>, pass: &mut Pass, cursor: &mut Cursor) -> Next<C>
    requires serves { Serves entries.now pass.old }
    requires consumer { Mem cursor.old.consumer (sight pass.old).consumers }
    requires truth { IsTrueOf (sight pass.old) cursor.old }
    ensures serves { Serves entries.now pass.new }
    ensures kept { Kept pass.old pass.new }
    ensures called { (list : ℕ) × Called (build_of entries.now) (sight pass.old) (sight pass.new)
        (CallNext cursor.old.consumer) (of_next C.goods list result) }
    ensures consumer { cursor.new.consumer ≡ cursor.old.consumer }
    ensures truth { IsTrueOf (sight pass.new) cursor.new }
    ensures walks { WalksLists (sight pass.old) (sight pass.new) cursor.old cursor.new result }
{
    let mut list = entries.lists();
    'lists: while list > 0 {
        list -= 1;
        let mut stop = cursor.stops[list as usize];
        let got = walk_free(entries, pass, cursor.consumer, list, &mut stop);
        cursor.stops[list as usize] = stop;
        if let Some((row, cargo)) = got {
            return Next::Got { row, cargo };
        }
    }
    Next::Empty
}

/// Acquires the oldest entry that is available when looked at: from the lowest list up. It is `Empty` only
/// where each entry that is owed was not available when looked at. Takes no memory, and never waits.
pub fn oldest<C: Freight>(entries: &Entries<C>, pass: &mut Pass) -> Next<C>
    requires serves { Serves entries.now pass.old }
    ensures serves { Serves entries.now pass.new }
    ensures kept { Kept pass.old pass.new }
    ensures called { (list : ℕ) × Called (build_of entries.now) (sight pass.old) (sight pass.new)
        CallOldest (of_next C.goods list result) }
{
    for list in 0..entries.lists() {
        if let Some((row, cargo)) = walk_ready(entries, pass, list) {
            return Next::Got { row, cargo };
        }
    }
    Next::Empty
}
