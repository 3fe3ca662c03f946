//! Finding a row by its id.
ghost use Rattle.std.specs.Prelude.{◌≡◌, ◌<◌, Some};
ghost use Rattle.queue_model.specs.declared.rows.Row.{Row};
ghost use Rattle.queue_model.specs.State.{row_at};
ghost use Rattle.acts_core.specs.Calls.{CallFind, IsFound};
ghost use Rattle.acts_core.specs.Meaning.{Called};
ghost use Rattle.entry_table.specs.Passes.{IsPassOf, Kept, state};
ghost use Rattle.entry_table.specs.Sights.{sight, build_of, Serves};
ghost use Rattle.entry_calls.specs.Found.{Spots, FindsIn};

use acts_core::Freight;
use entry_table::{Entries, Pass};
use link_core::places::state_word;
use queue_model::{DraftWord, RowState, WordName};

// Whether a row has the id and is not deleted: two loads at most.
fn is_named<C: Freight>(entries: &Entries<C>, pass: &mut Pass, id: u64, row: u64) -> bool
    requires table { IsPassOf entries.now pass.old }
    requires known { (x : Row) × (row_at (state pass.old) row ≡ Some x) }
    ensures kept { Kept pass.old pass.new }
    ensures named { Spots (sight pass.old) (sight pass.new) id row result }
{
    let word = DraftWord::Ident;
    let ident = entries.look(pass, WordName::Draft { row, word });
    if ident == id {
        entries.look(pass, WordName::State(row)) != state_word(RowState::Deleted)
    } else {
        false
    }
}

// The first row of a list that has the id and is not deleted when looked at.
fn find_in<C: Freight>(entries: &Entries<C>, pass: &mut Pass, id: u64, list: u32) -> Option<u64>
    requires table { IsPassOf entries.now pass.old }
    requires list { list < entries.now.shape.lists }
    ensures kept { Kept pass.old pass.new }
    ensures finds { FindsIn (sight pass.old) (sight pass.new) id list result }
{
    let mut next = entries.follow(pass, list, 0);
    'rows: while let Some(row) = next {
        if is_named(entries, pass, id, row) {
            return Some(row);
        }
        next = entries.follow(pass, list, row + 1);
    }
    None
}

/// The first row in queue order that has this id and is not deleted when looked at. It is `None` only where
/// each row of the id that is owed was deleted when looked at. Takes no memory, and never waits.
pub fn find<C: Freight>(entries: &Entries<C>, pass: &mut Pass, id: u64) -> Option<u64>
    requires serves { Serves entries.now pass.old }
    ensures serves { Serves entries.now pass.new }
    ensures kept { Kept pass.old pass.new }
    ensures called { Called (build_of entries.now) (sight pass.old) (sight pass.new) (CallFind id)
        (IsFound result) }
{
    let mut list = entries.lists();
    'lists: while list > 0 {
        list -= 1;
        if let Some(row) = find_in(entries, pass, id, list) {
            return Some(row);
        }
    }
    None
}
