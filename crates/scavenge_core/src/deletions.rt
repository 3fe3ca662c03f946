//! What becomes of a list when one of its rows is deleted.
ghost use Rattle.std.specs.Prelude.{◌≡◌, Some};
ghost use Rattle.queue_model.specs.declared.rows.Row.{Row};
ghost use Rattle.queue_model.specs.State.{row_at};
ghost use Rattle.entry_table.specs.Passes.{IsPassOf, Kept, state};
ghost use Rattle.scavenge_core.specs.Scavenges.{OnDeleted};

use crate::nodes::list_of;
use crate::scavenges::scavenge;
use acts_core::Freight;
use entry_table::{Entries, Pass};
use queue_model::{DraftWord, WordName};

/// A list is scavenged when so many of its rows were deleted.
pub const DELETIONS: u64 = 50;

/// Raises the mark of a deleted row's list to the row's place, and its count by one. With the fiftieth deletion
/// the count is set back, and the list scavenged. Takes no memory, and never waits.
pub fn on_deleted<C: Freight>(entries: &Entries<C>, pass: &mut Pass, row: u64)
    requires table { IsPassOf entries.now pass.old }
    requires known { (x : Row) × (row_at (state pass.old) row ≡ Some x) }
    ensures kept { Kept pass.old pass.new }
    ensures deleted { OnDeleted pass.old pass.new row }
{
    let list = list_of(entries, pass, row);
    let word = DraftWord::Place;
    let place = entries.look(pass, WordName::Draft { row, word });
    entries.mark(pass, list, place);
    if entries.count(pass, list) >= DELETIONS - 1 {
        entries.reset(pass, list);
        scavenge(entries, pass, list);
    }
}
