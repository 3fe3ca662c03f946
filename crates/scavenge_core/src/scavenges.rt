//! Lists whose links are put right.
ghost use Rattle.std.specs.Prelude.{◌<◌};
ghost use Rattle.entry_table.specs.Passes.{IsPassOf, Kept};
ghost use Rattle.scavenge_core.specs.Scavenges.{Scavenged};

use crate::skips::step_behind;
use acts_core::Freight;
use entry_table::{Entries, Pass};
use queue_model::{DraftWord, WordName};

/// Steps over the deleted rows of a list from its head up to its high mark: the links from the head then visit
/// only rows that were not deleted when they were looked at. Takes no memory, and never waits.
pub fn scavenge<C: Freight>(entries: &Entries<C>, pass: &mut Pass, list: u32)
    requires table { IsPassOf entries.now pass.old }
    requires list { list < entries.now.shape.lists }
    ensures kept { Kept pass.old pass.new }
    ensures scavenged { Scavenged pass.old pass.new list }
{
    let mark = entries.look(pass, WordName::Mark(list));
    let mut stop = 0;
    'rows: loop {
        let Some(row) = step_behind(entries, pass, list, stop) else {
            return;
        };
        stop = row + 1;
        let word = DraftWord::Place;
        if entries.look(pass, WordName::Draft { row, word }) >= mark {
            return;
        }
    }
}
