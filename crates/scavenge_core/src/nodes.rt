//! Steps over the deleted rows behind a node, whichever list it is in.
ghost use Rattle.queue_model.specs.declared.rows.Row.{Row};
ghost use Rattle.queue_model.specs.State.{row_at};
ghost use Rattle.acts_core.specs.Walks.{IsOfList};
ghost use Rattle.std.specs.Prelude.{◌≡◌, ◌<◌, Some};
ghost use Rattle.entry_table.specs.Passes.{IsPassOf, Kept, state};
ghost use Rattle.entry_table.specs.Plays.{IsKnown, list_at_node};
ghost use Rattle.scavenge_core.specs.Scavenges.{LooksUp};
ghost use Rattle.scavenge_core.specs.Skips.{StepsOver, stop_at};

use crate::skips::step_behind;
use acts_core::Freight;
use entry_table::{Entries, Pass};
use queue_model::{DraftWord, Node, WordName};

/// The next row behind a node that is not deleted when it is looked at, as `step_behind`. The list of a node
/// that is a row is looked up.
pub fn step_over<C: Freight>(entries: &Entries<C>, pass: &mut Pass, at: Node) -> Option<u64>
    requires table { IsPassOf entries.now pass.old }
    requires known { IsKnown (state pass.old) at }
    ensures kept { Kept pass.old pass.new }
    ensures steps { StepsOver pass.old pass.new (list_at_node (state pass.old) at) (stop_at at) result }
{
    match at {
        Node::Head(list) => step_behind(entries, pass, list, 0),
        Node::Row(row) => {
            let list = list_of(entries, pass, row);
            step_behind(entries, pass, list, row + 1)
        }
    }
}

/// The list of a row.
pub(crate) fn list_of<C: Freight>(entries: &Entries<C>, pass: &mut Pass, row: u64) -> u32
    requires table { IsPassOf entries.now pass.old }
    requires known { (x : Row) × (row_at (state pass.old) row ≡ Some x) }
    ensures kept { Kept pass.old pass.new }
    ensures looks { LooksUp pass.old pass.new }
    ensures there { IsOfList (state pass.new) result row }
    ensures low { result < entries.now.shape.lists }
{
    let word = DraftWord::List;
    entries.look(pass, WordName::Draft { row, word }) as u32
}
