//! Steps along the links of a list.
ghost use Rattle.std.specs.Prelude.{◌≡◌, ◌<◌, IfSome, [], ◌∷◌, ◌++◌};
ghost use Rattle.queue_model.specs.declared.steps.Step.TheVariants as steps;
ghost use Rattle.queue_model.specs.declared.steps.WordName.TheVariants as names;
ghost use Rattle.queue_model.specs.State.{place_at};
ghost use Rattle.acts_core.specs.Walks.{IsStop, FollowsTo, node_at};
ghost use Rattle.entry_table.specs.Skips.{link_word, watched};
ghost use Rattle.entry_table.specs.Passes.{IsPassOf, Kept, Did, state, shown, seen};
ghost use Rattle.entry_table.specs.Sights.{sight};
ghost use Rattle.entry_table.specs.Views.{entry};

use crate::entries::Entries;
use crate::pass::Pass;
use acts_core::Freight;
use queue_model::{Node, WordName};

/// The node of a stop: 0 stands for the head of the list, and another number for the row before it.
pub fn node_of(list: u32, stop: u64) -> Node
    ensures { result ≡ node_at list stop }
{
    if stop == 0 {
        Node::Head(list)
    } else {
        Node::Row(stop - 1)
    }
}

impl<C: Freight> Entries<C> {
    /// The row that the link behind a stop of a list names, as the only step; none where it is empty. A stop
    /// is 0 for the head of the list, and a number more than a row's for that row. No row is skipped but
    /// deleted ones.
    pub fn follow(&self, pass: &mut Pass, list: u32, stop: u64) -> Option<u64>
        requires table { IsPassOf self.now pass.old }
        requires list { list < self.now.shape.lists }
        requires stop { IsStop (state pass.old) list stop }
        ensures kept { Kept pass.old pass.new }
        ensures did { Did pass.old pass.new [] }
        ensures watched { watched pass.new ≡ watched pass.old }
        ensures follows { FollowsTo (sight pass.old) (sight pass.new) list stop result }
        ensures shown { shown pass.new ≡ shown pass.old
            ++ entry (steps.Load (names.Link (node_at list stop))) (link_word result)
            (link_word result) (seen pass.new) ∷ [] }
        ensures low { IfSome result (λ row.
            (row < self.now.shape.rows)
            × (place_at (state pass.new) row < self.now.shape.rows)) }
    {
        let node = node_of(list, stop);
        let word = self.look(pass, WordName::Link(node));
        if word == 0 { None } else { Some(word - 1) }
    }
}
