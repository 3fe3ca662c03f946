//! Help of tails.
ghost use Rattle.std.specs.Prelude.{◌≡◌, ℕ, ◌<◌, ◌^◌, ◌==◌, [], ◌∷◌, ◌++◌, None};
ghost use Rattle.queue_model.specs.declared.steps.Step.TheVariants as steps;
ghost use Rattle.queue_model.specs.Packing.{pack_node};
ghost use Rattle.entry_table.specs.Views.{rest_of, state_in, entry};
ghost use Rattle.entry_table.specs.Helps.{HelpableTo, helped, tail_after};
ghost use Rattle.entry_table.specs.Passes.{IsPassOf, Kept, Did, state, shown, seen, KeepsRights};

use crate::entries::Entries;
use crate::pass::Pass;
use crate::view::View;
use acts_core::Freight;
use atomic_table::{Badge, Play, Seat};
use link_core::places::{node_word, tail_place};
use queue_model::Node;
use std::marker::{Brand, PhantomData};
use std::mem;

/// The list of a tail, and the nodes between which it moves. Each call picks them.
pub trait Advancing {
    ghost use Rattle.queue_model.specs.declared.steps.Node.{Node};

    ghost along: { ℕ };

    ghost source: { Node };

    ghost target: { Node };
}

impl Advancing for Brand {
    ghost use Rattle.queue_model.specs.declared.steps.Node.TheVariants.{Head};

    ghost along = { 0 };

    ghost source = { Head 0 };

    ghost target = { Head 0 };
}

/// An exchange of a tail.
pub struct Helps<J> {
    nodes: PhantomData<J>,
}

impl<C, J: Advancing> Play<Option<C>, View> for Helps<J> {
    ghost then = { λ st. helped J.along J.source J.target };
}

impl<C: Freight> Entries<C> {
    /// Moves the tail of a list on from a node to a later row of the list that the pass knows, and tells
    /// whether the tail was that node. Else nothing changes.
    pub fn help_tail(&self, pass: &mut Pass, list: u32, from: Node, to: Node) -> bool
        requires table { IsPassOf self.now pass.old }
        requires helpable { HelpableTo (state pass.old) list from to }
        ensures kept { Kept pass.old pass.new }
        ensures rights { KeepsRights pass.old pass.new }
        ensures did { Did pass.old pass.new [] }
        ensures shown { (n : ℕ) × (result ≡ (n == pack_node from))
            × (shown pass.new ≡ shown pass.old
            ++ entry (steps.HelpTail list from to) n (tail_after n from to) (seen pass.new) ∷ []) }
    {
        let mut seat = mem::replace(&mut pass.badge, Badge::blank()).into_seat::<Option<C>>();
        let found = self.help_at::<Brand>(&mut seat, list, from, to, pass.caller);
        pass.badge = seat.into_badge();
        found == node_word(from)
    }

    // The exchange alone.
    fn help_at<J: Advancing>(
        &self,
        seat: &mut Seat<Option<C>, View>,
        list: u32,
        from: Node,
        to: Node,
        caller: u64,
    ) -> u64
        requires picked { (J.along ≡ list) × (J.source ≡ from) × (J.target ≡ to) }
        requires table { seat.old.table_id ≡ self.now.table.shared.table_id }
        requires caller { seat.old.me.0.callers ≡ caller ∷ rest_of seat.old.me.0.callers }
        requires idle { seat.old.me.0.slot ≡ None }
        requires list { list < self.now.shape.lists }
        requires small { (pack_node from < 2 ^ 64) × (pack_node to < 2 ^ 64) }
        requires helpable { HelpableTo (state_in seat.old.me.0) list from to }
        ensures table { (seat.new.table_id ≡ seat.old.table_id) × (seat.new.id ≡ seat.old.id) }
        ensures told { helped list from to seat.old.me result seat.new.me }
    {
        let _caller = caller;
        self.table.shared.compare_exchange::<Helps<J>>(
            seat,
            tail_place(self.shape.rows, list),
            node_word(from),
            node_word(to),
        )
    }
}
