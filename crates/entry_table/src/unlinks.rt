//! Links that a pass watches, and links that skip deleted rows.
ghost use Rattle.std.specs.Prelude.{◌≡◌, ◌==◌, ◌+◌, ℕ, ◌<◌, IfSome, [], ◌∷◌};
ghost use Rattle.queue_model.specs.declared.steps.Step.TheVariants as steps;
ghost use Rattle.queue_model.specs.declared.steps.WordName.TheVariants as names;
ghost use Rattle.queue_model.specs.State.{place_at};
ghost use Rattle.acts_core.specs.Walks.{IsStop, FollowsTo, node_at};
ghost use Rattle.entry_table.specs.Views.{rest_of, state_in};
ghost use Rattle.entry_table.specs.Passes.{IsPassOf, Kept, KeepsRights, Did, state, view};
ghost use Rattle.entry_table.specs.Plays.{IsKnown, Within};
ghost use Rattle.entry_table.specs.Rule.{HasNode};
ghost use Rattle.entry_table.specs.Sights.{sight};
ghost use Rattle.entry_table.specs.Skips.{link_word, watching, Watching, Unlinkable, unlinking, Moves, Unlinks as DidUnlink};

use crate::entries::Entries;
use crate::follows::node_of;
use crate::pass::Pass;
use crate::view::View;
use acts_core::Freight;
use atomic_table::{Badge, Play, Seat};
use link_core::places::link_place;
use queue_model::Node;
use std::marker::{Brand, PhantomData};
use std::mem;

/// The node of a link, and the rows between which the link moves. Each call picks them.
pub trait Passing {
    ghost use Rattle.queue_model.specs.declared.steps.Node.{Node};

    ghost place: { Node };

    ghost source: { ℕ };

    ghost target: { ℕ };
}

impl Passing for Brand {
    ghost use Rattle.queue_model.specs.declared.steps.Node.TheVariants.{Head};

    ghost place = { Head 0 };

    ghost source = { 0 };

    ghost target = { 0 };
}

/// A load of a link that the pass watches from then on.
pub struct Watches<J> {
    node: PhantomData<J>,
}

impl<C, J: Passing> Play<Option<C>, View> for Watches<J> {
    ghost use Rattle.queue_model.specs.declared.steps.Step.TheVariants.{Load};
    ghost use Rattle.queue_model.specs.declared.steps.WordName.TheVariants.{Link};

    ghost then = { λ st. watching J.place (Load (Link J.place)) };
}

/// An exchange of a link.
pub struct Unlinks<J> {
    rows: PhantomData<J>,
}

impl<C, J: Passing> Play<Option<C>, View> for Unlinks<J> {
    ghost then = { λ st. unlinking J.place J.source J.target };
}

impl<C: Freight> Entries<C> {
    /// The row that the link behind a stop of a list names, as `follow`. The pass watches the link from then
    /// on: what it is shown of it later is that row, or a later one.
    pub fn watch(&self, pass: &mut Pass, list: u32, stop: u64) -> Option<u64>
        requires table { IsPassOf self.now pass.old }
        requires list { list < self.now.shape.lists }
        requires stop { IsStop (state pass.old) list stop }
        ensures kept { Kept pass.old pass.new }
        ensures did { Did pass.old pass.new [] }
        ensures follows { FollowsTo (sight pass.old) (sight pass.new) list stop result }
        ensures low { IfSome result (λ row.
            (row < self.now.shape.rows)
            × (place_at (state pass.new) row < self.now.shape.rows)) }
        ensures watching { Watching (view pass.old) (view pass.new) (node_at list stop)
            (steps.Load (names.Link (node_at list stop))) (link_word result) }
    {
        let word = self.watch_link(pass, list, stop);
        if word == 0 { None } else { Some(word - 1) }
    }

    // The word of the link.
    fn watch_link(&self, pass: &mut Pass, list: u32, stop: u64) -> u64
        requires table { IsPassOf self.now pass.old }
        requires list { list < self.now.shape.lists }
        requires stop { IsStop (state pass.old) list stop }
        ensures kept { Kept pass.old pass.new }
        ensures rights { KeepsRights pass.old pass.new }
        ensures did { Did pass.old pass.new [] }
        ensures watching { Watching (view pass.old) (view pass.new) (node_at list stop)
            (steps.Load (names.Link (node_at list stop))) result }
    {
        let node = node_of(list, stop);
        let mut seat = mem::replace(&mut pass.badge, Badge::blank()).into_seat::<Option<C>>();
        let word = self.watch_at::<Brand>(&mut seat, node, pass.caller);
        pass.badge = seat.into_badge();
        word
    }

    // The load alone.
    fn watch_at<J: Passing>(&self, seat: &mut Seat<Option<C>, View>, node: Node, caller: u64) -> u64
        requires picked { J.place ≡ node }
        requires table { seat.old.table_id ≡ self.now.table.shared.table_id }
        requires caller { seat.old.me.0.callers ≡ caller ∷ rest_of seat.old.me.0.callers }
        requires node { HasNode self.now.shape node }
        requires known { IsKnown (state_in seat.old.me.0) node }
        ensures table { (seat.new.table_id ≡ seat.old.table_id) × (seat.new.id ≡ seat.old.id) }
        ensures told { watching node (steps.Load (names.Link node)) seat.old.me result seat.new.me }
        ensures watching { Watching seat.old.me.0 seat.new.me.0 node
            (steps.Load (names.Link node)) result }
    {
        let _caller = caller;
        let place = link_place(self.shape.rows, node);
        self.table.shared.load::<Watches<J>>(seat, place)
    }

    /// Moves the link of a node from a deleted row on to a later row of its list, where each row between is
    /// deleted, and tells whether the link named the deleted row. Else nothing changes. The pass watches the
    /// link from then on.
    pub fn unlink(&self, pass: &mut Pass, at: Node, from: u64, to: u64) -> bool
        requires table { IsPassOf self.now pass.old }
        requires unlinkable { Unlinkable (state pass.old) at from to }
        ensures kept { Kept pass.old pass.new }
        ensures rights { KeepsRights pass.old pass.new }
        ensures did { Did pass.old pass.new [] }
        ensures unlinks { DidUnlink (view pass.old) (view pass.new) at from to result }
    {
        self.move_link(pass, at, from, to) == from + 1
    }

    /// The same, and answers the word that the link was: 0 for empty, and a number more than a row's for that
    /// row.
    pub fn move_link(&self, pass: &mut Pass, at: Node, from: u64, to: u64) -> u64
        requires table { IsPassOf self.now pass.old }
        requires unlinkable { Unlinkable (state pass.old) at from to }
        ensures kept { Kept pass.old pass.new }
        ensures rights { KeepsRights pass.old pass.new }
        ensures did { Did pass.old pass.new [] }
        ensures moves { Moves (view pass.old) (view pass.new) at from to result }
    {
        let mut seat = mem::replace(&mut pass.badge, Badge::blank()).into_seat::<Option<C>>();
        let found = self.unlink_at::<Brand>(&mut seat, at, from, to, pass.caller);
        pass.badge = seat.into_badge();
        found
    }

    // The exchange alone.
    fn unlink_at<J: Passing>(
        &self,
        seat: &mut Seat<Option<C>, View>,
        at: Node,
        from: u64,
        to: u64,
        caller: u64,
    ) -> u64
        requires picked { (J.place ≡ at) × (J.source ≡ from) × (J.target ≡ to) }
        requires table { seat.old.table_id ≡ self.now.table.shared.table_id }
        requires caller { seat.old.me.0.callers ≡ caller ∷ rest_of seat.old.me.0.callers }
        requires node { HasNode self.now.shape at }
        requires small { (from < self.now.shape.rows) × (to < self.now.shape.rows) }
        requires within { Within seat.old.me.0.shape (state_in seat.old.me.0) }
        requires unlinkable { Unlinkable (state_in seat.old.me.0) at from to }
        ensures table { (seat.new.table_id ≡ seat.old.table_id) × (seat.new.id ≡ seat.old.id) }
        ensures told { unlinking at from to seat.old.me result seat.new.me }
    {
        let _caller = caller;
        self.table
            .shared
            .compare_exchange::<Unlinks<J>>(seat, link_place(self.shape.rows, at), from + 1, to + 1)
    }
}
