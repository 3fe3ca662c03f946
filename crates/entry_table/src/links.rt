//! Links of rows.
ghost use Rattle.std.specs.Prelude.{◌≡◌, ◌<◌, [], ◌∷◌, None};
ghost use Rattle.queue_model.specs.Table.{most_entries};
ghost use Rattle.link_core.specs.Layout.{link_of};
ghost use Rattle.entry_table.specs.Views.{rest_of, state_in};
ghost use Rattle.entry_table.specs.Plays.{linking, CanLink, LinkAnswer, LinkReady, AfterCall, Within};
ghost use Rattle.entry_table.specs.Passes.{IsPassOf, Kept, view, allowance, share};

use crate::draft::{Draft, Linking};
use crate::entries::Entries;
use crate::pass::Pass;
use crate::plays::{Links, Placing};
use crate::view::View;
use acts_core::Freight;
use atomic_table::{Badge, Seat};
use link_core::places::link_place;
use queue_model::Node;
use std::marker::Brand;
use std::mem;

impl<C: Freight> Entries<C> {
    /// Links a row that the pass drew behind a node, where the node's link is empty.
    pub fn try_link(&self, pass: &mut Pass, draft: Draft<C>, after: Node) -> Linking<C>
        requires table { IsPassOf self.now pass.old }
        requires draft { CanLink C.goods (view pass.old) pass.old.caller draft after }
        ensures kept { Kept pass.old pass.new }
        ensures rights { (allowance pass.new ≡ allowance pass.old)
            × (share pass.new ≡ share pass.old) }
        ensures answer { LinkAnswer C.goods after draft (view pass.old) (view pass.new) result }
    {
        let mut seat = mem::replace(&mut pass.badge, Badge::blank()).into_seat::<Option<C>>();
        let answer = self.link_at(&mut seat, draft, after, pass.caller);
        pass.badge = seat.into_badge();
        answer
    }

    fn link_at(
        &self,
        seat: &mut Seat<Option<C>, View>,
        draft: Draft<C>,
        after: Node,
        caller: u64,
    ) -> Linking<C>
        requires table { (seat.old.table_id ≡ self.now.table.shared.table_id)
            × (seat.old.me.0.shape ≡ self.now.shape) }
        requires caller { seat.old.me.0.callers ≡ caller ∷ rest_of seat.old.me.0.callers }
        requires idle { (seat.old.me.1 ≡ []) × (seat.old.me.0.slot ≡ None) }
        requires within { Within seat.old.me.0.shape (state_in seat.old.me.0) }
        requires draft { CanLink C.goods seat.old.me.0 caller draft after }
        ensures table { (seat.new.table_id ≡ seat.old.table_id)
            × (seat.new.id ≡ seat.old.id)
            × (seat.new.me.1 ≡ []) }
        ensures answer { LinkAnswer C.goods after draft seat.old.me.0 seat.new.me.0 result }
        ensures after { AfterCall seat.old.me.0 seat.new.me.0 }
    {
        let Draft { row, cargo } = draft;
        self.put_in(seat, row, cargo, caller);
        let found = self.link_word::<Brand>(seat, row, after, caller);
        if found == 0 {
            Linking::Linked
        } else {
            let cargo = self.take_out(seat, row, caller);
            Linking::Behind(found, Draft { row, cargo })
        }
    }

    // The exchange alone.
    fn link_word<J: Placing>(
        &self,
        seat: &mut Seat<Option<C>, View>,
        row: u64,
        after: Node,
        caller: u64,
    ) -> u64
        requires picked { (J.number ≡ row) × (J.behind ≡ after) }
        requires table { seat.old.table_id ≡ self.now.table.shared.table_id }
        requires caller { seat.old.me.0.callers ≡ caller ∷ rest_of seat.old.me.0.callers }
        requires place { (link_of self.now.shape.rows after < self.now.table.shared.table_id.words)
            × (row < most_entries) }
        requires ready { LinkReady C.goods seat.old.me caller row after }
        ensures table { (seat.new.table_id ≡ seat.old.table_id) × (seat.new.id ≡ seat.old.id) }
        ensures told { linking C.goods row after seat.old.me result seat.new.me }
    {
        let _caller = caller;
        let place = link_place(self.shape.rows, after);
        self.table
            .shared
            .compare_exchange::<Links<C, J>>(seat, place, 0, row + 1)
    }
}
