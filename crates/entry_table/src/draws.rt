//! Rows that are drawn, and their draft words.
ghost use Rattle.std.specs.Prelude.{◌≡◌, ◌≤◌, ◌<◌, ◌+◌, [], ◌∷◌, None};
ghost use Rattle.queue_model.specs.Table.{most_entries};
ghost use Rattle.link_core.specs.Layout.{draft_of};
ghost use Rattle.entry_table.specs.Views.{rest_of};
ghost use Rattle.entry_table.specs.Plays.{draws, stored, stored_view, DidDraw, DrawAnswer, IsDrawnBy, Went};
ghost use Rattle.entry_table.specs.Passes.{IsPassOf, Kept, Did, view, shown, seen, allowance, share};
ghost use Rattle.entry_table.specs.Tries.{tries};

use crate::draft::{Draft, Drawn};
use crate::entries::Entries;
use crate::pass::Pass;
use crate::plays::{Draws, Stores, Storing};
use crate::view::View;
use acts_core::Freight;
use atomic_table::{Badge, Seat};
use link_core::places::{TOP, draft_place};
use queue_model::DraftWord;
use std::marker::Brand;
use std::mem;

impl<C: Freight> Entries<C> {
    /// Draws the next row that nobody drew, for this cargo, and takes one from the pass's share. It is `Spent`
    /// exactly where the share is 0. Where another drew first it tries again, in all at most once a row.
    pub fn draw_row(&self, pass: &mut Pass, cargo: C) -> Drawn<C>
        requires table { IsPassOf self.now pass.old }
        ensures kept { Kept pass.old pass.new }
        ensures answer { DrawAnswer (view pass.old) (view pass.new) cargo result }
        ensures tries { tries (shown pass.new) ≤ tries (shown pass.old) + self.now.shape.rows }
    {
        if pass.share == 0 {
            return Drawn::Spent(cargo);
        }
        let mut seat = mem::replace(&mut pass.badge, Badge::blank()).into_seat::<Option<C>>();
        let row = self.draw_at(&mut seat, pass.top, pass.caller);
        pass.badge = seat.into_badge();
        pass.share -= 1;
        pass.top = row + 1;
        Drawn::Row(Draft { row, cargo })
    }

    // Tries from the row `top` on, which was drawn if it is behind others.
    fn draw_at(&self, seat: &mut Seat<Option<C>, View>, top: u64, caller: u64) -> u64
        requires table { seat.old.table_id ≡ self.now.table.shared.table_id }
        requires shape { seat.old.me.0.shape ≡ self.now.shape }
        requires caller { seat.old.me.0.callers ≡ caller ∷ rest_of seat.old.me.0.callers }
        requires idle { seat.old.me.0.slot ≡ None }
        requires room { 1 ≤ seat.old.me.0.share }
        requires top { (top ≤ seat.old.me.0.reached)
            × (seat.old.me.0.reached ≤ seat.old.me.0.shape.rows) }
        ensures table { (seat.new.table_id ≡ seat.old.table_id) × (seat.new.id ≡ seat.old.id) }
        ensures carried { seat.new.me.1 ≡ seat.old.me.1 }
        ensures drew { DidDraw seat.old.me.0 seat.new.me.0 result }
    {
        let mut row = top;
        'tries: loop {
            let found = self.draw_word(seat, row, caller);
            if found == row {
                return row;
            }
            row = found;
        }
    }

    // The exchange alone.
    fn draw_word(&self, seat: &mut Seat<Option<C>, View>, row: u64, caller: u64) -> u64
        requires table { seat.old.table_id ≡ self.now.table.shared.table_id }
        requires caller { seat.old.me.0.callers ≡ caller ∷ rest_of seat.old.me.0.callers }
        requires idle { seat.old.me.0.slot ≡ None }
        requires room { 1 ≤ seat.old.me.0.share }
        requires low { row ≤ most_entries }
        ensures table { (seat.new.table_id ≡ seat.old.table_id) × (seat.new.id ≡ seat.old.id) }
        ensures told { draws row seat.old.me result seat.new.me }
    {
        let _caller = caller;
        self.table
            .shared
            .compare_exchange::<Draws>(seat, TOP, row, row + 1)
    }

    /// Stores a draft word of a row that the pass drew.
    pub fn store_draft(&self, pass: &mut Pass, draft: &mut Draft<C>, word: DraftWord, value: u64)
        requires table { IsPassOf self.now pass.old }
        requires draft { IsDrawnBy (view pass.old) draft.old.row }
        ensures kept { Kept pass.old pass.new }
        ensures same { (draft.new.row ≡ draft.old.row) × (draft.new.cargo ≡ draft.old.cargo) }
        ensures did { Did pass.old pass.new [] }
        ensures went { Went (view pass.old) (view pass.new) [] }
        ensures view { view pass.new
            ≡ stored_view (view pass.old) draft.old.row word value (seen pass.new) }
    {
        let mut seat = mem::replace(&mut pass.badge, Badge::blank()).into_seat::<Option<C>>();
        self.store_at::<Brand>(&mut seat, draft.row, word, value, pass.caller);
        pass.badge = seat.into_badge();
    }

    // The store alone.
    fn store_at<J: Storing>(
        &self,
        seat: &mut Seat<Option<C>, View>,
        row: u64,
        word: DraftWord,
        value: u64,
        caller: u64,
    )
        requires picked { (J.target ≡ row) × (J.part ≡ word) × (J.value ≡ value) }
        requires table { seat.old.table_id ≡ self.now.table.shared.table_id }
        requires shape { seat.old.me.0.shape ≡ self.now.shape }
        requires caller { seat.old.me.0.callers ≡ caller ∷ rest_of seat.old.me.0.callers }
        requires idle { seat.old.me.0.slot ≡ None }
        requires draft { IsDrawnBy seat.old.me.0 row }
        ensures table { (seat.new.table_id ≡ seat.old.table_id) × (seat.new.id ≡ seat.old.id) }
        ensures told { stored row word value seat.old.me seat.new.me }
    {
        let _caller = caller;
        let place = draft_place(row, word);
        self.table.shared.store::<Stores<J>>(seat, place, value);
    }
}
