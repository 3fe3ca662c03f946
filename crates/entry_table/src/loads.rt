//! Loads of words.
ghost use Rattle.std.specs.Prelude.{◌≡◌, [], ◌∷◌, ◌++◌};
ghost use Rattle.queue_model.specs.declared.steps.Step.TheVariants as steps;
ghost use Rattle.entry_table.specs.Views.{rest_of, entry};
ghost use Rattle.entry_table.specs.Plays.{Shows, looked};
ghost use Rattle.entry_table.specs.Skips.{watched};
ghost use Rattle.entry_table.specs.Passes.{IsPassOf, Kept, Did, HasWord, state, shown, seen, KeepsRights};

use crate::entries::Entries;
use crate::pass::Pass;
use crate::plays::{Looks, Trying};
use crate::view::View;
use acts_core::Freight;
use atomic_table::{Badge, Seat};
use link_core::places::word_place;
use queue_model::WordName;
use std::marker::Brand;
use std::mem;

impl<C: Freight> Entries<C> {
    /// What a word holds.
    #[inline(always)]
    pub fn look(&self, pass: &mut Pass, word: WordName) -> u64
        requires table { IsPassOf self.now pass.old }
        requires word { HasWord self.now.shape word }
        ensures kept { Kept pass.old pass.new }
        ensures rights { KeepsRights pass.old pass.new }
        ensures did { Did pass.old pass.new [] }
        ensures watched { watched pass.new ≡ watched pass.old }
        ensures shows { Shows (steps.Load word) result (state pass.new) }
        ensures shown { shown pass.new ≡ shown pass.old
            ++ entry (steps.Load word) result result (seen pass.new) ∷ [] }
    {
        let mut seat = mem::replace(&mut pass.badge, Badge::blank()).into_seat::<Option<C>>();
        let found = self.look_at::<Brand>(&mut seat, word, pass.caller);
        pass.badge = seat.into_badge();
        found
    }

    #[inline(always)]
    fn look_at<J: Trying>(
        &self,
        seat: &mut Seat<Option<C>, View>,
        word: WordName,
        caller: u64,
    ) -> u64
        requires step { J.step ≡ steps.Load word }
        requires table { seat.old.table_id ≡ self.now.table.shared.table_id }
        requires caller { seat.old.me.0.callers ≡ caller ∷ rest_of seat.old.me.0.callers }
        requires word { HasWord self.now.shape word }
        ensures table { (seat.new.table_id ≡ seat.old.table_id) × (seat.new.id ≡ seat.old.id) }
        ensures told { looked (steps.Load word) seat.old.me result seat.new.me }
    {
        let _caller = caller;
        let place = word_place(self.shape.rows, word);
        self.table.shared.load::<Looks<J>>(seat, place)
    }
}
