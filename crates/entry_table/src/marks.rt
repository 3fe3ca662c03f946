//! Steps on the marks and the counts of lists.
ghost use Rattle.std.specs.Prelude.{◌≡◌, ℕ, ◌<◌, ◌+◌, ◌%◌, ◌^◌, [], ◌∷◌, ◌++◌, max};
ghost use Rattle.queue_model.specs.declared.steps.Step.TheVariants as steps;
ghost use Rattle.entry_table.specs.Views.{rest_of, state_in, entry};
ghost use Rattle.entry_table.specs.Marks.{HasPlace, stepped};
ghost use Rattle.entry_table.specs.Passes.{IsPassOf, Kept, KeepsRights, Did, state, shown, seen};
ghost use Rattle.entry_table.specs.Skips.{watched};

use crate::entries::Entries;
use crate::pass::Pass;
use crate::view::View;
use acts_core::Freight;
use atomic_table::{Badge, Play, Seat};
use link_core::places::{count_place, mark_place};
use std::marker::{Brand, PhantomData};
use std::mem;

/// The list of a mark or of a count, and the place to which the mark is raised. Each call picks them.
pub trait Noting {
    ghost along: { ℕ };

    ghost place: { ℕ };
}

impl Noting for Brand {
    ghost along = { 0 };

    ghost place = { 0 };
}

/// A mark that is raised.
pub struct Raises<J> {
    place: PhantomData<J>,
}

impl<C, J: Noting> Play<Option<C>, View> for Raises<J> {
    ghost use Rattle.queue_model.specs.declared.steps.Step.TheVariants.{Mark};

    ghost then = { λ st m n. stepped (Mark J.along J.place) (max n st.first) m n };
}

/// A count that goes up by one.
pub struct Tallies<J> {
    list: PhantomData<J>,
}

impl<C, J: Noting> Play<Option<C>, View> for Tallies<J> {
    ghost use Rattle.queue_model.specs.declared.steps.Step.TheVariants.{Count};

    ghost then = { λ st m n. stepped (Count J.along) ((n + 1) % 2 ^ 64) m n };
}

/// A count that is set back.
pub struct Resets<J> {
    list: PhantomData<J>,
}

impl<C, J: Noting> Play<Option<C>, View> for Resets<J> {
    ghost use Rattle.queue_model.specs.declared.steps.Step.TheVariants.{Reset};

    ghost then = { λ st m n. stepped (Reset J.along) 0 m n };
}

impl<C: Freight> Entries<C> {
    /// Raises the mark of a list to the place of one of its rows, where that is greater.
    pub fn mark(&self, pass: &mut Pass, list: u32, place: u64)
        requires table { IsPassOf self.now pass.old }
        requires place { HasPlace (state pass.old) list place }
        ensures kept { Kept pass.old pass.new }
        ensures rights { KeepsRights pass.old pass.new }
        ensures did { Did pass.old pass.new [] }
        ensures watched { watched pass.new ≡ watched pass.old }
        ensures shown { (n : ℕ) × (shown pass.new ≡ shown pass.old
            ++ entry (steps.Mark list place) n (max n place) (seen pass.new) ∷ []) }
    {
        let mut seat = mem::replace(&mut pass.badge, Badge::blank()).into_seat::<Option<C>>();
        self.mark_at::<Brand>(&mut seat, list, place, pass.caller);
        pass.badge = seat.into_badge();
    }

    fn mark_at<J: Noting>(
        &self,
        seat: &mut Seat<Option<C>, View>,
        list: u32,
        place: u64,
        caller: u64,
    ) -> u64
        requires picked { (J.along ≡ list) × (J.place ≡ place) }
        requires table { seat.old.table_id ≡ self.now.table.shared.table_id }
        requires caller { seat.old.me.0.callers ≡ caller ∷ rest_of seat.old.me.0.callers }
        requires list { list < self.now.shape.lists }
        requires place { HasPlace (state_in seat.old.me.0) list place }
        ensures table { (seat.new.table_id ≡ seat.old.table_id) × (seat.new.id ≡ seat.old.id) }
        ensures told { stepped (steps.Mark list place) (max result place) seat.old.me result
            seat.new.me }
    {
        let _caller = caller;
        let word = mark_place(self.shape.rows, list);
        self.table.shared.fetch_max::<Raises<J>>(seat, word, place)
    }

    /// Adds one to the count of a list, and answers what it was. Behind the greatest number it begins again
    /// at 0.
    pub fn count(&self, pass: &mut Pass, list: u32) -> u64
        requires table { IsPassOf self.now pass.old }
        requires list { list < self.now.shape.lists }
        ensures kept { Kept pass.old pass.new }
        ensures rights { KeepsRights pass.old pass.new }
        ensures did { Did pass.old pass.new [] }
        ensures watched { watched pass.new ≡ watched pass.old }
        ensures shown { shown pass.new ≡ shown pass.old
            ++ entry (steps.Count list) result ((result + 1) % 2 ^ 64) (seen pass.new) ∷ [] }
    {
        let mut seat = mem::replace(&mut pass.badge, Badge::blank()).into_seat::<Option<C>>();
        let found = self.count_at::<Brand>(&mut seat, list, pass.caller);
        pass.badge = seat.into_badge();
        found
    }

    fn count_at<J: Noting>(&self, seat: &mut Seat<Option<C>, View>, list: u32, caller: u64) -> u64
        requires picked { J.along ≡ list }
        requires table { seat.old.table_id ≡ self.now.table.shared.table_id }
        requires caller { seat.old.me.0.callers ≡ caller ∷ rest_of seat.old.me.0.callers }
        requires list { list < self.now.shape.lists }
        ensures table { (seat.new.table_id ≡ seat.old.table_id) × (seat.new.id ≡ seat.old.id) }
        ensures told { stepped (steps.Count list) ((result + 1) % 2 ^ 64) seat.old.me result
            seat.new.me }
    {
        let _caller = caller;
        let word = count_place(self.shape.rows, list);
        self.table.shared.fetch_add::<Tallies<J>>(seat, word, 1)
    }

    /// Sets the count of a list back to 0, and answers what it was.
    pub fn reset(&self, pass: &mut Pass, list: u32) -> u64
        requires table { IsPassOf self.now pass.old }
        requires list { list < self.now.shape.lists }
        ensures kept { Kept pass.old pass.new }
        ensures rights { KeepsRights pass.old pass.new }
        ensures did { Did pass.old pass.new [] }
        ensures watched { watched pass.new ≡ watched pass.old }
        ensures shown { shown pass.new ≡ shown pass.old
            ++ entry (steps.Reset list) result 0 (seen pass.new) ∷ [] }
    {
        let mut seat = mem::replace(&mut pass.badge, Badge::blank()).into_seat::<Option<C>>();
        let found = self.reset_at::<Brand>(&mut seat, list, pass.caller);
        pass.badge = seat.into_badge();
        found
    }

    fn reset_at<J: Noting>(&self, seat: &mut Seat<Option<C>, View>, list: u32, caller: u64) -> u64
        requires picked { J.along ≡ list }
        requires table { seat.old.table_id ≡ self.now.table.shared.table_id }
        requires caller { seat.old.me.0.callers ≡ caller ∷ rest_of seat.old.me.0.callers }
        requires list { list < self.now.shape.lists }
        ensures table { (seat.new.table_id ≡ seat.old.table_id) × (seat.new.id ≡ seat.old.id) }
        ensures told { stepped (steps.Reset list) 0 seat.old.me result seat.new.me }
    {
        let _caller = caller;
        let word = count_place(self.shape.rows, list);
        self.table.shared.swap::<Resets<J>>(seat, word, 0)
    }
}
