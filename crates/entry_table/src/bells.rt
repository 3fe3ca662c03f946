//! Steps on the bells of consumers.
ghost use Rattle.std.specs.Prelude.{◌≡◌, ℕ, ◌<◌, IfSome, [], ◌∷◌, Some, None};
ghost use mathlib.Core.List.{Mem};
ghost use Rattle.queue_model.specs.declared.deeds.Act.TheVariants as acts;
ghost use Rattle.queue_model.specs.declared.rows.Row.{Row};
ghost use Rattle.queue_model.specs.declared.steps.Step.TheVariants as steps;
ghost use Rattle.queue_model.specs.State.{row_at, list_at, place_at};
ghost use Rattle.acts_core.specs.Walks.{IsOfList};
ghost use Rattle.entry_table.specs.Bells.{at_bell, ActsAtBell, RingsBell, TakesBell};
ghost use Rattle.entry_table.specs.Passes.{IsPassOf, Kept, KeepsRights, Did, consumers, state, view};
ghost use Rattle.entry_table.specs.Skips.{watched};
ghost use Rattle.entry_table.specs.Views.{rest_of, state_in};

use crate::entries::Entries;
use crate::pass::Pass;
use crate::view::View;
use acts_core::Freight;
use atomic_table::{Badge, Play, Seat};
use link_core::places::{LIST_BELLS, bell_place, bell_row};
use queue_model::{DraftWord, NO_BELL, PLACE_WORTH, WordName};
use std::marker::{Brand, PhantomData};
use std::mem;

/// The bell of a consumer at a list, and the row that it is rung for. Each call picks them.
pub trait Belling {
    ghost consumer: { ℕ };

    ghost along: { ℕ };

    ghost number: { ℕ };
}

impl Belling for Brand {
    ghost consumer = { 0 };

    ghost along = { 0 };

    ghost number = { 0 };
}

/// A bell that is rung.
pub struct Rings<J> {
    bell: PhantomData<J>,
}

impl<C, J: Belling> Play<Option<C>, View> for Rings<J> {
    ghost use Rattle.queue_model.specs.declared.deeds.Act.TheVariants.{Bell};
    ghost use Rattle.queue_model.specs.declared.steps.Step.TheVariants.{Ring};

    ghost then = { λ st. at_bell (Ring J.consumer J.number) (Bell J.number J.consumer)
        J.consumer J.along };
}

/// A bell that is taken.
pub struct Silences<J> {
    bell: PhantomData<J>,
}

impl<C, J: Belling> Play<Option<C>, View> for Silences<J> {
    ghost use Rattle.queue_model.specs.declared.deeds.Act.TheVariants.{Take};
    ghost use Rattle.queue_model.specs.declared.steps.Step.TheVariants.{TakeBell};

    ghost then = { λ st. at_bell (TakeBell J.consumer J.along) (Take J.consumer J.along)
        J.consumer J.along };
}

impl<C: Freight> Entries<C> {
    /// Rings the bell of a consumer for a row, at the row's list: of the row that it was rung for before, if
    /// any, and this one the earlier stands.
    pub fn ring(&self, pass: &mut Pass, consumer: u32, row: u64)
        requires table { IsPassOf self.now pass.old }
        requires consumer { consumer < self.now.shape.consumers }
        requires known { (x : Row) × (row_at (state pass.old) row ≡ Some x) }
        ensures kept { Kept pass.old pass.new }
        ensures rights { KeepsRights pass.old pass.new }
        ensures did { Did pass.old pass.new (acts.Bell row consumer ∷ []) }
        ensures watched { watched pass.new ≡ watched pass.old }
        ensures rings { RingsBell pass.old.caller (view pass.old) (view pass.new) consumer row }
    {
        let list = self.look(
            pass,
            WordName::Draft {
                row,
                word: DraftWord::List,
            },
        );
        let place = self.look(
            pass,
            WordName::Draft {
                row,
                word: DraftWord::Place,
            },
        );
        self.ring_in(pass, consumer, row, list as u32, place);
    }

    // The ring alone, for a row of this list at this place.
    fn ring_in(&self, pass: &mut Pass, consumer: u32, row: u64, list: u32, place: u64)
        requires table { IsPassOf self.now pass.old }
        requires consumer { consumer < self.now.shape.consumers }
        requires known { (x : Row) × (row_at (state pass.old) row ≡ Some x) }
        requires list { list ≡ list_at (state pass.old) row }
        requires place { place ≡ place_at (state pass.old) row }
        ensures kept { Kept pass.old pass.new }
        ensures rights { KeepsRights pass.old pass.new }
        ensures did { Did pass.old pass.new (acts.Bell row consumer ∷ []) }
        ensures watched { watched pass.new ≡ watched pass.old }
        ensures rings { ActsAtBell pass.old.caller (view pass.old) (view pass.new)
            (steps.Ring consumer row) (acts.Bell row consumer) consumer list }
    {
        let mut seat = mem::replace(&mut pass.badge, Badge::blank()).into_seat::<Option<C>>();
        self.ring_at::<Brand>(&mut seat, consumer, row, list, place, pass.caller);
        pass.badge = seat.into_badge();
    }

    fn ring_at<J: Belling>(
        &self,
        seat: &mut Seat<Option<C>, View>,
        consumer: u32,
        row: u64,
        list: u32,
        place: u64,
        caller: u64,
    ) -> u64
        requires picked { (J.consumer ≡ consumer) × (J.along ≡ list) × (J.number ≡ row) }
        requires table { seat.old.table_id ≡ self.now.table.shared.table_id }
        requires caller { seat.old.me.0.callers ≡ caller ∷ rest_of seat.old.me.0.callers }
        requires idle { seat.old.me.0.slot ≡ None }
        requires consumer { consumer < self.now.shape.consumers }
        requires known { (x : Row) × (row_at (state_in seat.old.me.0) row ≡ Some x) }
        requires list { list ≡ list_at (state_in seat.old.me.0) row }
        requires place { place ≡ place_at (state_in seat.old.me.0) row }
        requires low { (list < self.now.shape.lists)
            × (place < self.now.shape.rows)
            × (row < self.now.shape.rows) }
        ensures table { (seat.new.table_id ≡ seat.old.table_id) × (seat.new.id ≡ seat.old.id) }
        ensures told { at_bell (steps.Ring consumer row) (acts.Bell row consumer) consumer list
            seat.old.me result seat.new.me }
        ensures rings { ActsAtBell caller seat.old.me.0 seat.new.me.0 (steps.Ring consumer row)
            (acts.Bell row consumer) consumer list }
    {
        let _caller = caller;
        let word = bell_place(self.shape.rows, list, consumer);
        self.table
            .shared
            .fetch_min::<Rings<J>>(seat, word, place * PLACE_WORTH + row)
    }

    /// Takes the bell of a consumer at a list, and answers the earliest row that it was rung for since it was
    /// taken last, if any.
    pub fn take_bell(&self, pass: &mut Pass, consumer: u32, list: u32) -> Option<u64>
        requires table { IsPassOf self.now pass.old }
        requires consumer { Mem consumer (consumers pass.old) }
        requires list { list < self.now.shape.lists }
        ensures kept { Kept pass.old pass.new }
        ensures rights { KeepsRights pass.old pass.new }
        ensures did { Did pass.old pass.new (acts.Take consumer list ∷ []) }
        ensures watched { watched pass.new ≡ watched pass.old }
        ensures takes { TakesBell pass.old.caller (view pass.old) (view pass.new) consumer list
            result }
        ensures there { IfSome result (λ row. IsOfList (state pass.new) list row) }
        ensures low { IfSome result (λ row.
            (row < self.now.shape.rows)
            × (place_at (state pass.new) row < self.now.shape.rows)) }
    {
        let mut seat = mem::replace(&mut pass.badge, Badge::blank()).into_seat::<Option<C>>();
        let row = self.silence(&mut seat, consumer, list, pass.caller);
        pass.badge = seat.into_badge();
        row
    }

    // The row of the bell that is taken.
    fn silence(
        &self,
        seat: &mut Seat<Option<C>, View>,
        consumer: u32,
        list: u32,
        caller: u64,
    ) -> Option<u64>
        requires table { seat.old.table_id ≡ self.now.table.shared.table_id }
        requires shape { seat.old.me.0.shape ≡ self.now.shape }
        requires caller { seat.old.me.0.callers ≡ caller ∷ rest_of seat.old.me.0.callers }
        requires idle { seat.old.me.0.slot ≡ None }
        requires consumer { Mem consumer seat.old.me.0.consumers }
        requires list { list < self.now.shape.lists }
        ensures table { (seat.new.table_id ≡ seat.old.table_id) × (seat.new.id ≡ seat.old.id) }
        ensures told { (n : ℕ) × at_bell (steps.TakeBell consumer list) (acts.Take consumer list)
            consumer list seat.old.me n seat.new.me }
        ensures takes { TakesBell caller seat.old.me.0 seat.new.me.0 consumer list result }
        ensures there { IfSome result (λ row. IsOfList (state_in seat.new.me.0) list row) }
        ensures low { IfSome result (λ row.
            (row < self.now.shape.rows)
            × (place_at (state_in seat.new.me.0) row < self.now.shape.rows)) }
    {
        let found = self.silence_at::<Brand>(seat, consumer, list, caller);
        bell_row(found)
    }

    fn silence_at<J: Belling>(
        &self,
        seat: &mut Seat<Option<C>, View>,
        consumer: u32,
        list: u32,
        caller: u64,
    ) -> u64
        requires picked { (J.consumer ≡ consumer) × (J.along ≡ list) }
        requires table { seat.old.table_id ≡ self.now.table.shared.table_id }
        requires caller { seat.old.me.0.callers ≡ caller ∷ rest_of seat.old.me.0.callers }
        requires idle { seat.old.me.0.slot ≡ None }
        requires consumer { Mem consumer seat.old.me.0.consumers }
        requires list { list < self.now.shape.lists }
        ensures table { (seat.new.table_id ≡ seat.old.table_id) × (seat.new.id ≡ seat.old.id) }
        ensures told { at_bell (steps.TakeBell consumer list) (acts.Take consumer list) consumer
            list seat.old.me result seat.new.me }
    {
        let _caller = caller;
        // The table has no more consumers than bells, so this is the consumer.
        let word = bell_place(self.shape.rows, list, consumer % LIST_BELLS);
        self.table.shared.swap::<Silences<J>>(seat, word, NO_BELL)
    }
}
