//! Passes that are split off, joined and told.
ghost use Rattle.std.specs.Prelude.{◌≡◌, ◌<◌, ◌≤◌, ℕ, List, Some, [], ◌∷◌, false};
ghost use Rattle.history_lock.specs.Plays.{Cuts, cut_left, cut_right, note};
ghost use Rattle.history_lock.specs.Views.{Has};
ghost use Rattle.held_table.specs.Parts.{MayPart, IsSplit, IsJoined, IsMet};
ghost use Rattle.held_table.specs.Seats.{Parted, Merged, Told};
ghost use Rattle.held_table.specs.Sights.{Serves, sight};
ghost use Rattle.held_table.specs.Views.{not_in, outset_in, rest_of};

use crate::pass::HeldPass;
use crate::table::Held;
use crate::view::Outset;
use acts_core::{BareCore, Freight};
use atomic_table::{Badge, Seat};
use history_lock::{Portion, View};
use queue_model::Deed;
use std::marker::Brand;
use std::mem;
use std::sync::Wait;

impl<C: Freight, Q: BareCore<C>, R: Wait + Drop> Held<C, Q, R> {
    /// Splits the pass of a new caller off the boss's, with these of its consumers, and with so many entries that it
    /// may reserve and rows that it may draw.
    pub fn split(&self, boss: &mut HeldPass, consumers: &[u32], allowance: u64) -> HeldPass
        requires serves { Serves self.now boss.old }
        requires may { MayPart (sight boss.old) consumers.now allowance }
        ensures serves { Serves self.now boss.new × Serves self.now result }
        ensures split { IsSplit (sight boss.old) (sight boss.new) (sight result) consumers.now
            allowance }
    {
        let mut seat = mem::replace(&mut boss.badge, Badge::blank()).into_seat::<Option<Q>>();
        let (caller, part) = self.split_at(&mut seat, consumers, allowance);
        let badge = part.into_badge();
        boss.badge = seat.into_badge();
        boss.share -= allowance;
        HeldPass {
            badge,
            caller,
            share: allowance,
        }
    }

    // Draws the number of a new caller, and cuts its seat off.
    fn split_at(
        &self,
        seat: &mut Seat<Option<Q>, View<Outset, Deed>>,
        consumers: &[u32],
        amount: u64,
    ) -> (u64, Seat<Option<Q>, View<Outset, Deed>>)
        requires table { seat.old.table_id ≡ self.now.lock.table.shared.table_id }
        requires live { (seat.old.me.0.opening ≡ Some (outset_in seat.old.me.0))
            × (seat.old.me.0.callers ≡ 0 ∷ rest_of seat.old.me.0.callers) }
        requires idle { (seat.old.me.1 ≡ []) × (seat.old.me.0.holding ≡ false) }
        requires made { seat.old.me.0.made < 4294967296 }
        requires has { (c : ℕ) → Has c consumers.now → Has c seat.old.me.0.consumers }
        requires enough { (amount ≤ seat.old.me.0.allowance) × (amount ≤ seat.old.me.0.share) }
        ensures table { (seat.new.table_id ≡ seat.old.table_id) × (seat.new.id ≡ seat.old.id)
            × (result.1.table_id ≡ seat.old.table_id) }
        ensures carried { (seat.new.me.1 ≡ []) × (result.1.me.1 ≡ []) }
        ensures parted { Parted Q.keeps seat.old.me.0 seat.new.me.0 result.1.me.0 consumers.now
            amount result.0 }
    {
        let drawn = self.lock.number(seat);
        let part = self.cut_by(seat, consumers, amount, drawn);
        (drawn, part)
    }

    // Cuts a seat off for the number that was drawn last.
    fn cut_by(
        &self,
        seat: &mut Seat<Option<Q>, View<Outset, Deed>>,
        consumers: &[u32],
        amount: u64,
        drawn: u64,
    ) -> Seat<Option<Q>, View<Outset, Deed>>
        requires table { seat.old.table_id ≡ self.now.lock.table.shared.table_id }
        requires live { (seat.old.me.0.opening ≡ Some (outset_in seat.old.me.0))
            × (seat.old.me.0.holding ≡ false) }
        requires callers { (seat.old.me.0.callers
            ≡ 0 ∷ drawn ∷ rest_of (rest_of seat.old.me.0.callers))
            × ¬ (Has drawn (0 ∷ rest_of (rest_of seat.old.me.0.callers)))
            × (0 < drawn) }
        requires has { (c : ℕ) → Has c consumers.now → Has c seat.old.me.0.consumers }
        requires enough { (amount ≤ seat.old.me.0.allowance) × (amount ≤ seat.old.me.0.share) }
        ensures table { (seat.new.table_id ≡ seat.old.table_id) × (seat.new.id ≡ seat.old.id)
            × (result.table_id ≡ seat.old.table_id) }
        ensures views { (seat.new.me ≡ (
          cut_left amount amount
              (not_in consumers.now seat.old.me.0.consumers) seat.old.me.0,
          seat.old.me.1,
        ))
            × (result.me ≡ (cut_right amount amount consumers.now seat.old.me.0, [])) }
    {
        self.cut::<Brand>(seat, consumers, amount, drawn)
    }

    fn cut<J: Portion>(
        &self,
        seat: &mut Seat<Option<Q>, View<Outset, Deed>>,
        consumers: &[u32],
        amount: u64,
        drawn: u64,
    ) -> Seat<Option<Q>, View<Outset, Deed>>
        requires table { seat.old.table_id ≡ self.now.lock.table.shared.table_id }
        requires live { ((p : Outset) × (seat.old.me.0.opening ≡ Some p))
            × (seat.old.me.0.holding ≡ false) }
        requires cuts { (ended : List ℕ) × Cuts seat.old.me.0 0 drawn J.allowance J.share ended
            J.kept J.moved J.is_moved }
        ensures table { (seat.new.table_id ≡ seat.old.table_id) × (seat.new.id ≡ seat.old.id)
            × (result.table_id ≡ seat.old.table_id) }
        ensures views { (seat.new.me
            ≡ (cut_left J.allowance J.share J.kept seat.old.me.0, seat.old.me.1))
            × (result.me ≡ (cut_right J.allowance J.share J.moved seat.old.me.0, [])) }
    {
        let _picked = (consumers.len(), amount);
        self.lock.cut::<J>(seat, 0, drawn)
    }

    /// Ends `gone`. `into` then speaks for its callers, and has what it had.
    pub fn join(&self, into: &mut HeldPass, gone: HeldPass)
        requires into { Serves self.now into.old }
        requires gone { Serves self.now gone }
        requires history { (sight gone).opening ≡ (sight into.old).opening }
        ensures serves { Serves self.now into.new }
        ensures joined { IsJoined (sight into.old) (sight gone) (sight into.new) }
    {
        let mut seat = mem::replace(&mut into.badge, Badge::blank()).into_seat::<Option<Q>>();
        let HeldPass {
            badge,
            caller: _,
            share,
        } = gone;
        self.join_at(&mut seat, badge.into_seat::<Option<Q>>(), into.caller);
        into.badge = seat.into_badge();
        into.share += share;
    }

    // The two seats are joined, and a look tells what that makes of them.
    fn join_at(
        &self,
        seat: &mut Seat<Option<Q>, View<Outset, Deed>>,
        other: Seat<Option<Q>, View<Outset, Deed>>,
        caller: u64,
    )
        requires table { (seat.old.table_id ≡ self.now.lock.table.shared.table_id)
            × (other.table_id ≡ self.now.lock.table.shared.table_id) }
        requires live { (seat.old.me.0.opening ≡ Some (outset_in seat.old.me.0))
            × (seat.old.me.0.callers ≡ caller ∷ rest_of seat.old.me.0.callers) }
        requires idle { (seat.old.me.1 ≡ []) × (seat.old.me.0.holding ≡ false)
            × (other.me.1 ≡ []) × (other.me.0.holding ≡ false) }
        ensures table { (seat.new.table_id ≡ seat.old.table_id) × (seat.new.id ≡ seat.old.id)
            × (seat.new.me.1 ≡ []) }
        ensures merged { Merged Q.keeps seat.old.me.0 other.me.0 seat.new.me.0 }
    {
        let _caller = caller;
        self.lock.join(seat, other);
        self.lock.look(seat);
    }

    /// Tells `to` all that `from` has seen.
    pub fn meet(&self, from: &mut HeldPass, to: &mut HeldPass)
        requires from { Serves self.now from.old }
        requires to { Serves self.now to.old }
        requires history { (sight from.old).opening ≡ (sight to.old).opening }
        ensures serves { Serves self.now from.new × Serves self.now to.new }
        ensures same { sight from.new ≡ sight from.old }
        ensures met { IsMet (sight to.old) (sight from.old) (sight to.new) }
    {
        let mut teller = mem::replace(&mut from.badge, Badge::blank()).into_seat::<Option<Q>>();
        let note = self.note_at(&mut teller, from.caller);
        from.badge = teller.into_badge();
        let mut seat = mem::replace(&mut to.badge, Badge::blank()).into_seat::<Option<Q>>();
        self.tell_at(&mut seat, note, to.caller);
        to.badge = seat.into_badge();
    }

    // A seat that has seen as much, and may do nothing.
    fn note_at(
        &self,
        seat: &mut Seat<Option<Q>, View<Outset, Deed>>,
        caller: u64,
    ) -> Seat<Option<Q>, View<Outset, Deed>>
        requires table { seat.old.table_id ≡ self.now.lock.table.shared.table_id }
        requires live { (seat.old.me.0.opening ≡ Some (outset_in seat.old.me.0))
            × (seat.old.me.0.callers ≡ caller ∷ rest_of seat.old.me.0.callers) }
        ensures table { (seat.new.table_id ≡ seat.old.table_id) × (seat.new.id ≡ seat.old.id)
            × (result.table_id ≡ seat.old.table_id) }
        ensures views { (seat.new.me ≡ seat.old.me) × (result.me ≡ (note seat.old.me.0, [])) }
    {
        let _caller = caller;
        self.lock.note(seat)
    }

    // What a note knows is told to a seat, and a look tells what that makes of it.
    fn tell_at(
        &self,
        seat: &mut Seat<Option<Q>, View<Outset, Deed>>,
        other: Seat<Option<Q>, View<Outset, Deed>>,
        caller: u64,
    )
        requires table { (seat.old.table_id ≡ self.now.lock.table.shared.table_id)
            × (other.table_id ≡ self.now.lock.table.shared.table_id) }
        requires live { (seat.old.me.0.opening ≡ Some (outset_in seat.old.me.0))
            × (seat.old.me.0.callers ≡ caller ∷ rest_of seat.old.me.0.callers) }
        requires idle { (seat.old.me.1 ≡ []) × (seat.old.me.0.holding ≡ false)
            × (other.me.1 ≡ []) × (other.me.0.holding ≡ false) × (other.me.0.callers ≡ []) }
        ensures table { (seat.new.table_id ≡ seat.old.table_id) × (seat.new.id ≡ seat.old.id)
            × (seat.new.me.1 ≡ []) }
        ensures told { Told Q.keeps seat.old.me.0 other.me.0 seat.new.me.0 }
    {
        let _caller = caller;
        self.lock.tell(seat, other);
        self.lock.look(seat);
    }
}
