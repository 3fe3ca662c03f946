//! Passes that are made and ended.
ghost use Rattle.std.specs.Prelude.{◌≡◌, ℕ, ◌≤◌, ◌<◌, ◌+◌, ◌-◌, [], ◌∷◌, ◌++◌, None};
ghost use Rattle.acts_core.specs.Asked.{most_callers};
ghost use Rattle.entry_table.specs.Views.{Has, rest_of};
ghost use Rattle.entry_table.specs.Plays.{numbered, cut_left, cut_right, noted_left, note, merged, DidSplit, Joined, Met};
ghost use Rattle.entry_table.specs.Passes.{IsPassOf, view, opening};

use crate::entries::Entries;
use crate::pass::Pass;
use crate::plays::{Cut, Merge, Notes, Numbers, Portion, Settles};
use crate::view::View;
use acts_core::Freight;
use atomic_table::{Badge, Seat};
use std::marker::Brand;
use std::mem;

impl<C: Freight> Entries<C> {
    fn number(&self, seat: &mut Seat<Option<C>, View>) -> u64
        requires table { seat.old.table_id ≡ self.now.table.shared.table_id }
        requires boss { seat.old.me.0.callers ≡ 0 ∷ rest_of seat.old.me.0.callers }
        requires idle { seat.old.me.0.slot ≡ None }
        requires made { seat.old.me.0.made < most_callers }
        ensures table { (seat.new.table_id ≡ seat.old.table_id) × (seat.new.id ≡ seat.old.id) }
        ensures told { numbered seat.old.me result seat.new.me }
    {
        self.table.shared.fetch_add::<Numbers>(seat, 1, 1)
    }

    // The caller number has been drawn, and stands behind the pass's own.
    fn cut<J: Portion>(
        &self,
        seat: &mut Seat<Option<C>, View>,
        consumers: &[u32],
        amount: u64,
        caller: u64,
    ) -> Seat<Option<C>, View>
        requires picked { (J.amount ≡ amount) × (J.parted ≡ consumers.now) }
        requires table { seat.old.table_id ≡ self.now.table.shared.table_id }
        requires callers { (seat.old.me.0.callers
            ≡ 0 ∷ caller ∷ rest_of (rest_of seat.old.me.0.callers))
            × ¬ (Has caller (0 ∷ rest_of (rest_of seat.old.me.0.callers)))
            × (0 < caller) }
        requires consumers { (c : ℕ) → Has c consumers.now → Has c seat.old.me.0.consumers }
        requires idle { seat.old.me.0.slot ≡ None }
        requires portion { (amount ≤ seat.old.me.0.allowance) × (amount ≤ seat.old.me.0.share) }
        ensures table { (seat.new.table_id ≡ seat.old.table_id)
            × (seat.new.id ≡ seat.old.id)
            × (result.table_id ≡ seat.old.table_id) }
        ensures views { (seat.new.me ≡ (cut_left amount consumers.now seat.old.me.0, seat.old.me.1))
            × (result.me ≡ (cut_right amount consumers.now seat.old.me.0, [])) }
    {
        let _picked = (consumers.len(), amount, caller);
        self.table.shared.split_seat::<Cut<J>>(seat)
    }

    fn cut_by(
        &self,
        seat: &mut Seat<Option<C>, View>,
        consumers: &[u32],
        amount: u64,
        caller: u64,
    ) -> Seat<Option<C>, View>
        requires table { seat.old.table_id ≡ self.now.table.shared.table_id }
        requires callers { (seat.old.me.0.callers
            ≡ 0 ∷ caller ∷ rest_of (rest_of seat.old.me.0.callers))
            × ¬ (Has caller (0 ∷ rest_of (rest_of seat.old.me.0.callers)))
            × (0 < caller) }
        requires consumers { (c : ℕ) → Has c consumers.now → Has c seat.old.me.0.consumers }
        requires idle { seat.old.me.0.slot ≡ None }
        requires portion { (amount ≤ seat.old.me.0.allowance) × (amount ≤ seat.old.me.0.share) }
        ensures table { (seat.new.table_id ≡ seat.old.table_id)
            × (seat.new.id ≡ seat.old.id)
            × (result.table_id ≡ seat.old.table_id) }
        ensures views { (seat.new.me ≡ (cut_left amount consumers.now seat.old.me.0, seat.old.me.1))
            × (result.me ≡ (cut_right amount consumers.now seat.old.me.0, [])) }
    {
        self.cut::<Brand>(seat, consumers, amount, caller)
    }

    /// Makes a pass for a new caller, to which these consumers of the boss move, and that much of its allowance
    /// and of its share. The new pass has seen what the boss has.
    pub fn split(&self, boss: &mut Pass, consumers: &[u32], allowance: u64) -> Pass
        requires table { IsPassOf self.now boss.old }
        requires boss { boss.old.caller ≡ 0 }
        requires made { (view boss.old).made < most_callers }
        requires consumers { (c : ℕ) → Has c consumers.now → Has c (view boss.old).consumers }
        requires allowance { allowance ≤ (view boss.old).allowance }
        requires share { allowance ≤ (view boss.old).share }
        ensures tables { IsPassOf self.now boss.new × IsPassOf self.now result }
        ensures boss { boss.new.caller ≡ 0 }
        ensures caller { result.caller ≡ (view boss.old).made }
        ensures split { DidSplit (view boss.old) (view boss.new) (view result) consumers.now
            allowance }
    {
        let mut seat = mem::replace(&mut boss.badge, Badge::blank()).into_seat::<Option<C>>();
        let caller = self.number(&mut seat);
        let badge = self
            .cut_by(&mut seat, consumers, allowance, caller)
            .into_badge();
        boss.badge = seat.into_badge();
        boss.share -= allowance;
        Pass {
            badge,
            caller,
            share: allowance,
            top: boss.top,
        }
    }

    /// Tells `to` all that `from` has seen.
    pub fn meet(&self, from: &mut Pass, to: &mut Pass)
        requires from { IsPassOf self.now from.old }
        requires to { IsPassOf self.now to.old }
        requires history { opening from.old ≡ opening to.old }
        ensures tables { IsPassOf self.now from.new × IsPassOf self.now to.new }
        ensures callers { (from.new.caller ≡ from.old.caller) × (to.new.caller ≡ to.old.caller) }
        ensures same { view from.new ≡ noted_left (view from.old) }
        ensures met { Met (view to.old) (view from.old) (view to.new) }
    {
        let mut teller = mem::replace(&mut from.badge, Badge::blank()).into_seat::<Option<C>>();
        let told = self.note_at(&mut teller, from.caller);
        from.badge = teller.into_badge();
        let mut seat = mem::replace(&mut to.badge, Badge::blank()).into_seat::<Option<C>>();
        self.join_at(&mut seat, told, to.caller);
        to.badge = seat.into_badge();
    }

    // A seat that has seen as much, and may do nothing.
    fn note_at(&self, seat: &mut Seat<Option<C>, View>, caller: u64) -> Seat<Option<C>, View>
        requires table { seat.old.table_id ≡ self.now.table.shared.table_id }
        requires caller { seat.old.me.0.callers ≡ caller ∷ rest_of seat.old.me.0.callers }
        requires idle { seat.old.me.0.slot ≡ None }
        ensures table { (seat.new.table_id ≡ seat.old.table_id) × (seat.new.id ≡ seat.old.id) }
        ensures other { result.table_id ≡ seat.old.table_id }
        ensures left { seat.new.me ≡ (noted_left seat.old.me.0, seat.old.me.1) }
        ensures right { result.me ≡ (note seat.old.me.0, []) }
    {
        let _caller = caller;
        self.table.shared.split_seat::<Notes>(seat)
    }

    /// Ends `gone`. `into` then speaks for its callers, and has what it had.
    pub fn join(&self, into: &mut Pass, gone: Pass)
        requires into { IsPassOf self.now into.old }
        requires gone { IsPassOf self.now gone }
        requires history { opening gone ≡ opening into.old }
        ensures table { IsPassOf self.now into.new }
        ensures caller { into.new.caller ≡ into.old.caller }
        ensures joined { Joined (view into.old) (view gone) (view into.new) }
    {
        let mut seat = mem::replace(&mut into.badge, Badge::blank()).into_seat::<Option<C>>();
        let Pass {
            badge,
            caller: _,
            share,
            top: _,
        } = gone;
        self.join_at(&mut seat, badge.into_seat::<Option<C>>(), into.caller);
        into.badge = seat.into_badge();
        into.share += share;
    }

    // The two seats are joined, and a load tells what that makes of them.
    fn join_at(&self, seat: &mut Seat<Option<C>, View>, other: Seat<Option<C>, View>, caller: u64)
        requires table { seat.old.table_id ≡ self.now.table.shared.table_id }
        requires other { other.table_id ≡ self.now.table.shared.table_id }
        requires caller { seat.old.me.0.callers ≡ caller ∷ rest_of seat.old.me.0.callers }
        requires idle { (other.me.1 ≡ []) × (seat.old.me.0.slot ≡ None) × (other.me.0.slot ≡ None) }
        ensures table { (seat.new.table_id ≡ seat.old.table_id) × (seat.new.id ≡ seat.old.id) }
        ensures carried { seat.new.me.1 ≡ seat.old.me.1 }
        ensures joined { Joined seat.old.me.0 other.me.0 seat.new.me.0 }
    {
        self.merge_at(seat, other, caller);
        self.table.shared.load::<Settles>(seat, 1);
    }

    fn merge_at(&self, seat: &mut Seat<Option<C>, View>, other: Seat<Option<C>, View>, caller: u64)
        requires table { seat.old.table_id ≡ self.now.table.shared.table_id }
        requires other { other.table_id ≡ self.now.table.shared.table_id }
        requires caller { seat.old.me.0.callers ≡ caller ∷ rest_of seat.old.me.0.callers }
        requires idle { (other.me.1 ≡ []) × (seat.old.me.0.slot ≡ None) × (other.me.0.slot ≡ None) }
        ensures table { (seat.new.table_id ≡ seat.old.table_id) × (seat.new.id ≡ seat.old.id) }
        ensures view { seat.new.me ≡ (merged seat.old.me.0 other.me.0, seat.old.me.1) }
    {
        let _caller = caller;
        self.table.shared.join_seat::<Merge>(seat, other);
    }
}
