//! Reservations that are given back.
ghost use Rattle.std.specs.Prelude.{◌≡◌, ℕ, ◌-◌, ◌<◌, ◌+◌, ◌^◌, [], ◌∷◌, ◌++◌, None};
ghost use Rattle.queue_model.specs.declared.deeds.Act.TheVariants as acts;
ghost use Rattle.queue_model.specs.declared.steps.Step.TheVariants as steps;
ghost use Rattle.queue_model.specs.Packing.{entry_worth};
ghost use Rattle.queue_model.specs.State.{reserved_by};
ghost use Rattle.queue_model.specs.Table.{CanGive};
ghost use Rattle.entry_table.specs.Views.{rest_of, state_in, entry};
ghost use Rattle.entry_table.specs.Plays.{gave_back};
ghost use Rattle.entry_table.specs.Givings.{giving};
ghost use Rattle.entry_table.specs.Passes.{IsPassOf, Kept, Did, state, shown, seen, allowance, share, drawn};

use crate::entries::Entries;
use crate::pass::Pass;
use crate::view::View;
use acts_core::Freight;
use atomic_table::{Badge, Play, Seat};
use link_core::places::DEPTH;
use queue_model::ENTRY_WORTH;
use std::mem;

/// A step that takes an entry out of the depth.
pub struct GivesBack;

impl<C> Play<Option<C>, View> for GivesBack {
    ghost then = { giving };
}

impl<C: Freight> Entries<C> {
    /// Takes one reserved entry of this size out of the depth. The pass may reserve one more then.
    pub fn give_back(&self, pass: &mut Pass, size: u64)
        requires table { IsPassOf self.now pass.old }
        requires reserved { CanGive (reserved_by (state pass.old) pass.old.caller) size }
        ensures kept { Kept pass.old pass.new }
        ensures rights { (allowance pass.new ≡ allowance pass.old + 1)
            × (share pass.new ≡ share pass.old)
            × (drawn pass.new ≡ drawn pass.old) }
        ensures did { Did pass.old pass.new (acts.GiveBack size ∷ []) }
        ensures shown { (n : ℕ) × (shown pass.new
            ≡ shown pass.old
            ++ entry (steps.GiveBack size) n (n - (entry_worth + size)) (seen pass.new) ∷ []) }
    {
        let mut seat = mem::replace(&mut pass.badge, Badge::blank()).into_seat::<Option<C>>();
        self.give_back_at(&mut seat, size, pass.caller);
        pass.badge = seat.into_badge();
    }

    // The step alone.
    fn give_back_at(&self, seat: &mut Seat<Option<C>, View>, size: u64, caller: u64)
        requires table { seat.old.table_id ≡ self.now.table.shared.table_id }
        requires caller { seat.old.me.0.callers ≡ caller ∷ rest_of seat.old.me.0.callers }
        requires idle { seat.old.me.0.slot ≡ None }
        requires small { size < entry_worth }
        requires reserved { CanGive (reserved_by (state_in seat.old.me.0) caller) size }
        ensures table { (seat.new.table_id ≡ seat.old.table_id) × (seat.new.id ≡ seat.old.id) }
        ensures told { (n : ℕ) × gave_back size seat.old.me n seat.new.me }
    {
        let _caller = caller;
        self.table
            .shared
            .fetch_sub::<GivesBack>(seat, DEPTH, ENTRY_WORTH + size);
    }
}
