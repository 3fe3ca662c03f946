//! Steps on the word of the depth.
ghost use Rattle.std.specs.Prelude.{◌≡◌, ◌≤◌, ◌<◌, ◌+◌, ◌/◌, ◌%◌, [], ◌∷◌, None};
ghost use Rattle.queue_model.specs.declared.deeds.Act.TheVariants as acts;
ghost use Rattle.queue_model.specs.declared.steps.Step.TheVariants as steps;
ghost use Rattle.queue_model.specs.Packing.{entry_worth, pack_depth};
ghost use Rattle.queue_model.specs.Table.{most_bytes};
ghost use Rattle.entry_table.specs.Views.{rest_of};
ghost use Rattle.entry_table.specs.Plays.{DepthShown, DidReserve, reserved};
ghost use Rattle.entry_table.specs.Passes.{IsPassOf, Kept, Did, ShowsDepth, view, allowance, share, drawn};

use crate::entries::Entries;
use crate::pass::Pass;
use crate::plays::Reserves;
use crate::view::View;
use acts_core::Freight;
use atomic_table::{Badge, Seat};
use queue_model::{Depth, ENTRY_WORTH};
use std::mem;

impl<C: Freight> Entries<C> {
    /// Adds one entry of this size to the depth, and answers the depth just before.
    pub fn reserve_depth(&self, pass: &mut Pass, size: u64) -> Depth
        requires table { IsPassOf self.now pass.old }
        requires size { size ≤ most_bytes }
        requires allowance { 0 < allowance pass.old }
        ensures kept { Kept pass.old pass.new }
        ensures rights { (allowance pass.old ≡ allowance pass.new + 1)
            × (share pass.new ≡ share pass.old)
            × (drawn pass.new ≡ drawn pass.old) }
        ensures did { Did pass.old pass.new (acts.Reserve size ∷ []) }
        ensures reserved { DidReserve (view pass.old) (view pass.new) size }
        ensures depth { ShowsDepth pass.old pass.new (steps.Reserve size) (acts.Reserve size)
            (pack_depth result.entries result.bytes + (entry_worth + size)) result }
    {
        let mut seat = mem::replace(&mut pass.badge, Badge::blank()).into_seat::<Option<C>>();
        let found = self.reserve_at(&mut seat, size, pass.caller);
        pass.badge = seat.into_badge();
        Depth {
            entries: found / ENTRY_WORTH,
            bytes: found % ENTRY_WORTH,
        }
    }

    fn reserve_at(&self, seat: &mut Seat<Option<C>, View>, size: u64, caller: u64) -> u64
        requires table { seat.old.table_id ≡ self.now.table.shared.table_id }
        requires caller { seat.old.me.0.callers ≡ caller ∷ rest_of seat.old.me.0.callers }
        requires idle { seat.old.me.0.slot ≡ None }
        requires size { size ≤ most_bytes }
        requires allowance { 1 ≤ seat.old.me.0.allowance }
        ensures table { (seat.new.table_id ≡ seat.old.table_id) × (seat.new.id ≡ seat.old.id) }
        ensures told { reserved size seat.old.me result seat.new.me }
        ensures reserves { DidReserve seat.old.me.0 seat.new.me.0 size }
        ensures depth { DepthShown caller seat.old.me.0 seat.new.me.0 (steps.Reserve size)
            (acts.Reserve size)
            (pack_depth (result / entry_worth) (result % entry_worth) + (entry_worth + size))
            (record { entries = result / entry_worth; bytes = result % entry_worth }) }
    {
        let _caller = caller;
        self.table
            .shared
            .fetch_add::<Reserves>(seat, 2, ENTRY_WORTH + size)
    }
}
