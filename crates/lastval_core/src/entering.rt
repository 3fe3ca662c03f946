//! A row comes: it may be without a key, the first of its key, or one that takes an older one's place.
ghost use Rattle.std.specs.Prelude.{ℕ, ◌≡◌, ◌≢◌, ◌<◌, ◌≤◌, ◌↔◌, IsTrue, None, vec_len, vec_capacity};
ghost use Rattle.std.specs.List.{insert};
ghost use Rattle.queue_model.specs.declared.rows.RowState.TheVariants as states;
ghost use Rattle.acts_core.specs.Calls.{CallPut};
ghost use Rattle.acts_core.specs.Replies.{of_put};
ghost use Rattle.acts_core.specs.Serves.{MayCall, Serves};
ghost use Rattle.acts_core.specs.Sight as sight;
ghost use Rattle.lastval_core.specs.Lasts.{KeepsLast, HasRoom, StandsAt, BelongsAt};

use acts_core::{Freight, Placed};
use kept_rows::KeptRows;
use queue_model::{RowState, Slip};
use row_order::ArrivalOrder;

/// Puts an entry without a key.
pub(crate) fn enter_unkeyed<C: Freight>(
    rows: &mut KeptRows<C, ArrivalOrder>,
    lasts: &Vec<u64>,
    outdated: &mut Vec<bool>,
    caller: u64,
    slip: Slip,
    cargo: C,
) -> Placed<C>
    requires may { MayCall rows.old caller (CallPut slip (C.goods cargo)) }
    requires spare { 0 < rows.old.spare }
    requires keeps { KeepsLast rows.old lasts.now.items outdated.old.items }
    requires room { HasRoom rows.old (vec_capacity lasts.now) (vec_capacity outdated.old) }
    requires key { slip.key ≡ None }
    ensures serves { Serves sight.LastValue rows.old rows.new
        caller (CallPut slip (C.goods cargo)) (of_put C.goods result) }
    ensures keeps { KeepsLast rows.new lasts.now.items outdated.new.items }
    ensures room { HasRoom rows.new (vec_capacity lasts.now) (vec_capacity outdated.new) }
{
    let _lasts = lasts;
    let row = rows.put(caller, slip, cargo);
    outdated.push_reserved(false);
    Placed::At {
        row,
        displaced: None,
    }
}

/// Puts the first entry of its key, which belongs at this index among the last rows.
pub(crate) fn enter_first<C: Freight>(
    rows: &mut KeptRows<C, ArrivalOrder>,
    lasts: &mut Vec<u64>,
    outdated: &mut Vec<bool>,
    caller: u64,
    slip: Slip,
    cargo: C,
    index: usize,
) -> Placed<C>
    requires may { MayCall rows.old caller (CallPut slip (C.goods cargo)) }
    requires spare { 0 < rows.old.spare }
    requires keeps { KeepsLast rows.old lasts.old.items outdated.old.items }
    requires room { HasRoom rows.old (vec_capacity lasts.old) (vec_capacity outdated.old) }
    requires key { slip.key ≢ None }
    requires place { BelongsAt rows.old lasts.old.items slip.key index }
    ensures serves { Serves sight.LastValue rows.old rows.new
        caller (CallPut slip (C.goods cargo)) (of_put C.goods result) }
    ensures keeps { KeepsLast rows.new lasts.new.items outdated.new.items }
    ensures room { HasRoom rows.new (vec_capacity lasts.new) (vec_capacity outdated.new) }
{
    let row = rows.put(caller, slip, cargo);
    insert_row(lasts, index, row);
    outdated.push_reserved(false);
    Placed::At {
        row,
        displaced: None,
    }
}

/// Puts an entry whose key has its last row at this index, and hands that row out where it is available.
pub(crate) fn enter_over<C: Freight>(
    rows: &mut KeptRows<C, ArrivalOrder>,
    lasts: &mut Vec<u64>,
    outdated: &mut Vec<bool>,
    caller: u64,
    slip: Slip,
    cargo: C,
    index: usize,
) -> Placed<C>
    requires may { MayCall rows.old caller (CallPut slip (C.goods cargo)) }
    requires spare { 0 < rows.old.spare }
    requires keeps { KeepsLast rows.old lasts.old.items outdated.old.items }
    requires room { HasRoom rows.old (vec_capacity lasts.old) (vec_capacity outdated.old) }
    requires key { slip.key ≢ None }
    requires place { StandsAt rows.old lasts.old.items slip.key index }
    ensures serves { Serves sight.LastValue rows.old rows.new
        caller (CallPut slip (C.goods cargo)) (of_put C.goods result) }
    ensures keeps { KeepsLast rows.new lasts.new.items outdated.new.items }
    ensures room { HasRoom rows.new (vec_capacity lasts.new) (vec_capacity outdated.new) }
{
    let row = rows.put(caller, slip, cargo);
    let older = lasts[index];
    lasts[index] = row;
    outdated.push_reserved(false);
    outdated[older as usize] = true;
    if !is_available(rows.state(older)) {
        return Placed::At {
            row,
            displaced: None,
        };
    }
    let displaced = rows.take_out(caller, older);
    Placed::At {
        row,
        displaced: Some((older, displaced)),
    }
}

/// Inserts a row number, for which there is room.
pub(crate) fn insert_row(lasts: &mut Vec<u64>, index: usize, row: u64)
    requires index { index ≤ vec_len lasts.old }
    requires room { vec_len lasts.old < vec_capacity lasts.old }
    ensures items { lasts.new.items ≡ insert lasts.old.items index row }
    ensures room { vec_capacity lasts.old ≤ vec_capacity lasts.new }
{
    lasts.insert(index, row).unwrap();
}

// Whether nobody has a row that is in this state.
fn is_available(state: RowState) -> bool
    ensures { IsTrue result ↔ (state ≡ states.Available) }
{
    match state {
        RowState::Available => true,
        _ => false,
    }
}
