//! What a closed table leaves.
ghost use Rattle.std.specs.Prelude.{[], ◌≡◌, ◌<◌, ◌≤◌, ℕ, ◌+◌, ◌*◌, slice_set, length, Some, None, vec_capacity, vec_len, slice_index_or, false, Option, map};
ghost use Rattle.queue_model.specs.Table.{most_entries};
ghost use Rattle.std.specs.List.{AllByRecursion};
ghost use Rattle.std.specs.Slots.{slots_items, slots_len, slots_filled, IsFull};
ghost use mathlib.Core.Option.{some};
ghost use lib.ListN.{get_elem?};
ghost use Rattle.queue_model.specs.declared.rows.RowState.{RowState};
ghost use Rattle.queue_model.specs.declared.rows.Row.{Row};
ghost use Rattle.queue_model.specs.declared.queues.Queue.{Queue};
ghost use Rattle.queue_model.specs.Packing.{pack_state};
ghost use Rattle.link_core.specs.Layout.{head_of, row_link_of, words_of};
ghost use Rattle.link_core.specs.Stands.{Stands};
ghost use Rattle.entry_table.specs.Resting.{IsRest, AreGathered, Rested, Legible, Settled, IsFor, rests};
ghost use Rattle.queue_model.specs.History.{own};
ghost use Rattle.acts_core.specs.Rest.{AreRests, left_of};
ghost use Rattle.acts_core.specs.Sight.{Listed};
ghost use Rattle.entry_table.specs.Views.{Has};
ghost use Rattle.entry_table.specs.Passes.{IsPassOf, view, callers, state, seen};

use crate::entries::Entries;
use crate::pass::Pass;
use acts_core::{Freight, RestEntry};
use atomic_table::Closed;
use link_core::places::{IDENT_AT, MASK_AT, SIZE_AT, STATE_AT, list_place, row_place, state_of};
use queue_model::{RowState, Slip};
use std::alloc::Global;

// The cargo of a row that waits, out of its slot, which is empty then.
fn unload<C>(closed: &mut Closed<Option<C>, Global>, row: usize) -> C
    requires full { IsFull closed.old.slots }
    requires there { (c : C) × (get_elem? (slots_items closed.old.slots) row ≡ some (Some c)) }
    ensures full { IsFull closed.new.slots }
    ensures words { closed.new.words ≡ closed.old.words }
    ensures value { get_elem? (slots_items closed.old.slots) row ≡ some (Some result) }
    ensures others { slots_items closed.new.slots ≡ slice_set (slots_items closed.old.slots) row None }
{
    let parcel = closed.take(row);
    closed.slots.put(row, None);
    match parcel {
        Some(cargo) => cargo,
        None => unreachable!(),
    }
}

fn resting<C: Freight>(
    closed: &Closed<Option<C>, Global>,
    row: u64,
    list: u32,
    state: RowState,
    cargo: C,
) -> RestEntry<C>
    requires words { IsFull closed.now.words
        × (row_link_of (row + 1) ≤ slots_len closed.now.words) }
    requires low { row < most_entries }
    ensures { (q : Queue) (x : Row)
        → IsFor C.goods (slots_items closed.now.words) q row list state cargo x
        → IsRest C.goods result x }
{
    let at = row_place(row);
    RestEntry {
        slip: Slip {
            id: closed.word(at + IDENT_AT),
            size: closed.word(at + SIZE_AT),
            mask: closed.word(at + MASK_AT),
            list,
            key: None,
        },
        state,
        outdated: false,
        cargo,
    }
}

// Drops what the slots still hold.
fn clear<C: Freight>(closed: &mut Closed<Option<C>, Global>)
    requires full { IsFull closed.old.slots }
    ensures taken { (k : ℕ) → k < slots_len closed.new.slots
        → slice_index_or (slots_filled closed.new.slots) k false ≡ false }
{
    let mut i = 0;
    'slots: while i < closed.slot_count() {
        drop(closed.take(i));
        i += 1;
    }
}

// Adds the rows of a list that aren't deleted, each with the cargo out of its slot.
fn gather<C: Freight>(
    closed: &mut Closed<Option<C>, Global>,
    rows: u64,
    list: u32,
    rest: &mut Vec<RestEntry<C>>,
)
    requires words { IsFull closed.old.words
        × (head_of rows (list + 1) ≤ slots_len closed.old.words) }
    requires slots { IsFull closed.old.slots }
    requires small { rows ≤ most_entries }
    requires at { (q : Queue) × Legible (slots_items closed.old.words) rows q
        × (list < q.lists)
        × Rested C.goods q (list + 1) rest.old.items (slots_items closed.old.slots)
        × (length (rests q.lists q) ≤ vec_capacity rest.old) }
    ensures words { closed.new.words ≡ closed.old.words }
    ensures slots { IsFull closed.new.slots }
    ensures rested { (q : Queue) → Legible (slots_items closed.old.words) rows q → list < q.lists
        → Rested C.goods q (list + 1) rest.old.items (slots_items closed.old.slots)
        → Rested C.goods q list rest.new.items (slots_items closed.new.slots) }
    ensures room { vec_capacity rest.new ≡ vec_capacity rest.old }
{
    let mut left = rows;
    let mut link = closed.word(list_place(rows, list));
    'rows: while link != 0 {
        let row = link - 1;
        left -= 1;
        let at = row_place(row);
        let word = closed.word(at + STATE_AT);
        if word != 3 {
            let cargo = unload(closed, row as usize);
            rest.push_reserved(resting(closed, row, list, state_of(word), cargo));
        }
        link = closed.word(at);
    }
}

// Adds the rows of all lists that aren't deleted, from the last list down.
fn gather_all<C: Freight>(
    closed: &mut Closed<Option<C>, Global>,
    rows: u64,
    lists: u32,
    rest: &mut Vec<RestEntry<C>>,
)
    requires words { IsFull closed.old.words × (slots_len closed.old.words ≡ words_of rows lists) }
    requires slots { IsFull closed.old.slots }
    requires small { rows ≤ most_entries }
    requires at { (q : Queue) × Legible (slots_items closed.old.words) rows q
        × (lists ≡ q.lists)
        × Rested C.goods q lists rest.old.items (slots_items closed.old.slots)
        × (length (rests q.lists q) ≤ vec_capacity rest.old) }
    ensures slots { IsFull closed.new.slots }
    ensures rested { (q : Queue) → Legible (slots_items closed.old.words) rows q → lists ≡ q.lists
        → Rested C.goods q lists rest.old.items (slots_items closed.old.slots)
        → Rested C.goods q 0 rest.new.items (slots_items closed.new.slots) }
{
    let mut list = lists;
    'lists: while list != 0 {
        list -= 1;
        gather(closed, rows, list, rest);
    }
}

impl<C: Freight> Entries<C> {
    /// Ends the table, for the boss into which the passes of all callers that were made were joined. It gives
    /// the rows that aren't deleted, in queue order, as they are after what the boss has seen, which is the whole
    /// history: every deed of it is of a caller that was made. The rows have no keys. It takes no memory.
    pub fn close(self, boss: Pass) -> Vec<RestEntry<C>>
        requires table { IsPassOf self boss }
        requires boss { boss.caller ≡ 0 }
        requires every { (k : ℕ) → k < (view boss).made → Has k (callers boss) }
        requires settled { Settled (state boss) }
        ensures rest { AreRests Listed (state boss) (map (left_of C.goods) result.items) }
        ensures keys { AllByRecursion (λ e. e.slip.key ≡ None) result.items }
        ensures callers { (k : ℕ) → (view boss).made ≤ k → own k (seen boss) ≡ [] }
    {
        self.gathered(boss)
    }

    // The rows that are left, from the last list down, each list by place.
    fn gathered(self, boss: Pass) -> Vec<RestEntry<C>>
        requires table { IsPassOf self boss }
        requires boss { boss.caller ≡ 0 }
        requires every { (k : ℕ) → k < (view boss).made → Has k (callers boss) }
        requires settled { Settled (state boss) }
        ensures rest { AreGathered C.goods result.items (rests (state boss).lists (state boss)) }
        ensures keys { AllByRecursion (λ e. e.slip.key ≡ None) result.items }
        ensures callers { (k : ℕ) → (view boss).made ≤ k → own k (seen boss) ≡ [] }
    {
        let Entries {
            table,
            shape,
            mut rest,
        } = self;
        let Pass { badge, .. } = boss;
        let mut closed = table.close_with(badge.into_seat::<Option<C>>());
        gather_all(&mut closed, shape.rows, shape.lists, &mut rest);
        clear(&mut closed);
        closed.free();
        rest
    }
}
