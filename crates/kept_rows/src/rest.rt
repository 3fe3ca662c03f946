//! What is left of the rows at the end.
ghost use Rattle.std.specs.Prelude.{ℕ, ◌≡◌, ◌≢◌, Some, None, ◌+◌, ◌*◌, ◌^◌, ◌<◌, ◌≤◌, Bool, [], map, length, slice_index, vec_len, vec_capacity};
ghost use Rattle.row_order.specs.Order.{ranks};
ghost use Rattle.acts_core.specs.Rest.{AtRest, left_of};
ghost use Rattle.row_order.specs.Tree.{Leafed};
ghost use Rattle.queue_model.specs.declared.queues.Depth.{Depth};
ghost use Rattle.kept_rows.specs.Keeping.{kept_of, Awake, Lives, LiveNames, Ready};
ghost use Rattle.kept_rows.specs.Resting.{Gathered, RestsOf};

use crate::rows::KeptRows;
use acts_core::{Freight, RestEntry};
use queue_model::{RowState, Slip};
use row_order::{Ranking, Slot, crown, drain};
use std::mem;

/// What tells of each row whether a later one of its key has come.
pub trait Marking {
    /// Whether one has.
    ghost marks: { Self → ℕ → Bool };

    /// Whether one has.
    fn is_outdated(&self, row: u64) -> bool
        ensures { result ≡ marks self.now row };
}

impl<C: Freight, O: Ranking> KeptRows<C, O> {
    /// What is left, in queue order: each entry that is not deleted, with its mark. No row may be held, or
    /// dequeued and not deleted. It takes no memory.
    pub fn into_rest<M: Marking>(self, marking: &M) -> Vec<RestEntry<C>>
        requires rest { AtRest self }
        ensures rest { RestsOf O.by_key self (M.marks marking.now)
            (map (left_of C.goods) result.items) }
    {
        let KeptRows {
            mut slots,
            mut nodes,
            width,
            mut order,
            mut rest,
            ..
        } = self;
        list_live::<C, O>(&slots, &mut nodes, width, &mut order);
        gather::<C, M>(&mut slots, &order, marking, &mut rest);
        rest
    }
}

// Lists the rows that are not deleted, in queue order.
fn list_live<C, O: Ranking>(
    slots: &[Slot<C>],
    nodes: &mut [u64],
    width: usize,
    order: &mut Vec<u64>,
)
    requires width { (0 < width) × (length slots.now ≤ width) }
    requires leaves { Leafed width (length slots.now) nodes.old }
    requires room { (vec_len order.old ≡ 0) × (length slots.now ≤ vec_capacity order.old) }
    ensures { Lives (ranks O.by_key slots.now) slots.now order.new.items }
{
    wake(slots, nodes, width);
    crown::<C, O>(slots, nodes, width);
    drain::<C, O>(slots, nodes, width, order);
}

// The leaf of each row that is not deleted names it, and no other does.
fn wake<C>(slots: &[Slot<C>], nodes: &mut [u64], width: usize)
    requires wide { length slots.now ≤ width }
    requires leaves { Leafed width (length slots.now) nodes.old }
    ensures leaves { Leafed width (length slots.now) nodes.new }
    ensures awake { Awake slots.now width (length slots.now) nodes.new }
{
    let mut row = 0;
    'waking: while row < slots.len() {
        nodes[width + row] = live_word(row as u64, slots[row].state);
        row += 1;
    }
}

// The word of the leaf of a row in this state, where each row that is not deleted has its leaf.
fn live_word(row: u64, state: RowState) -> u64
    requires { row + 1 < 2 ^ 64 }
    ensures { LiveNames state row result }
{
    match state {
        RowState::Deleted => 0,
        _ => row + 1,
    }
}

// Moves the rows of a list of rows out of their slots, in its order.
fn gather<C: Freight, M: Marking>(
    slots: &mut [Slot<C>],
    order: &[u64],
    marking: &M,
    rest: &mut Vec<RestEntry<C>>,
)
    requires ready { (i : ℕ) → i < length order.now
        → Ready C.goods slots.old (slice_index order.now i) }
    requires apart { (i j : ℕ) → i < j → j < length order.now
        → slice_index order.now i ≢ slice_index order.now j }
    requires none { rest.old.items ≡ [] }
    requires room { length order.now ≤ vec_capacity rest.old }
    ensures { (d : Depth) (spare : ℕ) → Gathered C.goods (kept_of C.goods slots.old d spare)
        (M.marks marking.now) order.now (length order.now) rest.new.items }
{
    let mut at = 0;
    'gathering: while at < order.len() {
        let row = order[at];
        let slot = mem::replace(&mut slots[row as usize], emptied());
        rest.push_reserved(entry_of(slot, marking.is_outdated(row)));
        at += 1;
    }
}

// What a slot is when its row was moved out.
fn emptied<C>() -> Slot<C> {
    Slot {
        slip: Slip {
            id: 0,
            size: 0,
            mask: 0,
            list: 0,
            key: None,
        },
        state: RowState::Deleted,
        cargo: None,
    }
}

// The entry of a row that has its cargo.
fn entry_of<C>(slot: Slot<C>, outdated: bool) -> RestEntry<C>
    requires { slot.cargo ≢ None }
    ensures slip { result.slip ≡ slot.slip }
    ensures state { result.state ≡ slot.state }
    ensures outdated { result.outdated ≡ outdated }
    ensures cargo { slot.cargo ≡ Some result.cargo }
{
    let Slot { slip, state, cargo } = slot;
    match cargo {
        Some(cargo) => RestEntry {
            slip,
            state,
            outdated,
            cargo,
        },
        None => unreachable!(),
    }
}
