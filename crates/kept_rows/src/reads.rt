//! What is read off the rows.
ghost use Rattle.std.specs.Prelude.{◌≡◌, ℕ, ◌<◌, ◌+◌, ◌↔◌, IsTrue, IfSome, IfNone, length};
ghost use Rattle.row_order.specs.Order.{ranks};
ghost use Rattle.kept_rows.specs.Keeping.{FirstNamed, HasName};
ghost use Rattle.kept_rows.specs.Rows.{kept_at, Comes, FirstOf, NoneOf, IsFreeTo, IsAvailable, IsNamed};

use crate::rows::KeptRows;
use acts_core::Freight;
use byte_lists::Bytes;
use queue_model::{Depth, RowState};
use row_order::{Ranking, Slot, first_wanted, leftmost, winner};

impl<C: Freight, O: Ranking> KeptRows<C, O> {
    /// How many more rows there is room for.
    pub fn spare(&self) -> u64
        ensures { result ≡ self.now.spare }
    {
        self.spare
    }

    /// How full the queue is.
    pub fn depth(&self) -> Depth
        ensures { result ≡ self.now.depth }
    {
        self.depth
    }

    /// The size of a row in bytes.
    pub fn size(&self, row: u64) -> u64
        requires { row < length self.now.rows }
        ensures { result ≡ (kept_at self.now row).slip.size }
    {
        self.slots[row as usize].slip.size
    }

    /// The state of a row.
    pub fn state(&self, row: u64) -> RowState
        requires { row < length self.now.rows }
        ensures { result ≡ (kept_at self.now row).state }
    {
        self.slots[row as usize].state
    }

    /// The key of a row.
    pub fn key(&self, row: u64) -> &Option<Bytes>
        requires { row < length self.now.rows }
        ensures { result.now ≡ (kept_at self.now row).slip.key }
    {
        &self.slots[row as usize].slip.key
    }

    /// The first available row in queue order that the consumer wants.
    pub fn first(&self, consumer: u32) -> Option<u64>
        requires { consumer < 64 }
        ensures some { IfSome result (FirstOf self.now (IsFreeTo consumer)
            (Comes O.by_key self.now)) }
        ensures none { IfNone result (NoneOf self.now (IsFreeTo consumer)) }
    {
        row_of(first_wanted::<C, O>(&self.slots, &self.nodes, self.width, 1, consumer))
    }

    /// The available row that came first.
    pub fn first_come(&self) -> Option<u64>
        ensures some { IfSome result (FirstOf self.now IsAvailable (λ r s. r < s)) }
        ensures none { IfNone result (NoneOf self.now IsAvailable) }
    {
        row_of(leftmost(&self.nodes, self.width))
    }

    /// The first row in queue order that has the id and is not deleted. It looks at all rows.
    pub fn named(&self, id: u64) -> Option<u64>
        ensures some { IfSome result (FirstOf self.now (IsNamed id) (Comes O.by_key self.now)) }
        ensures none { IfNone result (NoneOf self.now (IsNamed id)) }
    {
        row_of(find_named::<C, O>(&self.slots, id))
    }
}

// The first row in queue order that has the id and is not deleted, plus one; 0 where there is none.
fn find_named<C, O: Ranking>(slots: &[Slot<C>], id: u64) -> u64
    ensures { FirstNamed (ranks O.by_key slots.now) slots.now id (length slots.now) result }
{
    let mut best = 0;
    let mut row = 0;
    'scanning: while row < slots.len() {
        best = sooner::<C, O>(slots, id, best, row);
        row += 1;
    }
    best
}

// The first of those before a row and the row itself, where that has the id and is not deleted.
fn sooner<C, O: Ranking>(slots: &[Slot<C>], id: u64, best: u64, row: usize) -> u64
    requires inside { row < length slots.now }
    requires best { FirstNamed (ranks O.by_key slots.now) slots.now id row best }
    ensures { FirstNamed (ranks O.by_key slots.now) slots.now id (row + 1) result }
{
    let slot = &slots[row];
    if is_named(slot, id) {
        return winner::<C, O>(slots, best, row as u64 + 1);
    }
    best
}

// Whether a row has the id and is not deleted.
fn is_named<C>(slot: &Slot<C>, id: u64) -> bool
    ensures { IsTrue result ↔ HasName id slot.now }
{
    slot.slip.id == id && slot.state != RowState::Deleted
}

// The row that a node of the tree names, if any.
fn row_of(node: u64) -> Option<u64>
    ensures some { IfSome result (λ r. node ≡ r + 1) }
    ensures none { IfNone result (node ≡ 0) }
{
    if node == 0 { None } else { Some(node - 1) }
}
