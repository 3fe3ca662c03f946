//! The tree of winners. Of a tree of `width` leaves node 1 is the root, the nodes below i are 2 i
//! and 2 i + 1, and the
//! leaf of row r is node `width + r`. A node is 0, or one more than a row: a leaf its own row where
//! that is available, an
//! inner node the row of the two nodes below that comes first.
ghost use Rattle.std.specs.Prelude.{◌≡◌, ◌≢◌, ◌↔◌, IsTrue, ℕ, ◌+◌, ◌*◌, ◌^◌, ◌<◌, ◌≤◌, ◌⊎◌, suc, length, slice_index, Option, List, vec_len, vec_capacity};
ghost use Rattle.row_order.specs.Order.{ranks, IsWanted};
ghost use Rattle.row_order.specs.Tree.{IsWinner, Crowned, Leafed, SameLeaves, LeafSet, FirstBelow, Leftmost, OffPath, Drained};

use crate::order::{Ranking, is_before};
use crate::slots::Slot;

/// The one of two nodes whose row comes first.
pub fn winner<C, O: Ranking>(slots: &[Slot<C>], a: u64, b: u64) -> u64
    requires { (a ≤ length slots.now) × (b ≤ length slots.now) }
    ensures { IsWinner (ranks O.by_key slots.now) a b result }
{
    if a == 0 {
        return b;
    }
    if b == 0 {
        return a;
    }
    if is_before::<C, O>(slots, b - 1, a - 1) {
        b
    } else {
        a
    }
}

// Puts the inner nodes on the way from a node to the root right. All others are right.
fn settle<C, O: Ranking>(slots: &[Slot<C>], nodes: &mut [u64], width: usize, node: usize)
    requires node { (0 < node) × (node < 2 * width) }
    requires leaves { Leafed width (length slots.now) nodes.old }
    requires others { OffPath (ranks O.by_key slots.now) width nodes.old node }
    ensures tree { Crowned (ranks O.by_key slots.now) width (length slots.now) nodes.new }
    ensures same { SameLeaves width nodes.old nodes.new }
{
    let mut at = node;
    'rising: while at > 1 {
        at /= 2;
        let best = winner::<C, O>(slots, nodes[2 * at], nodes[2 * at + 1]);
        if nodes[at] == best {
            return;
        }
        nodes[at] = best;
    }
}

/// Makes a row available or not: its leaf becomes the word.
pub fn set_leaf<C, O: Ranking>(
    slots: &[Slot<C>],
    nodes: &mut [u64],
    width: usize,
    row: u64,
    word: u64,
)
    requires tree { Crowned (ranks O.by_key slots.now) width (length slots.now) nodes.old }
    requires inside { (row < width) × (row < length slots.now) }
    requires word { (word ≡ 0) ⊎ (word ≡ suc row) }
    ensures tree { Crowned (ranks O.by_key slots.now) width (length slots.now) nodes.new }
    ensures leaf { LeafSet width nodes.old nodes.new row word }
{
    let node = width + row as usize;
    nodes[node] = word;
    settle::<C, O>(slots, nodes, width, node);
}

/// Puts all inner nodes right.
pub fn crown<C, O: Ranking>(slots: &[Slot<C>], nodes: &mut [u64], width: usize)
    requires leaves { Leafed width (length slots.now) nodes.old }
    ensures tree { Crowned (ranks O.by_key slots.now) width (length slots.now) nodes.new }
    ensures same { SameLeaves width nodes.old nodes.new }
{
    let mut at = width;
    'crowning: while at > 1 {
        at -= 1;
        nodes[at] = winner::<C, O>(slots, nodes[2 * at], nodes[2 * at + 1]);
    }
}

// Whether the consumer's selector is true of a row.
fn wants<C>(slots: &[Slot<C>], row: u64, consumer: u32) -> bool
    requires { (row < length slots.now) × (consumer < 64) }
    ensures { IsTrue result ↔ IsWanted slots.now consumer row }
{
    (slots[row as usize].slip.mask >> consumer) & 1 == 1
}

/// The first available row below a node that the consumer wants, plus one; 0 where there is none.
pub fn first_wanted<C, O: Ranking>(
    slots: &[Slot<C>],
    nodes: &[u64],
    width: usize,
    node: usize,
    consumer: u32,
) -> u64
    requires tree { Crowned (ranks O.by_key slots.now) width (length slots.now) nodes.now }
    requires node { (0 < node) × (node < 2 * width) }
    requires consumer { consumer < 64 }
    ensures { FirstBelow (ranks O.by_key slots.now) width nodes.now node
        (IsWanted slots.now consumer) result }
{
    let best = nodes[node];
    if best == 0 {
        return 0;
    }
    if wants(slots, best - 1, consumer) {
        return best;
    }
    if node >= width {
        return 0;
    }
    let left = first_wanted::<C, O>(slots, nodes, width, 2 * node, consumer);
    let right = first_wanted::<C, O>(slots, nodes, width, 2 * node + 1, consumer);
    winner::<C, O>(slots, left, right)
}

/// The available row of the least number, plus one; 0 where there is none.
pub fn leftmost(nodes: &[u64], width: usize) -> u64
    requires tree { (ks : ℕ → Option (List ℕ)) × (n : ℕ) × Crowned ks width n nodes.now }
    requires width { (k : ℕ) × (width ≡ 2 ^ k) }
    ensures { Leftmost width nodes.now result }
{
    if nodes[1] == 0 {
        return 0;
    }
    let mut node = 1;
    let mut span = width;
    'descending: while span > 1 {
        span /= 2;
        node *= 2;
        if nodes[node] == 0 {
            node += 1;
        }
    }
    nodes[node]
}

/// Moves the leaves of a tree to where they stand in a wider one, which has no leaves yet, and puts
/// all inner nodes
/// right.
pub fn widen<C, O: Ranking>(slots: &[Slot<C>], nodes: &mut [u64], old: usize, width: usize)
    requires width { (0 < old) × (2 * old ≤ width) }
    requires long { length nodes.old ≡ 2 * width }
    requires inside { (i : ℕ) → i < 2 * width → slice_index nodes.old i ≤ length slots.now }
    requires leaves { (r : ℕ) → r < old →
        (slice_index nodes.old (old + r) ≡ 0) ⊎ (slice_index nodes.old (old + r) ≡ suc r) }
    requires empty { (i : ℕ) → width ≤ i → slice_index nodes.old i ≡ 0 }
    ensures tree { Crowned (ranks O.by_key slots.now) width (length slots.now) nodes.new }
    ensures moved { (r : ℕ) → r < old →
        slice_index nodes.new (width + r) ≡ slice_index nodes.old (old + r) }
    ensures empty { (r : ℕ) → old ≤ r → slice_index nodes.new (width + r) ≡ 0 }
{
    let mut row = 0;
    'moving: while row < old {
        nodes[width + row] = nodes[old + row];
        row += 1;
    }
    crown::<C, O>(slots, nodes, width);
}

/// Takes all available rows out of a tree, and lists them in order.
pub fn drain<C, O: Ranking>(
    slots: &[Slot<C>],
    nodes: &mut [u64],
    width: usize,
    order: &mut Vec<u64>,
)
    requires tree { Crowned (ranks O.by_key slots.now) width (length slots.now) nodes.old }
    requires width { 0 < width }
    requires room { (vec_len order.old ≡ 0) × (length slots.now ≤ vec_capacity order.old) }
    ensures drained { Drained (ranks O.by_key slots.now) width nodes.old order.new.items }
{
    'draining: while nodes[1] > 0 {
        let row = nodes[1] - 1;
        order.push_reserved(row);
        set_leaf::<C, O>(slots, nodes, width, row, 0);
    }
}
