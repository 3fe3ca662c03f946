//! Queue order of two rows.
ghost use Rattle.std.specs.Prelude.{◌≡◌, ◌<◌, IsTrue, ◌↔◌, length, Bool, true, false};
ghost use Rattle.row_order.specs.Order.{key_cmp, rank, ranks, before};

use crate::slots::Slot;
use byte_lists::Bytes;
use std::cmp::Ordering;

/// How a queue orders its rows: by key and then by arrival, or by arrival alone.
pub trait Ranking {
    /// Whether it goes by key.
    ghost by_key: { Bool };

    /// How two keys compare. In an order by arrival all are equal.
    fn compare(a: &Option<Bytes>, b: &Option<Bytes>) -> Ordering
        ensures { result ≡ key_cmp (rank by_key a.now) (rank by_key b.now) };
}

/// By key in byte order, then by arrival; rows without a key last.
pub struct KeyOrder;

impl Ranking for KeyOrder {
    ghost by_key = { true };

    fn compare(a: &Option<Bytes>, b: &Option<Bytes>) -> Ordering {
        compare_keys(a, b)
    }
}

/// By arrival.
pub struct ArrivalOrder;

impl Ranking for ArrivalOrder {
    ghost by_key = { false };

    fn compare(a: &Option<Bytes>, b: &Option<Bytes>) -> Ordering {
        let _a = a;
        let _b = b;
        Ordering::Equal
    }
}

// How two keys compare in byte order. No key comes after every key.
fn compare_keys(a: &Option<Bytes>, b: &Option<Bytes>) -> Ordering
    ensures { result ≡ key_cmp a.now b.now }
{
    match (a, b) {
        (Some(a), Some(b)) => a.as_slice().cmp(b.as_slice()),
        (Some(_), None) => Ordering::Less,
        (None, Some(_)) => Ordering::Greater,
        (None, None) => Ordering::Equal,
    }
}

/// Whether row a comes before row b in queue order.
pub fn is_before<C, O: Ranking>(slots: &[Slot<C>], a: u64, b: u64) -> bool
    requires { (a < length slots.now) × (b < length slots.now) }
    ensures { IsTrue result ↔ before (ranks O.by_key slots.now) a b }
{
    match O::compare(&slots[a as usize].slip.key, &slots[b as usize].slip.key) {
        Ordering::Less => true,
        Ordering::Greater => false,
        Ordering::Equal => a < b,
    }
}
