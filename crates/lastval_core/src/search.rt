//! Where a key stands among the last rows.
ghost use Rattle.std.specs.Prelude.{ℕ, ◌≡◌, ◌≢◌, ◌<◌, ◌≤◌, None, IfSome, IfNone, length, slice_index};
ghost use Rattle.queue_model.specs.Order.{KeyBefore};
ghost use Rattle.lastval_core.specs.Lasts.{key_at};
ghost use Rattle.lastval_core.specs.Places.{IsPlace};

use acts_core::Freight;
use byte_lists::Bytes;
use kept_rows::KeptRows;
use row_order::{ArrivalOrder, KeyOrder, Ranking};
use std::cmp::Ordering;

/// Where a key stands among the last rows.
#[derive(Clone, Copy, Debug)]
pub(crate) enum Place {
    /// It stands at this index.
    At(usize),
    /// It does not stand there, and would at this index.
    Before(usize),
}

// Finds a key by halving.
fn place_of<C: Freight>(
    rows: &KeptRows<C, ArrivalOrder>,
    lasts: &[u64],
    key: &Option<Bytes>,
) -> Place
    requires inside { (i : ℕ) → i < length lasts.now
        → slice_index lasts.now i < length rows.now.rows }
    requires sorted { (i j : ℕ) → i < j → j < length lasts.now
        → KeyBefore (key_at rows.now (slice_index lasts.now i))
        (key_at rows.now (slice_index lasts.now j)) }
    ensures { IsPlace rows.now lasts.now key.now result }
{
    let mut low = 0;
    let mut high = lasts.len();
    'halving: while low < high {
        let middle = low + (high - low) / 2;
        match KeyOrder::compare(rows.key(lasts[middle]), key) {
            Ordering::Equal => return Place::At(middle),
            Ordering::Less => low = middle + 1,
            Ordering::Greater => high = middle,
        }
    }
    Place::Before(low)
}

/// Finds a key, where it is one.
pub(crate) fn key_place<C: Freight>(
    rows: &KeptRows<C, ArrivalOrder>,
    lasts: &[u64],
    key: &Option<Bytes>,
) -> Option<Place>
    requires inside { (i : ℕ) → i < length lasts.now
        → slice_index lasts.now i < length rows.now.rows }
    requires sorted { (i j : ℕ) → i < j → j < length lasts.now
        → KeyBefore (key_at rows.now (slice_index lasts.now i))
        (key_at rows.now (slice_index lasts.now j)) }
    ensures some { IfSome result (λ p. (key.now ≢ None) × IsPlace rows.now lasts.now key.now p) }
    ensures none { IfNone result (key.now ≡ None) }
{
    match key {
        Some(_) => Some(place_of(rows, lasts, key)),
        None => None,
    }
}
