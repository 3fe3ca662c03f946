//! Entries that are dropped for a put: the one that it displaced, and the oldest ones of a full ring.
ghost use Rattle.std.specs.Prelude.{vec_len, vec_capacity, true, Some, is_some, ◌<◌, ◌+◌, ◌≤◌, ◌≡◌};
ghost use Rattle.std.specs.Option.{option_map};
ghost use Rattle.overflow_core.specs.Limits.{is_ring};
ghost use Rattle.txn_core.specs.Parcels.{load_of};
ghost use Rattle.line_core.specs.Fits.{DropsOlder, TrimsRing};
ghost use Rattle.workers_core.specs.Drops.{left_to};
ghost use Rattle.workers_core.specs.Held.{hands_of};
ghost use Rattle.workers_core.specs.Hold.{Hold, HoldsAlso, KeepsOthers};
ghost use Rattle.workers_core.specs.Lines.{Drops};

use crate::held::{Kept, lose};
use acts_core::{Cargo, Limits, SharedQueue};
use overflow_core::{Trim, trim_ring};
use report_core::Dropped;
use txn_core::Parcel;

/// Drops an entry that was acquired: takes it out of the queue, and keeps its name.
fn drop_entry<Q: SharedQueue<Parcel>>(
    queue: &Q,
    pass: &mut Q::Pass,
    held: &mut Vec<Kept>,
    drops: &mut Vec<Dropped>,
    number: u32,
    row: u64,
    cargo: Parcel,
)
    requires serves { Q.serves queue.now pass.old }
    requires hold { HoldsAlso (Q.sight pass.old) number (Some (row, load_of cargo)) (hands_of held.old.items) }
    requires room { 0 < left_to (Q.build queue.now) (Q.sight pass.old) → vec_len drops.old < vec_capacity drops.old }
    ensures serves { Q.serves queue.now pass.new }
    ensures hold { Hold (Q.sight pass.new) number (hands_of held.new.items) }
    ensures others { KeepsOthers number (hands_of held.old.items) (hands_of held.new.items) }
    ensures did { Drops (DropsOlder number (Some (row, load_of cargo))) (Q.build queue.now) number
        (Q.sight pass.old) (hands_of held.old.items) drops.old.items
        (Q.sight pass.new) (hands_of held.new.items) drops.new.items }
    ensures room { (vec_len held.new ≤ vec_len held.old) × (vec_capacity held.new ≡ vec_capacity held.old)
        × (vec_capacity drops.new ≡ vec_capacity drops.old) }
{
    let id = cargo.id();
    queue.dequeue(pass, row);
    queue.delete(pass, row);
    lose(held, number, id);
    drops.push_reserved(Dropped {
        queue: number,
        id,
        kept: false,
    });
}

/// Drops the older entry that a put displaced, if any.
pub(crate) fn drop_older<Q: SharedQueue<Parcel>>(
    queue: &Q,
    pass: &mut Q::Pass,
    held: &mut Vec<Kept>,
    drops: &mut Vec<Dropped>,
    number: u32,
    displaced: Option<(u64, Parcel)>,
)
    requires serves { Q.serves queue.now pass.old }
    requires hold { HoldsAlso (Q.sight pass.old) number (option_map (λ d. (d.0, load_of d.1)) displaced)
        (hands_of held.old.items) }
    requires room { is_some displaced ≡ true → 0 < left_to (Q.build queue.now) (Q.sight pass.old)
        → vec_len drops.old < vec_capacity drops.old }
    ensures serves { Q.serves queue.now pass.new }
    ensures hold { Hold (Q.sight pass.new) number (hands_of held.new.items) }
    ensures others { KeepsOthers number (hands_of held.old.items) (hands_of held.new.items) }
    ensures did { Drops (DropsOlder number (option_map (λ d. (d.0, load_of d.1)) displaced)) (Q.build queue.now)
        number (Q.sight pass.old) (hands_of held.old.items) drops.old.items
        (Q.sight pass.new) (hands_of held.new.items) drops.new.items }
    ensures room { (vec_len held.new ≤ vec_len held.old) × (vec_capacity held.new ≡ vec_capacity held.old)
        × (vec_capacity drops.new ≡ vec_capacity drops.old) }
{
    match displaced {
        Some((row, cargo)) => drop_entry(queue, pass, held, drops, number, row, cargo),
        None => {}
    }
}

/// Drops the oldest entries of a ring, one after the other, until it is within its limits or no entry is to be had.
/// Does nothing to a queue that is no ring.
pub(crate) fn trim<Q: SharedQueue<Parcel>>(
    queue: &Q,
    pass: &mut Q::Pass,
    limits: &Limits,
    held: &mut Vec<Kept>,
    drops: &mut Vec<Dropped>,
    number: u32,
)
    requires serves { Q.serves queue.now pass.old }
    requires hold { Hold (Q.sight pass.old) number (hands_of held.old.items) }
    requires room { is_ring limits.now ≡ true
        → vec_len drops.old + left_to (Q.build queue.now) (Q.sight pass.old) ≤ vec_capacity drops.old }
    ensures serves { Q.serves queue.now pass.new }
    ensures hold { Hold (Q.sight pass.new) number (hands_of held.new.items) }
    ensures others { KeepsOthers number (hands_of held.old.items) (hands_of held.new.items) }
    ensures did { Drops (TrimsRing (is_ring limits.now) limits.now number) (Q.build queue.now) number
        (Q.sight pass.old) (hands_of held.old.items) drops.old.items
        (Q.sight pass.new) (hands_of held.new.items) drops.new.items }
    ensures room { (vec_len held.new ≤ vec_len held.old) × (vec_capacity held.new ≡ vec_capacity held.old)
        × (vec_capacity drops.new ≡ vec_capacity drops.old) }
{
    'trimming: loop {
        match trim_ring(queue, pass, limits) {
            Trim::Over { row, cargo } => drop_entry(queue, pass, held, drops, number, row, cargo),
            Trim::Fits => return,
            Trim::Nothing => return,
        }
    }
}
