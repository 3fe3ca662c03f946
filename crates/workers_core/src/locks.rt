//! Locks and unlocks of entries that stay in the hands.
ghost use Rattle.std.specs.Prelude.{vec_len, vec_capacity, ◌<◌, ◌≡◌, ◌≤◌, List, Some, None, slice_get};
ghost use Rattle.std.specs.Option.{IfNone, IfSome, option_map};
ghost use Rattle.queue_model.specs.Keyed.{Apart};
ghost use Rattle.script_read.specs.declared.lines.What.TheVariants.{Lock, Unlock};
ghost use Rattle.txn_core.specs.Parcels.{load_of};
ghost use Rattle.line_core.specs.Hands.{Hand, replaced, same_hand};
ghost use Rattle.workers_core.specs.Held.{hands_of};
ghost use Rattle.workers_core.specs.Hold.{Hold, KeepsOthers};
ghost use Rattle.workers_core.specs.Lines.{DidHands};

use crate::held::{Kept, meant_at};
use acts_core::{Locking, SharedQueue};
use report_core::Answer;
use txn_core::Parcel;

/// The entry at this place is locked again, and this is its cargo.
fn lock_at(held: &mut Vec<Kept>, at: usize, cargo: Parcel)
    requires there { at < vec_len held.old }
    ensures locked { (k : Hand) → Apart same_hand (hands_of held.old.items)
        → slice_get (hands_of held.old.items) at ≡ Some k
        → hands_of held.new.items
        ≡ replaced (record k { cargo = Some (load_of cargo) }) (hands_of held.old.items) }
    ensures room { (vec_len held.new ≡ vec_len held.old) × (vec_capacity held.new ≡ vec_capacity held.old) }
{
    held[at].cargo = Some(cargo);
}

/// The entry at this place is left: its cargo, if it was locked.
fn leave_at(held: &mut Vec<Kept>, at: usize) -> Option<Parcel>
    requires there { at < vec_len held.old }
    ensures cargo { (k : Hand) → slice_get (hands_of held.old.items) at ≡ Some k → option_map load_of result ≡ k.cargo }
    ensures left { (k : Hand) → Apart same_hand (hands_of held.old.items)
        → slice_get (hands_of held.old.items) at ≡ Some k
        → hands_of held.new.items ≡ replaced (record k { cargo = None }) (hands_of held.old.items) }
    ensures room { (vec_len held.new ≡ vec_len held.old) × (vec_capacity held.new ≡ vec_capacity held.old) }
{
    held[at].cargo.take()
}

/// Does a lock line: the entry that it means, which the actor had left, is locked again.
pub(crate) fn lock_line<Q: SharedQueue<Parcel>>(
    queue: &Q,
    pass: &mut Q::Pass,
    held: &mut Vec<Kept>,
    number: u32,
    id: Option<u64>,
) -> Answer
    requires serves { Q.serves queue.now pass.old }
    requires hold { Hold (Q.sight pass.old) number (hands_of held.old.items) }
    ensures serves { Q.serves queue.now pass.new }
    ensures hold { Hold (Q.sight pass.new) number (hands_of held.new.items) }
    ensures others { KeepsOthers number (hands_of held.old.items) (hands_of held.new.items) }
    ensures did { DidHands (Q.build queue.now) number (Q.sight pass.old) (hands_of held.old.items)
        (Lock number id) result (Q.sight pass.new) (hands_of held.new.items) }
    ensures room { (vec_len held.new ≤ vec_len held.old) × (vec_capacity held.new ≡ vec_capacity held.old) }
{
    let Some(at) = meant_at(held, number, id) else {
        return Answer::NotHeld;
    };
    let kept = &held[at];
    if kept.cargo.is_some() {
        return Answer::NotHeld;
    }
    let row = kept.row;
    let id = kept.id;
    match queue.lock(pass, row) {
        Locking::Locked(cargo) => {
            lock_at(held, at, cargo);
            Answer::Locked { id }
        }
        Locking::Stolen(state) => {
            held.remove(at);
            Answer::Stolen { state }
        }
    }
}

/// Does an unlock line: the entry that it means, which the actor has locked, is left.
pub(crate) fn unlock_line<Q: SharedQueue<Parcel>>(
    queue: &Q,
    pass: &mut Q::Pass,
    held: &mut Vec<Kept>,
    number: u32,
    id: Option<u64>,
) -> Answer
    requires serves { Q.serves queue.now pass.old }
    requires hold { Hold (Q.sight pass.old) number (hands_of held.old.items) }
    ensures serves { Q.serves queue.now pass.new }
    ensures hold { Hold (Q.sight pass.new) number (hands_of held.new.items) }
    ensures others { KeepsOthers number (hands_of held.old.items) (hands_of held.new.items) }
    ensures did { DidHands (Q.build queue.now) number (Q.sight pass.old) (hands_of held.old.items)
        (Unlock number id) result (Q.sight pass.new) (hands_of held.new.items) }
    ensures room { (vec_len held.new ≤ vec_len held.old) × (vec_capacity held.new ≡ vec_capacity held.old) }
{
    let Some(at) = meant_at(held, number, id) else {
        return Answer::NotHeld;
    };
    let kept = &held[at];
    let row = kept.row;
    let id = kept.id;
    match leave_at(held, at) {
        Some(cargo) => {
            queue.unlock(pass, row, cargo);
            Answer::Unlocked { id }
        }
        None => Answer::NotHeld,
    }
}
