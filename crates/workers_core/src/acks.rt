//! Lines that end with an entry out of the hands: acknowledgements and releases.
ghost use Rattle.std.specs.Prelude.{vec_len, vec_capacity, ◌≤◌, ◌≡◌};
ghost use Rattle.std.specs.Result.{IfErr, IfOk};
ghost use Rattle.std.specs.Option.{option_map};
ghost use Rattle.script_read.specs.declared.lines.What.TheVariants.{Ack, Release};
ghost use Rattle.txn_core.specs.Parcels.{load_of};
ghost use Rattle.line_core.specs.Hands.{hand};
ghost use Rattle.workers_core.specs.Held.{hands_of};
ghost use Rattle.workers_core.specs.Hold.{Hold, KeepsOthers, Mine};
ghost use Rattle.workers_core.specs.Lines.{DidHands, LocksIt, LosesIt};

use crate::held::{Kept, take_meant};
use acts_core::{Locking, Releasing, RowState, SharedQueue};
use report_core::Answer;
use txn_core::Parcel;

/// Locks an entry where it isn't locked, and answers its cargo; or the state in which it was seen, where somebody took
/// it since the actor left it.
pub(crate) fn lock_first<Q: SharedQueue<Parcel>>(
    queue: &Q,
    pass: &mut Q::Pass,
    number: u32,
    row: u64,
    id: u64,
    cargo: Option<Parcel>,
) -> Result<Parcel, RowState>
    requires serves { Q.serves queue.now pass.old }
    requires mine { Mine (Q.sight pass.old) (hand number row id (option_map load_of cargo)) }
    ensures serves { Q.serves queue.now pass.new }
    ensures ok { IfOk result (λ c. LocksIt (Q.build queue.now) number row id (option_map load_of cargo)
        (load_of c) (Q.sight pass.old) (Q.sight pass.new)) }
    ensures err { IfErr result (λ s. LosesIt (Q.build queue.now) number row (option_map load_of cargo) s
        (Q.sight pass.old) (Q.sight pass.new)) }
{
    match cargo {
        Some(cargo) => Ok(cargo),
        None => match queue.lock(pass, row) {
            Locking::Locked(cargo) => Ok(cargo),
            Locking::Stolen(state) => Err(state),
        },
    }
}

/// Does an ack line: the entry that it means is locked, if it isn't, and taken out of its queue.
pub(crate) fn ack_line<Q: SharedQueue<Parcel>>(
    queue: &Q,
    pass: &mut Q::Pass,
    held: &mut Vec<Kept>,
    number: u32,
    id: Option<u64>,
) -> Answer
    requires serves { Q.serves queue.now pass.old }
    requires hold { Hold (Q.sight pass.old) number (hands_of held.old.items) }
    ensures serves { Q.serves queue.now pass.new }
    ensures hold { Hold (Q.sight pass.new) number (hands_of held.new.items) }
    ensures others { KeepsOthers number (hands_of held.old.items) (hands_of held.new.items) }
    ensures did { DidHands (Q.build queue.now) number (Q.sight pass.old) (hands_of held.old.items)
        (Ack number id) result (Q.sight pass.new) (hands_of held.new.items) }
    ensures room { (vec_len held.new ≤ vec_len held.old) × (vec_capacity held.new ≡ vec_capacity held.old) }
{
    let Some(kept) = take_meant(held, number, id) else {
        return Answer::NotHeld;
    };
    let row = kept.row;
    let id = kept.id;
    match lock_first(queue, pass, number, row, id, kept.cargo) {
        Err(state) => Answer::Stolen { state },
        Ok(_cargo) => {
            queue.dequeue(pass, row);
            queue.delete(pass, row);
            Answer::Acked { id }
        }
    }
}

/// Does a release line: the entry that it means is locked, if it isn't, and made available again; where a later entry of
/// its key has come, it is dropped.
pub(crate) fn release_line<Q: SharedQueue<Parcel>>(
    queue: &Q,
    pass: &mut Q::Pass,
    held: &mut Vec<Kept>,
    number: u32,
    id: Option<u64>,
) -> Answer
    requires serves { Q.serves queue.now pass.old }
    requires hold { Hold (Q.sight pass.old) number (hands_of held.old.items) }
    ensures serves { Q.serves queue.now pass.new }
    ensures hold { Hold (Q.sight pass.new) number (hands_of held.new.items) }
    ensures others { KeepsOthers number (hands_of held.old.items) (hands_of held.new.items) }
    ensures did { DidHands (Q.build queue.now) number (Q.sight pass.old) (hands_of held.old.items)
        (Release number id) result (Q.sight pass.new) (hands_of held.new.items) }
    ensures room { (vec_len held.new ≤ vec_len held.old) × (vec_capacity held.new ≡ vec_capacity held.old) }
{
    let Some(kept) = take_meant(held, number, id) else {
        return Answer::NotHeld;
    };
    let row = kept.row;
    let id = kept.id;
    match lock_first(queue, pass, number, row, id, kept.cargo) {
        Err(state) => Answer::Stolen { state },
        Ok(cargo) => match queue.release(pass, row, cargo) {
            Releasing::Released => Answer::Released { id },
            Releasing::Outdated(_cargo) => {
                queue.dequeue(pass, row);
                queue.delete(pass, row);
                Answer::Outdated { id }
            }
        },
    }
}
