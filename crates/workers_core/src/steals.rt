//! Steals.
ghost use Rattle.std.specs.Prelude.{vec_len, vec_capacity, ◌<◌, ◌+◌, ◌≤◌, ◌≡◌};
ghost use Rattle.script_read.specs.declared.lines.What.TheVariants.{Steal};
ghost use Rattle.workers_core.specs.Held.{hands_of};
ghost use Rattle.workers_core.specs.Hold.{Hold, KeepsOthers};
ghost use Rattle.workers_core.specs.Lines.{DidHands};

use crate::held::{Kept, gain};
use acts_core::{Cargo, SharedQueue, Stealing};
use report_core::Answer;
use txn_core::Parcel;

/// Does a steal line: looks for the entry of this id, and takes it over from whoever left it.
pub(crate) fn steal_line<Q: SharedQueue<Parcel>>(
    queue: &Q,
    pass: &mut Q::Pass,
    held: &mut Vec<Kept>,
    number: u32,
    id: u64,
) -> Answer
    requires serves { Q.serves queue.now pass.old }
    requires hold { Hold (Q.sight pass.old) number (hands_of held.old.items) }
    requires room { vec_len held.old < vec_capacity held.old }
    ensures serves { Q.serves queue.now pass.new }
    ensures hold { Hold (Q.sight pass.new) number (hands_of held.new.items) }
    ensures others { KeepsOthers number (hands_of held.old.items) (hands_of held.new.items) }
    ensures did { DidHands (Q.build queue.now) number (Q.sight pass.old) (hands_of held.old.items)
        (Steal number id) result (Q.sight pass.new) (hands_of held.new.items) }
    ensures room { (vec_len held.new ≤ vec_len held.old + 1) × (vec_capacity held.new ≡ vec_capacity held.old) }
{
    match queue.find(pass, id) {
        None => Answer::Absent,
        Some(row) => match queue.steal(pass, row) {
            Stealing::Stolen(cargo) => {
                let got = cargo.id();
                gain(
                    held,
                    Kept {
                        queue: number,
                        row,
                        id: got,
                        cargo: Some(cargo),
                    },
                );
                Answer::Stole { id }
            }
            Stealing::NotStealable(state) => Answer::NotStealable { state },
            Stealing::Moved(state) => Answer::Moved { state },
        },
    }
}
