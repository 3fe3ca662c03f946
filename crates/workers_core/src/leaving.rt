//! After its last line an actor leaves what it has locked.
ghost use Rattle.std.specs.Prelude.{ℕ, List, [], ◌∷◌, map, length, vec_len, Some, None, ◌<◌, ◌≡◌};
ghost use Rattle.std.specs.Option.{option_map};
ghost use Rattle.line_core.specs.Fits.{unlock_of, unlocks};
ghost use Rattle.line_core.specs.Hands.{Hand};
ghost use Rattle.workers_core.specs.Held.{hand_of, hands_of};
ghost use Rattle.workers_core.specs.Ready.{AllServe, Holds};
ghost use Rattle.line_core.specs.Runs.{Ran};

use crate::held::Kept;
use acts_core::SharedQueue;
use txn_core::Parcel;

/// Leaves an entry, where it is locked.
fn leave_one<Q: SharedQueue<Parcel>>(queues: &[Q], passes: &mut Vec<Q::Pass>, kept: Kept)
    requires as_many { length queues.now ≡ vec_len passes.old }
    requires serve { AllServe Q.serves queues.now passes.old.items }
    requires holds { Holds (map Q.sight passes.old.items) (hand_of kept ∷ []) }
    ensures as_many { vec_len passes.new ≡ vec_len passes.old }
    ensures serve { AllServe Q.serves queues.now passes.new.items }
    ensures holds { (ks : List Hand) → Holds (map Q.sight passes.old.items) (hand_of kept ∷ ks)
        → Holds (map Q.sight passes.new.items) ks }
    ensures ran { Ran (map Q.build queues.now) (map Q.sight passes.old.items)
        (unlock_of (hand_of kept) (hand_of kept).cargo) (map Q.sight passes.new.items) }
{
    let Kept {
        queue: number,
        row,
        id: _,
        cargo,
    } = kept;
    let queue = &queues[number as usize];
    let pass = &mut passes[number as usize];
    match cargo {
        Some(cargo) => queue.unlock(pass, row, cargo),
        None => {}
    }
}

/// Leaves each locked entry, in the order of the held list.
pub(crate) fn leave_all<Q: SharedQueue<Parcel>>(
    queues: &[Q],
    passes: &mut Vec<Q::Pass>,
    held: &mut Vec<Kept>,
)
    requires as_many { length queues.now ≡ vec_len passes.old }
    requires serve { AllServe Q.serves queues.now passes.old.items }
    requires holds { Holds (map Q.sight passes.old.items) (hands_of held.old.items) }
    ensures serve { AllServe Q.serves queues.now passes.new.items }
    ensures ran { Ran (map Q.build queues.now) (map Q.sight passes.old.items)
        (unlocks (hands_of held.old.items)) (map Q.sight passes.new.items) }
    ensures empty { held.new.items ≡ [] }
{
    held.reverse();
    'leaving: while let Some(kept) = held.pop() {
        leave_one(queues, passes, kept);
    }
}
