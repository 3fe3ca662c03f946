//! Callers of any queue, each a few calls in a row: what queues are tried with, and how the clauses of one
//! call carry to the next.
ghost use Rattle.std.specs.Prelude.{◌≡◌, ◌<◌};
ghost use mathlib.Core.List.{Mem};
ghost use Rattle.queue_model.specs.Table.{FitsQueue};
ghost use Rattle.acts_core.specs.Asked.{KeyFits};
ghost use Rattle.acts_core.specs.Replies.{of_put};
ghost use Rattle.acts_core.specs.Runs.{PutsIn, TakesOut, LeavesTwo};
ghost use Rattle.acts_core.specs.Sight.{known};

use crate::cargoes::{Cargo, Next, Placed};
use crate::shared::SharedQueue;
use queue_model::Slip;

/// Reserves an entry and puts it. Where it is `Spent`, the reservation stays.
pub fn put_in<C: Cargo, Q: SharedQueue<C>>(
    queue: &Q,
    pass: &mut Q::Pass,
    slip: Slip,
    cargo: C,
) -> Placed<C>
    requires serves { Q.serves queue.now pass.old }
    requires allowed { 0 < (Q.sight pass.old).allowance }
    requires fits { FitsQueue (known (Q.sight pass.old)).lists
        (known (Q.sight pass.old)).consumers slip }
    requires key { KeyFits (Q.build queue.now).kind slip.key }
    requires id { slip.id ≡ (C.load cargo).id }
    requires size { slip.size ≡ (C.load cargo).size }
    ensures serves { Q.serves queue.now pass.new }
    ensures puts { PutsIn (Q.build queue.now) (Q.sight pass.old) (Q.sight pass.new)
        slip (C.load cargo) (of_put C.load result) }
{
    queue.reserve(pass, slip.size);
    queue.put(pass, slip, cargo)
}

/// Takes the next entry of a consumer out of the queue, and answers its id.
pub fn take_out<C: Cargo, Q: SharedQueue<C>>(
    queue: &Q,
    pass: &mut Q::Pass,
    consumer: u32,
) -> Option<u64>
    requires serves { Q.serves queue.now pass.old }
    requires consumer { Mem consumer (Q.sight pass.old).consumers }
    ensures serves { Q.serves queue.now pass.new }
    ensures takes { TakesOut (Q.build queue.now) (Q.sight pass.old) (Q.sight pass.new)
        consumer result }
{
    match queue.next(pass, consumer) {
        Next::Got { row, cargo } => {
            queue.dequeue(pass, row);
            queue.delete(pass, row);
            Some(cargo.id())
        }
        Next::Empty => None,
    }
}

/// Acquires the next two entries of a consumer and leaves them again, the later one first. Answers how many
/// there were.
pub fn leave_two<C: Cargo, Q: SharedQueue<C>>(queue: &Q, pass: &mut Q::Pass, consumer: u32) -> u32
    requires serves { Q.serves queue.now pass.old }
    requires consumer { Mem consumer (Q.sight pass.old).consumers }
    ensures serves { Q.serves queue.now pass.new }
    ensures leaves { LeavesTwo (Q.build queue.now) (Q.sight pass.old) (Q.sight pass.new)
        consumer result }
{
    match queue.next(pass, consumer) {
        Next::Got {
            row: first,
            cargo: goods,
        } => match queue.next(pass, consumer) {
            Next::Got { row: second, cargo } => {
                queue.unlock(pass, second, cargo);
                queue.unlock(pass, first, goods);
                2
            }
            Next::Empty => {
                queue.unlock(pass, first, goods);
                1
            }
        },
        Next::Empty => 0,
    }
}
