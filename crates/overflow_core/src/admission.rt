//! Whether a put is admitted.
ghost use Rattle.std.specs.Prelude.{◌<◌, ◌≤◌};
ghost use Rattle.queue_model.specs.Table.{most_bytes};
ghost use Rattle.overflow_core.specs.Calls.{Admits};

use crate::judging::judge;
use crate::verdicts::Verdict;
use acts_core::{Cargo, Limits, SharedQueue};

/// Reserves an entry of this size, in bytes, and decides from the depth that this showed what becomes of the
/// put. `Rejected` and `Blocked` give the reservation back; else it stays, and the put may follow. `stopped`
/// is whether flow control has stopped the producer on this queue, before and after. Takes no memory.
pub fn admit<C: Cargo, Q: SharedQueue<C>>(
    queue: &Q,
    pass: &mut Q::Pass,
    limits: &Limits,
    stopped: &mut bool,
    persistent: bool,
    size: u64,
) -> Verdict
    requires serves { Q.serves queue.now pass.old }
    requires size { size ≤ most_bytes }
    requires allowed { 0 < (Q.sight pass.old).allowance }
    ensures serves { Q.serves queue.now pass.new }
    ensures admits { Admits (Q.build queue.now) (Q.sight pass.old) (Q.sight pass.new)
        limits.now stopped.old stopped.new persistent size result }
{
    let depth = queue.reserve(pass, size);
    let verdict = judge(limits, stopped, persistent, size, depth);
    if verdict.is_refusal() {
        queue.give_back(pass, size);
    }
    verdict
}
