//! What a full ring drops.
ghost use Rattle.overflow_core.specs.Calls.{Trimmed};

use crate::judging::{is_beyond, is_ring};
use crate::verdicts::Trim;
use acts_core::{Cargo, Limits, Next, SharedQueue};

/// Looks at the depth of a ring, and acquires its oldest entry where it is beyond its limits. `Nothing` comes
/// only where `oldest` answered that there is none. Does nothing to a queue with another policy. Takes no
/// memory.
pub fn trim_ring<C: Cargo, Q: SharedQueue<C>>(
    queue: &Q,
    pass: &mut Q::Pass,
    limits: &Limits,
) -> Trim<C>
    requires serves { Q.serves queue.now pass.old }
    ensures serves { Q.serves queue.now pass.new }
    ensures trimmed { Trimmed C.load (Q.build queue.now) (Q.sight pass.old) (Q.sight pass.new)
        limits.now result }
{
    if !is_ring(limits) {
        return Trim::Fits;
    }
    let depth = queue.depth(pass);
    if !is_beyond(limits, depth) {
        return Trim::Fits;
    }
    match queue.oldest(pass) {
        Next::Got { row, cargo } => Trim::Over { row, cargo },
        Next::Empty => Trim::Nothing,
    }
}
