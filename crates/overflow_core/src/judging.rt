//! What a policy says of a depth.
ghost use Rattle.std.specs.Prelude.{◌≡◌};
ghost use Rattle.std.specs.Option.{option_map};
ghost use Rattle.overflow_core.specs.Limits.{flow_of, four_fifths, is_beyond, is_over, is_passed, is_reached, is_ring, is_still_full, judged};

use crate::verdicts::Verdict;
use acts_core::{Depth, Limits, Policy};

/// Whether so many are the limit or more.
fn is_reached(limit: Option<u64>, count: u64) -> bool
    ensures { result ≡ is_reached limit count }
{
    match limit {
        Some(limit) => limit <= count,
        None => false,
    }
}

/// Whether so many are more than the limit.
fn is_passed(limit: Option<u64>, count: u128) -> bool
    ensures { result ≡ is_passed limit count }
{
    match limit {
        Some(limit) => (limit as u128) < count,
        None => false,
    }
}

/// Four fifths of a limit, rounded down.
fn four_fifths(limit: Option<u64>) -> Option<u64>
    ensures { result ≡ option_map four_fifths limit }
{
    match limit {
        Some(limit) => Some((limit as u128 * 80 / 100) as u64),
        None => None,
    }
}

/// Whether a message of this size is too much for a queue that is so full.
fn is_over(limits: &Limits, size: u64, depth: Depth) -> bool
    ensures { result ≡ is_over limits.now size depth }
{
    let bytes = depth.bytes as u128 + size as u128;
    is_reached(limits.entries, depth.entries) || is_passed(limits.bytes, bytes)
}

/// Whether the queue is still too full for a producer that was stopped.
fn is_still_full(limits: &Limits, depth: Depth) -> bool
    ensures { result ≡ is_still_full limits.now depth }
{
    is_passed(four_fifths(limits.entries), depth.entries as u128)
        || is_passed(four_fifths(limits.bytes), depth.bytes as u128)
}

/// Whether the oldest entries of a full queue are dropped.
pub fn is_ring(limits: &Limits) -> bool
    ensures { result ≡ is_ring limits.now }
{
    match limits.policy {
        Policy::Ring => true,
        _ => false,
    }
}

/// Whether the queue has more entries, or more bytes, than it may.
pub fn is_beyond(limits: &Limits, depth: Depth) -> bool
    ensures { result ≡ is_beyond limits.now depth }
{
    is_passed(limits.entries, depth.entries as u128) || is_passed(limits.bytes, depth.bytes as u128)
}

/// What a producer is answered that may be stopped.
fn flow(stopped: &mut bool, full: bool, over: bool, depth: Depth) -> Verdict
    ensures { (result, stopped.new) ≡ flow_of stopped.old full over depth }
{
    *stopped = (*stopped && full) || over;
    if *stopped {
        Verdict::Blocked(depth)
    } else {
        Verdict::Admitted
    }
}

/// What becomes of a put, by the depth that its reservation showed.
pub fn judge(
    limits: &Limits,
    stopped: &mut bool,
    persistent: bool,
    size: u64,
    depth: Depth,
) -> Verdict
    ensures { (result, stopped.new) ≡ judged limits.now stopped.old persistent size depth }
{
    let over = is_over(limits, size, depth);
    match limits.policy {
        Policy::None => Verdict::Admitted,
        Policy::Ring => Verdict::Admitted,
        Policy::Reject => {
            if over {
                Verdict::Rejected(depth)
            } else {
                Verdict::Admitted
            }
        }
        Policy::FlowControl => flow(stopped, is_still_full(limits, depth), over, depth),
        Policy::FlowToDisk => {
            if over && persistent {
                Verdict::Flowed
            } else {
                Verdict::Admitted
            }
        }
    }
}
