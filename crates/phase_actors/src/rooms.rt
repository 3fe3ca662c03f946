//! How much room an actor needs for the names of what its puts drop.
ghost use Rattle.std.specs.Prelude.{IfOk, length, ◌≤◌, ◌≡◌};
ghost use Rattle.std.specs.List.{list_any, sum_by};
ghost use Rattle.defs_read.specs.Defined.{queues_in};
ghost use Rattle.line_core.specs.Places.{kind_of};
ghost use Rattle.overflow_core.specs.Limits.{is_ring};
ghost use Rattle.workers_core.specs.Drops.{displaced_by, displaces, puts_to_ring};
ghost use Rattle.workers_core.specs.Phases.{MayDrop};

use byte_lists::NoMemory;
use defs_read::{Defs, QueueDef, QueueKind};
use queue_model::Policy;
use script_read::{Op, What};

/// Whether the oldest entries of the queue are dropped when it is full.
fn is_ring(def: &QueueDef) -> bool
    ensures { result ≡ is_ring def.now.limits }
{
    match def.limits.policy {
        Policy::Ring => true,
        Policy::None | Policy::FlowControl | Policy::FlowToDisk | Policy::Reject => false,
    }
}

/// How many entries a put to the queue can displace.
fn displaced_by(def: &QueueDef) -> u64
    ensures { result ≡ displaced_by (kind_of def.now.kind) }
{
    match def.kind {
        QueueKind::LastValue(_) => 1,
        QueueKind::Standard | QueueKind::Priority(_) | QueueKind::Sorted(_) => 0,
    }
}

/// How many entries the line can displace.
fn displaces(defs: &Defs, what: &What) -> u64
    ensures displaces { result ≡ displaces (queues_in defs.now) what.now }
    ensures few { result ≤ 1 }
{
    match what {
        What::Put { queue, .. } => match defs.queues.get(*queue as usize) {
            Some(def) => displaced_by(def),
            None => 0,
        },
        What::Take { .. }
        | What::Close { .. }
        | What::Ack { .. }
        | What::Release { .. }
        | What::Lock { .. }
        | What::Unlock { .. }
        | What::Steal { .. }
        | What::Begin
        | What::Commit
        | What::Rollback => 0,
    }
}

/// Whether the line puts to a ring.
fn puts_to_ring(defs: &Defs, what: &What) -> bool
    ensures { result ≡ puts_to_ring (queues_in defs.now) what.now }
{
    match what {
        What::Put { queue, .. } => match defs.queues.get(*queue as usize) {
            Some(def) => is_ring(def),
            None => false,
        },
        What::Take { .. }
        | What::Close { .. }
        | What::Ack { .. }
        | What::Release { .. }
        | What::Lock { .. }
        | What::Unlock { .. }
        | What::Steal { .. }
        | What::Begin
        | What::Commit
        | What::Rollback => false,
    }
}

/// How many entries these lines can displace.
fn displaced_in(defs: &Defs, ops: &[Op]) -> u64
    ensures { result ≡ sum_by (λ op. displaces (queues_in defs.now) op.what) ops.now }
{
    let mut displaced = 0;
    'lines: for op in ops {
        displaced += displaces(defs, &op.what);
    }
    displaced
}

/// Whether one of these lines puts to a ring.
fn any_to_ring(defs: &Defs, ops: &[Op]) -> bool
    ensures { result ≡ list_any (λ op. puts_to_ring (queues_in defs.now) op.what) ops.now }
{
    let mut any = false;
    'lines: for op in ops {
        any = any || puts_to_ring(defs, &op.what);
    }
    any
}

/// How many entries these lines can drop at most, where the queues of the phase have room for so many rows. Refuses
/// only where that is more than a list of drops can have.
pub(crate) fn drops_of(defs: &Defs, ops: &[Op], rows: u64) -> Result<u64, NoMemory>
    ensures { IfOk result (MayDrop (queues_in defs.now) rows ops.now) }
{
    let displaced = displaced_in(defs, ops);
    let trimmed = if any_to_ring(defs, ops) { rows } else { 0 };
    match displaced.checked_add(trimmed) {
        Some(drops) => {
            if drops <= u32::MAX as u64 {
                Ok(drops)
            } else {
                Err(NoMemory)
            }
        }
        None => Err(NoMemory),
    }
}
