//! An actor's passes are split off the bosses'.
ghost use Rattle.std.specs.Prelude.{ℕ, List, IfOk, map, length, vec_len, slice_get, ◌≤◌, ◌<◌, ◌≡◌};
ghost use Rattle.defs_read.specs.Allowed.{AreAllowed};
ghost use Rattle.defs_read.specs.Defined.{queues_in};
ghost use Rattle.any_queue.specs.Kinds.{ServesAny, sight_in};
ghost use Rattle.any_queue.specs.Parting.{IsSplit, MayPart};
ghost use Rattle.workers_core.specs.Jobs.{puts_to};
ghost use Rattle.workers_core.specs.Made.{puts_in};
ghost use Rattle.workers_core.specs.Ready.{AllServe};
ghost use Rattle.phase_actors.specs.Passes.{AllMayPart, AreSplit, places_of};

use any_queue::{AnyPass, AnyQueue};
use byte_lists::{Bytes, NoMemory};
use defs_read::{Defs, QueueDef};
use script_read::{Op, What};
use std::alloc::Global;
use std::sync::Wait;
use txn_core::Parcel;

/// Whether a line puts to the queue of this number.
fn puts_to(queue: u32, what: &What) -> bool
    ensures { result ≡ puts_to queue what.now }
{
    match what {
        What::Put { queue: to, .. } => *to == queue,
        What::Take { .. }
        | What::Close { .. }
        | What::Ack { .. }
        | What::Release { .. }
        | What::Lock { .. }
        | What::Unlock { .. }
        | What::Steal { .. }
        | What::Begin
        | What::Commit
        | What::Rollback => false,
    }
}

/// How many of these lines put to the queue of this number.
pub fn puts_in(queue: u32, ops: &[Op]) -> u64
    ensures { result ≡ puts_in queue ops.now }
{
    let mut puts = 0;
    'lines: for op in ops {
        if puts_to(queue, &op.what) {
            puts += 1;
        }
    }
    puts
}

/// The places of an actor's consumers among those of a queue.
fn places_of(alloc: Global, name: &Bytes, def: &QueueDef) -> Result<Vec<u32>, NoMemory>
    requires few { vec_len def.now.consumers ≤ 64 }
    ensures { IfOk result (λ places. places.items ≡ places_of name.now def.now.consumers.items) }
{
    let Ok(mut places) = Vec::with_capacity(alloc, def.consumers.len()) else {
        return Err(NoMemory);
    };
    'consumers: for (place, consumer) in def.consumers.iter().enumerate() {
        if consumer.actor.as_slice() == name.as_slice() {
            places.push_reserved(place as u32);
        }
    }
    Ok(places)
}

/// Splits an actor's pass of one queue off its boss's.
fn split_one<R: Wait + Send + Sync + Drop>(
    alloc: Global,
    name: &Bytes,
    ops: &[Op],
    number: u32,
    def: &QueueDef,
    queue: &AnyQueue<Parcel, R>,
    boss: &mut AnyPass,
) -> Result<AnyPass, NoMemory>
    requires few { vec_len def.now.consumers ≤ 64 }
    requires serves { ServesAny queue.now boss.old }
    requires may { MayPart (sight_in boss.old) (places_of name.now def.now.consumers.items)
        (puts_in number ops.now) }
    ensures serves { IfOk result (λ t. ServesAny queue.now boss.new × ServesAny queue.now t) }
    ensures split { IfOk result (λ t. IsSplit (sight_in boss.old) (sight_in boss.new) (sight_in t)
        (places_of name.now def.now.consumers.items) (puts_in number ops.now)) }
{
    let consumers = places_of(alloc, name, def)?;
    let puts = puts_in(number, ops);
    Ok(queue.split(boss, &consumers, puts))
}

/// Splits an actor's pass of each queue off the boss's. Refuses only for want of memory; then some passes may be split
/// off and lost.
pub(crate) fn split_all<R: Wait + Send + Sync + Drop>(
    alloc: Global,
    defs: &Defs,
    name: &Bytes,
    ops: &[Op],
    queues: &[AnyQueue<Parcel, R>],
    bosses: &mut Vec<AnyPass>,
) -> Result<Vec<AnyPass>, NoMemory>
    requires allowed { AreAllowed (queues_in defs.now) }
    requires queues { length queues.now ≡ length (queues_in defs.now) }
    requires bosses { vec_len bosses.old ≡ length (queues_in defs.now) }
    requires serve { AllServe ServesAny queues.now bosses.old.items }
    requires may { AllMayPart (queues_in defs.now) name.now ops.now
        (map sight_in bosses.old.items) }
    ensures queues { IfOk result (λ passes. length queues.now ≡ vec_len passes) }
    ensures serve { IfOk result (λ _. AllServe ServesAny queues.now bosses.new.items) }
    ensures serves { IfOk result (λ passes. AllServe ServesAny queues.now passes.items) }
    ensures split { IfOk result (λ passes. AreSplit (queues_in defs.now) name.now ops.now
        (map sight_in bosses.old.items) (map sight_in bosses.new.items)
        (map sight_in passes.items)) }
{
    let Ok(mut passes) = Vec::with_capacity(alloc, queues.len()) else {
        return Err(NoMemory);
    };
    'queues: for (number, queue) in queues.iter().enumerate() {
        let def = &defs.queues[number];
        let boss = &mut bosses[number];
        let pass = split_one(alloc, name, ops, number as u32, def, queue, boss)?;
        passes.push_reserved(pass);
    }
    Ok(passes)
}
