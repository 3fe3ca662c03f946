//! Queues that are closed.
ghost use Rattle.std.specs.Prelude.{[], ◌≡◌, ◌++◌, ◌+◌, ◌≤◌, List, length, map, vec_capacity, vec_len};
ghost use Rattle.queue_model.specs.declared.rows.Row.{Row};
ghost use Rattle.defs_read.specs.Defined.{Defined};
ghost use Rattle.account_core.specs.Carry.{handed_on};
ghost use Rattle.account_core.specs.Phases.{AllOpen};
ghost use Rattle.account_core.specs.Texts.{RestsTell, holder_of, queue_names};
ghost use Rattle.phase_queues.specs.Closed.{AllLasting, AllLeave, AreLast, AreOfRows, NoOthers, RestsFit, TellsMore};
ghost use Rattle.phase_queues.specs.Left.{AllMayStay, lasting_in, resting_left, rows_left};
ghost use Rattle.phase_queues.specs.Opened.{AllServed, RestsHold, TellNothing, all_played, rest_names};

use acts_core::RestEntry;
use any_queue::{AnyPass, AnyQueue};
use phase_text::Rest;
use queue_model::RowState;
use report_core::Resting;
use std::sync::Wait;
use txn_core::Parcel;

/// Closes the queues of a phase, into whose bosses the passes of all callers were joined: tells of each
/// queue what it holds, and hands on the entries themselves, both in queue order, but for those of a last-value
/// queue of whose key a later one has come. Takes no memory: the room is that of `open_queues`.
pub fn close_queues<R: Wait + Drop>(
    queues: Vec<AnyQueue<Parcel, R>>,
    bosses: Vec<AnyPass>,
    rests: &mut Vec<Rest>,
    left: &mut Vec<Vec<RestEntry<Parcel>>>,
)
    requires bosses { vec_len bosses ≡ vec_len queues }
    requires serves { AllServed queues.items bosses.items }
    requires last { AreLast bosses.items }
    requires rests { vec_len rests.old ≡ vec_len queues }
    requires none { TellNothing rests.old.items }
    requires entries { RestsHold rests.old.items queues.items }
    requires left { (left.old.items ≡ []) × (vec_len queues ≤ vec_capacity left.old) }
    ensures told { (defs : List Defined) → rest_names rests.old.items ≡ queue_names defs
        → RestsTell rests.new.items defs (all_played queues.items bosses.items) }
    ensures left { (defs : List Defined) (rows : List (List Row))
        → AllOpen defs rows (all_played queues.items bosses.items)
        → rows_left left.new.items ≡ map handed_on (all_played queues.items bosses.items) }
    ensures stay { (defs : List Defined) (rows : List (List Row))
        → AllOpen defs rows (all_played queues.items bosses.items)
        → AllMayStay defs left.new.items }
    ensures rows { AreOfRows (all_played queues.items bosses.items) left.new.items }
    ensures callers { NoOthers bosses.items }
{
    close_all(queues, bosses, left);
    tell_all(rests, left.as_slice());
    leave_out_all(left);
}

// Closes the queues, from the last one on, and puts what they leave into their order.
fn close_all<R: Wait + Drop>(
    queues: Vec<AnyQueue<Parcel, R>>,
    bosses: Vec<AnyPass>,
    left: &mut Vec<Vec<RestEntry<Parcel>>>,
)
    requires bosses { vec_len bosses ≡ vec_len queues }
    requires serves { AllServed queues.items bosses.items }
    requires last { AreLast bosses.items }
    requires left { (left.old.items ≡ []) × (vec_len queues ≤ vec_capacity left.old) }
    ensures { AllLeave queues.items bosses.items left.new.items }
{
    let mut queues = queues;
    let mut bosses = bosses;
    'queues: while let Some(queue) = queues.pop() {
        match bosses.pop() {
            Some(boss) => left.push_reserved(queue.close(boss)),
            None => unreachable!(),
        }
    }
    left.as_mut_slice().reverse();
}

// Leaves out of each queue's entries those that are outdated.
fn leave_out_all(left: &mut Vec<Vec<RestEntry<Parcel>>>)
    ensures { AllLasting left.old.items left.new.items }
{
    for at in 0..left.len() {
        leave_out(&mut left[at]);
    }
}

// Leaves out the entries that are outdated.
fn leave_out(entries: &mut Vec<RestEntry<Parcel>>)
    ensures { entries.new.items ≡ lasting_in entries.old.items }
{
    entries.retain(|entry| !entry.outdated);
}

// Tells of each queue what it left.
fn tell_all(rests: &mut Vec<Rest>, left: &[Vec<RestEntry<Parcel>>])
    requires rests { vec_len rests.old ≡ length left.now }
    requires room { RestsFit rests.old.items left.now }
    ensures as_many { vec_len rests.new ≡ vec_len rests.old }
    ensures told { TellsMore rests.old.items left.now rests.new.items }
{
    for at in 0..left.len() {
        tell(&mut rests[at], left[at].as_slice());
    }
}

// Tells of these entries, behind what is told.
fn tell(rest: &mut Rest, entries: &[RestEntry<Parcel>])
    requires room { length rest.old.entries.items + length entries.now
        ≤ vec_capacity rest.old.entries }
    ensures name { rest.new.name ≡ rest.old.name }
    ensures told { rest.new.entries.items ≡ rest.old.entries.items ++ map resting_left entries.now }
{
    for entry in entries {
        rest.entries.push_reserved(resting(entry));
    }
}

// What is told of an entry.
fn resting(entry: &RestEntry<Parcel>) -> Resting
    ensures { result ≡ resting_left entry.now }
{
    Resting {
        id: entry.slip.id,
        size: entry.slip.size,
        holder: holder(entry.state),
    }
}

// Who had an entry in this state.
fn holder(state: RowState) -> Option<u64>
    ensures { result ≡ holder_of state }
{
    match state {
        RowState::Locked(caller) | RowState::Unlocked(caller) => Some(caller),
        RowState::Available | RowState::Dequeued | RowState::Deleted => None,
    }
}
