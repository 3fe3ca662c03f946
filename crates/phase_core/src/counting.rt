//! How much a phase puts to each queue, and how many rows its queues have room for.
ghost use Rattle.std.specs.Prelude.{◌≡◌, ◌+◌, ◌<◌, ◌≤◌, ℕ, IfOk, length, map, slice_index, vec_len};
ghost use Rattle.defs_read.specs.Allowed.{most_queues};
ghost use Rattle.defs_read.specs.Defined.{queues_in};
ghost use Rattle.phase_core.specs.Rows.{rows_at, rows_up_to};
ghost use Rattle.phase_queues.specs.Left.{many_left};
ghost use Rattle.phase_queues.specs.Opened.{HasRoom};
ghost use Rattle.queue_model.specs.Table.{most_entries};
ghost use Rattle.script_read.specs.Allowed.{ops_in};
ghost use Rattle.script_read.specs.Phases.{actors_in};
ghost use Rattle.workers_core.specs.Made.{puts_in};

use acts_core::RestEntry;
use byte_lists::{Bytes, NoMemory};
use defs_read::Defs;
use phase_actors::puts_in;
use script_read::{Op, Phase};
use std::alloc::Global;
use txn_core::Parcel;

/// How many of the lines of these actors put to the queue of this number.
fn puts_to(queue: u32, actors: &[(Bytes, Vec<Op>)]) -> u64
    requires { puts_in queue (ops_in (map (λ a. (a.0, a.1.items)) actors.now)) ≤ most_entries }
    ensures { result ≡ puts_in queue (ops_in (map (λ a. (a.0, a.1.items)) actors.now)) }
{
    let mut puts = 0;
    'actors: for actor in actors {
        puts += puts_in(queue, &actor.1);
    }
    puts
}

/// How many lines of a phase put to each queue, in the order of the definitions. Refuses only for want of memory.
pub(crate) fn puts_of(alloc: Global, defs: &Defs, phase: &Phase) -> Result<Vec<u64>, NoMemory>
    requires queues { length (queues_in defs.now) ≤ most_queues }
    requires few { (q : ℕ) → puts_in q (ops_in (actors_in phase.now)) ≤ most_entries }
    ensures as_many { IfOk result (λ puts. vec_len puts ≡ length (queues_in defs.now)) }
    ensures each { IfOk result (λ puts. (q : ℕ) → q < length (queues_in defs.now)
        → slice_index puts.items q ≡ puts_in q (ops_in (actors_in phase.now))) }
{
    let Ok(mut puts) = Vec::with_capacity(alloc, defs.queues.len()) else {
        return Err(NoMemory);
    };
    'queues: for number in 0..defs.queues.len() {
        puts.push_reserved(puts_to(number as u32, &phase.actors));
    }
    Ok(puts)
}

/// How many rows the queue of this number has room for: those of its entries and of what is put to it, and at least one.
fn rows_at(left: &[Vec<RestEntry<Parcel>>], puts: &[u64], number: usize) -> u64
    requires left { number < length left.now }
    requires puts { number < length puts.now }
    requires few { many_left number left.now + slice_index puts.now number ≤ most_entries }
    ensures { result ≡ rows_at left.now puts.now number }
{
    let entries = left[number].len() as u64;
    (entries + puts[number]).max(1)
}

/// How many rows the queues have room for that open with these entries, and to which so many are put.
pub(crate) fn rows_of(left: &[Vec<RestEntry<Parcel>>], puts: &[u64]) -> u64
    requires queues { length left.now ≤ most_queues }
    requires as_many { length puts.now ≡ length left.now }
    requires room { HasRoom left.now puts.now }
    ensures { result ≡ rows_up_to left.now puts.now (length left.now) }
{
    let mut rows = 0;
    'queues: for number in 0..left.len() {
        rows += rows_at(left, puts, number);
    }
    rows
}
