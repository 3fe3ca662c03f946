//! Queues that are opened.
ghost use Rattle.std.specs.Prelude.{[], ◌≡◌, ◌+◌, ◌<◌, ◌≤◌, IfOk, length, vec_capacity, vec_len};
ghost use Rattle.queue_model.specs.Table.{most_entries};
ghost use Rattle.defs_read.specs.Allowed.{AreAllowed, HasPriorities};
ghost use Rattle.defs_read.specs.Causes.{most_consumers};
ghost use Rattle.defs_read.specs.Defined.{defined, queues_in};
ghost use Rattle.account_core.specs.Phases.{AllOpen};
ghost use Rattle.account_core.specs.Texts.{queue_names};
ghost use Rattle.phase_queues.specs.Left.{AllMayStay, AreCarried, MayGoOn, rows_left};
ghost use Rattle.phase_queues.specs.Opened.{AreOpened, HasRoom, HoldRows, IsOpened, OpenedSoFar, RestsHold};
ghost use Rattle.phase_queues.specs.Opened.{TellNothing, all_played, rest_names, rows_for};

use acts_core::RestEntry;
use any_queue::{AnyPass, AnyQueue};
use byte_lists::{Bytes, NoMemory};
use defs_read::{Defs, QueueDef};
use phase_text::Rest;
use queue_model::Slip;
use std::alloc::Global;
use std::sync::Wait;
use txn_core::Parcel;

/// The queues of a phase, in the order of their definitions, with the pass of each queue's boss; and room for
/// what is to be told of them in the end, and for what they leave.
#[derive(Drop)]
pub struct Opened<R: Wait + Drop> {
    pub queues: Vec<AnyQueue<Parcel, R>>,
    pub bosses: Vec<AnyPass>,
    /// Each queue's name, with no entries, and room for all rows that the queue may have.
    pub rests: Vec<Rest>,
    /// No lists, and room for one of each queue.
    pub left: Vec<Vec<RestEntry<Parcel>>>,
}

/// Opens the queues of a phase: each with the entries that the phase before left of it, in their order,
/// available, and without their receipts; and with room for as many more as will be put to it. The calls of
/// sorted and last-value queues wait by a copy of the handle. Takes all memory that the queues need until they are
/// closed, and refuses only for want of it; then the entries are dropped.
pub fn open_queues<R: Wait + Clone + Drop>(
    rt: &R,
    alloc: Global,
    defs: &Defs,
    left: Vec<Vec<RestEntry<Parcel>>>,
    puts: &[u64],
) -> Result<Opened<R>, NoMemory>
    requires allowed { AreAllowed (queues_in defs.now) }
    requires stay { AllMayStay (queues_in defs.now) left.items }
    requires puts { length puts.now ≡ length (queues_in defs.now) }
    requires room { HasRoom left.items puts.now }
    ensures opened { IfOk result (λ o.
        AreOpened (queues_in defs.now) left.items puts.now o.queues.items o.bosses.items) }
    ensures opens { IfOk result (λ o. AllOpen (queues_in defs.now)
        (rows_left left.items) (all_played o.queues.items o.bosses.items)) }
    ensures names { IfOk result (λ o. rest_names o.rests.items ≡ queue_names (queues_in defs.now)) }
    ensures none { IfOk result (λ o. TellNothing o.rests.items) }
    ensures room { IfOk result (λ o. RestsHold o.rests.items o.queues.items) }
    ensures left { IfOk result (λ o. (o.left.items ≡ [])
        × (length (queues_in defs.now) ≤ vec_capacity o.left)) }
{
    let Ok(none_left) = Vec::with_capacity(alloc, defs.queues.len()) else {
        return Err(NoMemory);
    };
    let rests = blank_rests(alloc, defs, left.as_slice(), puts)?;
    let (queues, bosses) = open_all(rt, alloc, defs, left, puts)?;
    Ok(Opened {
        queues,
        bosses,
        rests,
        left: none_left,
    })
}

// How many rows a queue has room for: those of its entries and of what is put to it, and at least one.
fn rows_for(entries: usize, puts: u64) -> u64
    requires few { entries + puts ≤ most_entries }
    ensures { result ≡ rows_for entries puts }
{
    (entries as u64 + puts).max(1)
}

// Each queue's name, and room for what it may hold in the end.
fn blank_rests(
    alloc: Global,
    defs: &Defs,
    left: &[Vec<RestEntry<Parcel>>],
    puts: &[u64],
) -> Result<Vec<Rest>, NoMemory>
    requires left { length left.now ≡ length (queues_in defs.now) }
    requires puts { length puts.now ≡ length (queues_in defs.now) }
    requires room { HasRoom left.now puts.now }
    ensures names { IfOk result (λ rests.
        rest_names rests.items ≡ queue_names (queues_in defs.now)) }
    ensures none { IfOk result (λ rests. TellNothing rests.items) }
    ensures room { IfOk result (λ rests. HoldRows left.now puts.now rests.items) }
{
    let Ok(mut rests) = Vec::with_capacity(alloc, defs.queues.len()) else {
        return Err(NoMemory);
    };
    for at in 0..defs.queues.len() {
        let rows = rows_for(left[at].len(), puts[at]);
        rests.push_reserved(blank_rest(alloc, &defs.queues[at].name, rows)?);
    }
    Ok(rests)
}

// A queue's name, and room for so many entries.
fn blank_rest(alloc: Global, name: &Bytes, rows: u64) -> Result<Rest, NoMemory>
    ensures name { IfOk result (λ rest. rest.name ≡ name.now) }
    ensures none { IfOk result (λ rest. rest.entries.items ≡ []) }
    ensures room { IfOk result (λ rest. rows ≤ vec_capacity rest.entries) }
{
    let name = Bytes::of(alloc, name.as_slice())?;
    match Vec::with_capacity(alloc, rows as usize) {
        Ok(entries) => Ok(Rest { name, entries }),
        Err(_) => Err(NoMemory),
    }
}

// The queues, each with its entries, and their bosses' passes.
fn open_all<R: Wait + Clone + Drop>(
    rt: &R,
    alloc: Global,
    defs: &Defs,
    left: Vec<Vec<RestEntry<Parcel>>>,
    puts: &[u64],
) -> Result<(Vec<AnyQueue<Parcel, R>>, Vec<AnyPass>), NoMemory>
    requires allowed { AreAllowed (queues_in defs.now) }
    requires stay { AllMayStay (queues_in defs.now) left.items }
    requires puts { length puts.now ≡ length (queues_in defs.now) }
    requires room { HasRoom left.items puts.now }
    ensures { IfOk result (λ o.
        OpenedSoFar (vec_len left) (queues_in defs.now) left.items puts.now o.0.items o.1.items) }
{
    let Ok(mut queues) = Vec::with_capacity(alloc, defs.queues.len()) else {
        return Err(NoMemory);
    };
    let Ok(mut bosses) = Vec::with_capacity(alloc, defs.queues.len()) else {
        return Err(NoMemory);
    };
    for entries in left {
        let at = queues.len();
        let (queue, boss) = open_queue(rt, alloc, &defs.queues[at], entries, puts[at])?;
        queues.push_reserved(queue);
        bosses.push_reserved(boss);
    }
    Ok((queues, bosses))
}

// A queue with its entries, with room for so many puts.
fn open_queue<R: Wait + Clone + Drop>(
    rt: &R,
    alloc: Global,
    def: &QueueDef,
    entries: Vec<RestEntry<Parcel>>,
    puts: u64,
) -> Result<(AnyQueue<Parcel, R>, AnyPass), NoMemory>
    requires lists { HasPriorities def.now.kind }
    requires consumers { vec_len def.now.consumers ≤ most_consumers }
    requires stay { MayGoOn (defined def.now) entries.items }
    requires room { length entries.items + puts ≤ most_entries }
    ensures { IfOk result (λ o. IsOpened (defined def.now) entries.items puts o.0 o.1) }
{
    let rows = rows_for(entries.len(), puts);
    let start = start_of(alloc, entries)?;
    match rt.clone() {
        Ok(handle) => AnyQueue::make(handle, alloc, def, rows, start),
        Err(_) => Err(NoMemory),
    }
}

// What was left of a queue, as it starts again: in its order, and without receipts.
fn start_of(alloc: Global, entries: Vec<RestEntry<Parcel>>) -> Result<Vec<(Slip, Parcel)>, NoMemory>
    ensures { IfOk result (λ start. AreCarried entries.items start.items) }
{
    let Ok(mut start) = Vec::with_capacity(alloc, entries.len()) else {
        return Err(NoMemory);
    };
    for entry in entries {
        let RestEntry {
            slip,
            mut cargo,
            ..
        } = entry;
        cargo.carried();
        start.push_reserved((slip, cargo));
    }
    Ok(start)
}
