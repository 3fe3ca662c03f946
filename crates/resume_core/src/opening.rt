//! The entries with which queues open, of what a journal holds.
ghost use Rattle.std.specs.Prelude.{◌≡◌, ◌∷◌, List, IfOk, OnOk, length, reverse};
ghost use Rattle.queue_model.specs.Table.{FitsQueue};
ghost use Rattle.defs_read.specs.Allowed.{AreAllowed, GivesSlips};
ghost use Rattle.defs_read.specs.Defined.{Defined, defined, queues_in};
ghost use Rattle.defs_read.specs.Slips.{HasNoKey, IsSlip, lists_of};
ghost use Rattle.recover_core.specs.declared.kept.Kept.{Kept};
ghost use Rattle.resume_core.specs.Keeping.{giving_way, staying};
ghost use Rattle.resume_core.specs.Resumed.{AreResumed, IsResumed, Resumes};
ghost use Rattle.resume_core.specs.Steps.{Files};

use crate::dealing::deal;
use crate::texts::meet_key;
use acts_core::RestEntry;
use byte_lists::NoMemory;
use defs_read::{Defs, QueueDef, slip};
use queue_model::{RowState, Slip};
use recover_core::Kept;
use sqlite_items::Items;
use std::alloc::Global;
use std::collections::BTreeSet;
use txn_core::Parcel;

/// What queues go on with, of what a journal holds.
#[derive(Drop)]
pub struct Resumed {
    /// For each queue, in the order of definition, its entries in their order: available, never delivered, and with the
    /// places of their bodies and no receipts.
    pub left: Vec<Vec<RestEntry<Parcel>>>,
    /// For each queue, in the order of definition, the live entries that give way to a later one of their key, in their
    /// order. They are none but on last-value queues. They are live in the journal until they are told gone there.
    pub outdated: Vec<Vec<Kept>>,
}

/// The entry of a queue, by its slip.
fn available(slip: Slip, entry: Kept) -> RestEntry<Parcel>
    ensures { (def : Defined) → IsSlip def entry.message slip
        → FitsQueue (lists_of def.kind) (length def.consumers) slip → HasNoKey def.kind slip.key
        → IsResumed def entry result }
{
    let Kept {
        message,
        body_at,
        ..
    } = entry;
    RestEntry {
        slip,
        state: RowState::Available,
        outdated: false,
        cargo: Parcel::of(message, None, body_at),
    }
}

/// Files an entry of a queue, of which the later ones were filed: with those that stay, or with those that give way.
fn file(
    alloc: Global,
    def: &QueueDef,
    entry: Kept,
    left: &mut Vec<RestEntry<Parcel>>,
    outdated: &mut Vec<Kept>,
    texts: &mut BTreeSet<Vec<u8>>,
) -> Result<(), NoMemory>
    requires { GivesSlips (defined def.now) }
    ensures { (ks : List Kept)
        → Files (defined def.now) ks left.old.items outdated.old.items texts.old
        → OnOk result
        (Files (defined def.now) (entry ∷ ks) left.new.items outdated.new.items texts.new) }
{
    let slip = slip(alloc, def, &entry.message)?;
    if meet_key(alloc, &def.kind, &slip.key, texts)? {
        return match outdated.push(entry) {
            Ok(()) => Ok(()),
            Err(_) => Err(NoMemory),
        };
    }
    match left.push(available(slip, entry)) {
        Ok(()) => Ok(()),
        Err(_) => Err(NoMemory),
    }
}

/// The entries with which a queue goes on, and those that give way, of its live entries, the last one first.
fn resume_queue(
    alloc: Global,
    def: &QueueDef,
    entries: Vec<Kept>,
) -> Result<(Vec<RestEntry<Parcel>>, Vec<Kept>), NoMemory>
    requires { GivesSlips (defined def.now) }
    ensures left { IfOk result (λ x. AreResumed (defined def.now)
        (staying def.now.kind (reverse entries.items)) x.0.items) }
    ensures outdated { IfOk result (λ x.
        x.1.items ≡ giving_way def.now.kind (reverse entries.items)) }
{
    let mut rest = entries;
    rest.reverse();
    let mut left = Vec::new(alloc);
    let mut outdated = Vec::new(alloc);
    let mut texts = BTreeSet::new(alloc);
    'entries: while let Some(entry) = rest.pop() {
        file(alloc, def, entry, &mut left, &mut outdated, &mut texts)?;
    }
    left.reverse();
    outdated.reverse();
    Ok((left, outdated))
}

/// The entries with which each queue of a first phase opens, of the live entries of a journal, in their order: with the
/// slip that the queue's definition gives, available, never delivered, with the place of the body and without a receipt.
/// On a last-value queue those give way behind which one of the same key stands; they are told apart. An entry whose
/// queue isn't defined is dropped. Refuses only for want of memory.
pub fn open_live(alloc: Global, defs: &Defs, live: Items<Kept>) -> Result<Resumed, NoMemory>
    requires { AreAllowed (queues_in defs.now) }
    ensures { IfOk result (λ r. Resumes (queues_in defs.now) live r.left.items r.outdated.items) }
{
    let lists = deal(alloc, defs, live)?;
    let Ok(mut left) = Vec::with_capacity(alloc, defs.queues.len()) else {
        return Err(NoMemory);
    };
    let Ok(mut outdated) = Vec::with_capacity(alloc, defs.queues.len()) else {
        return Err(NoMemory);
    };
    for entries in lists {
        let at = left.len();
        let (stay, gone) = resume_queue(alloc, &defs.queues[at], entries)?;
        left.push_reserved(stay);
        outdated.push_reserved(gone);
    }
    Ok(Resumed { left, outdated })
}
