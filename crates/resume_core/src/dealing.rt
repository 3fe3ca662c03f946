//! Live entries, queue by queue.
ghost use Rattle.std.specs.Prelude.{◌≡◌, ◌∷◌, ◌≤◌, ◌++◌, [], List, IfOk, OnOk, length};
ghost use Rattle.defs_read.specs.Allowed.{most_queues};
ghost use Rattle.defs_read.specs.Defined.{queues_in};
ghost use Rattle.recover_core.specs.declared.kept.Kept.{Kept};
ghost use Rattle.resume_core.specs.Steps.{AreDealt};

use crate::numbers::number_of;
use byte_lists::NoMemory;
use defs_read::Defs;
use recover_core::Kept;
use sqlite_items::Items;
use std::alloc::Global;

/// A list without entries for each queue.
fn no_entries(alloc: Global, defs: &Defs) -> Result<Vec<Vec<Kept>>, NoMemory>
    ensures { IfOk result (λ lists. AreDealt (queues_in defs.now) [] lists.items) }
{
    let Ok(mut none) = Vec::with_capacity(alloc, defs.queues.len()) else {
        return Err(NoMemory);
    };
    for _at in 0..defs.queues.len() {
        none.push_reserved(Vec::new(alloc));
    }
    Ok(none)
}

/// Puts the entry behind those of the list.
fn add(list: &mut Vec<Kept>, entry: Kept) -> Result<(), NoMemory>
    ensures { OnOk result (list.new.items ≡ list.old.items ++ entry ∷ []) }
{
    match list.push(entry) {
        Ok(()) => Ok(()),
        Err(_) => Err(NoMemory),
    }
}

/// Puts the entry into the list of its queue. One whose queue isn't defined is dropped.
fn deal_one(defs: &Defs, entry: Kept, lists: &mut Vec<Vec<Kept>>) -> Result<(), NoMemory>
    requires few { length (queues_in defs.now) ≤ most_queues }
    requires many { length lists.old.items ≡ length (queues_in defs.now) }
    ensures { (ks : List Kept) → AreDealt (queues_in defs.now) ks lists.old.items
        → OnOk result (AreDealt (queues_in defs.now) (entry ∷ ks) lists.new.items) }
{
    match number_of(defs, entry.queue.as_slice()) {
        Some(queue) => add(&mut lists[queue as usize], entry),
        None => Ok(()),
    }
}

/// The live entries of each queue, the last one first.
pub(crate) fn deal(
    alloc: Global,
    defs: &Defs,
    live: Items<Kept>,
) -> Result<Vec<Vec<Kept>>, NoMemory>
    requires few { length (queues_in defs.now) ≤ most_queues }
    ensures { IfOk result (λ lists. AreDealt (queues_in defs.now) live lists.items) }
{
    let mut lists = no_entries(alloc, defs)?;
    let mut rest = live;
    'entries: while let Some(entry) = rest.pop() {
        deal_one(defs, entry, &mut lists)?;
    }
    Ok(lists)
}
