//! Which entries are live: one pass from the last item to the first, over a set of the keys that are gone.
ghost use Rattle.std.specs.Prelude.{◌≡◌, ◌+◌, ◌≤◌, ◌<◌, ◌^◌, ◌++◌, ◌∷◌, List, length, reverse, IfOk, OnOk};
ghost use Rattle.std.specs.List.{All};
ghost use Rattle.journal_format.specs.declared.items.Item.TheVariants.{Entered};
ghost use Rattle.journal_format.specs.Spelling.{item_bytes, txn_bytes};
ghost use Rattle.recover_core.specs.Places.{Found, found, founds_in, founds_of, kept};
ghost use Rattle.recover_core.specs.Passed.{Passed, first_place, IsBefore, founds_read};

use crate::kept::Kept;
use crate::keys::{Key, add, is_in};
use byte_lists::{Bytes, NoMemory};
use journal_format::{Batch, Item};
use message_core::Message;
use sqlite_items::Items;
use std::alloc::Global;
use std::collections::BTreeSet;

/// How many bytes of a transaction are no item's: the number of its items.
const COUNT_BYTES: u64 = 4;

/// Takes a message that was put into account; `end` is the place behind its body.
fn pass_entered(
    queue: Bytes,
    message: Message,
    at: u64,
    end: u64,
    gone: &BTreeSet<Key>,
    entries: &mut Vec<Kept>,
) -> Result<(), NoMemory>
    requires { length message.body ≤ end }
    ensures { (rest : List Found) → Passed gone.now entries.old.items rest →
        OnOk result (Passed gone.now entries.new.items (found at end (Entered queue message) ∷ rest)) }
{
    let key = Key {
        id: message.id(),
        queue: queue.into_vec(),
    };
    if is_in(gone, &key) {
        return Ok(());
    }
    let Key { queue, .. } = key;
    let body_at = end - message.body().len() as u64;
    let queue = Bytes::from_vec(queue);
    let entry = Kept {
        queue,
        message,
        at,
        body_at,
    };
    match entries.push(entry) {
        Ok(()) => Ok(()),
        Err(_) => Err(NoMemory),
    }
}

/// Takes one item into account, the last of those that are left; `end` is the place behind it.
fn pass_item(
    item: Item,
    at: u64,
    end: u64,
    gone: &mut BTreeSet<Key>,
    entries: &mut Vec<Kept>,
) -> Result<(), NoMemory>
    requires { length (item_bytes item) ≤ end }
    ensures { (rest : List Found) → Passed gone.old entries.old.items rest →
        OnOk result (Passed gone.new entries.new.items (found at end item ∷ rest)) }
{
    match item {
        Item::Gone { queue, id } => add(
            gone,
            Key {
                id,
                queue: queue.into_vec(),
            },
        ),
        Item::Entered { queue, message } => pass_entered(queue, message, at, end, gone, entries),
    }
}

/// How many bytes the encoding of a transaction with these items has.
fn txn_size(items: &[Item]) -> u64
    requires { length (txn_bytes items.now) < 2 ^ 64 }
    ensures { result ≡ length (txn_bytes items.now) }
{
    let mut size = COUNT_BYTES;
    for item in items {
        size += item.size();
    }
    size
}

/// Takes the transaction that ends at a place into account, and answers its own place.
fn pass_txn(
    txn: Items<Item>,
    end: u64,
    gone: &mut BTreeSet<Key>,
    entries: &mut Vec<Kept>,
) -> Result<u64, NoMemory>
    requires { length (txn_bytes txn) ≤ end }
    ensures place { IfOk result (λ at. at + length (txn_bytes txn) ≡ end) }
    ensures passed { (rest : List Found) → Passed gone.old entries.old.items rest →
        IfOk result (λ at. Passed gone.new entries.new.items (founds_in at (at + 4) txn ++ rest)) }
{
    let mut left = txn;
    let mut end = end;
    let at = end - txn_size(left.as_slice());
    'items: while let Some(item) = left.pop() {
        let size = item.size();
        pass_item(item, at, end, gone, entries)?;
        end -= size;
    }
    Ok(at)
}

/// Takes the transactions of a batch into account, from the last one to the first.
fn pass_batch(
    batch: Batch,
    gone: &mut BTreeSet<Key>,
    entries: &mut Vec<Kept>,
) -> Result<(), NoMemory>
    requires { IsBefore batch }
    ensures { (rest : List Found) → Passed gone.old entries.old.items rest →
        OnOk result (Passed gone.new entries.new.items (founds_of (first_place batch) batch.txns ++ rest)) }
{
    let Batch { txns, next } = batch;
    let mut left = txns;
    let mut end = next;
    'txns: while let Some(txn) = left.pop() {
        end = pass_txn(txn, end, gone, entries)?;
    }
    Ok(())
}

/// The live entries of batches, the last one first.
fn last_first(alloc: Global, batches: Vec<Batch>) -> Result<Vec<Kept>, NoMemory>
    requires { All IsBefore batches.items }
    ensures { IfOk result (λ v. reverse v.items ≡ kept (founds_read batches.items)) }
{
    let mut left = batches;
    let mut gone = BTreeSet::new(alloc);
    let mut entries = Vec::new(alloc);
    'batches: while let Some(batch) = left.pop() {
        pass_batch(batch, &mut gone, &mut entries)?;
    }
    Ok(entries)
}

/// The live entries of batches, in order.
pub(crate) fn live_of(alloc: Global, batches: Vec<Batch>) -> Result<Vec<Kept>, NoMemory>
    requires { All IsBefore batches.items }
    ensures { IfOk result (λ v. v.items ≡ kept (founds_read batches.items)) }
{
    let mut entries = last_first(alloc, batches)?;
    entries.reverse();
    Ok(entries)
}
