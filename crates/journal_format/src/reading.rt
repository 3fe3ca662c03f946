//! Reads the fields of a batch from left to right.
ghost use Rattle.std.specs.Prelude.{◌≡◌, ◌+◌, ◌-◌, ◌^◌, ◌<◌, [], IfOk, Err};
ghost use Rattle.message_core.specs.Reading.{Gives, Decodes};
ghost use Rattle.message_core.specs.declared.numbers.ReadFault.TheVariants.{Left};
ghost use Rattle.journal_format.specs.Reading.{name_at, flagged, persistent_of, message_at, item_at, many_at, txn_at, txns_at, batch_at};

use crate::items::Item;
use crate::limits::{LONGEST_QUEUE_NAME, MOST_ITEMS};
use byte_lists::{Bytes, NoMemory};
use message_core::numbers::{ReadFault, byte_of, bytes_of, u32_of, u64_of};
use message_core::{DecodeFault, Message};
use sqlite_items::Items;
use std::alloc::Global;

/// The place in a message of the flag that says whether it is persistent.
const FLAG: usize = 8;

/// For how many items of a list room is taken before they are read. More may be claimed than there are.
const FEW: u32 = 4;

/// A queue's name, and the bytes after it.
#[tactic(auto, unfolding(crate::specs::Reading::name_at))]
fn name_of(bytes: &[u8]) -> Result<(&[u8], &[u8]), ReadFault>
    ensures { Gives (λ x. (x.0.now, x.1.now)) result (name_at bytes.now) }
{
    let (len, rest) = byte_of(bytes)?;
    let len = len as usize;
    if len >= 1 && len <= LONGEST_QUEUE_NAME && len <= rest.len() {
        Ok(rest.split_at(len))
    } else {
        Err(ReadFault::Left(bytes.len()))
    }
}

/// The place of a message's first fault, by the one that reading it met: a flag that says not persistent is one.
fn first_fault(bytes: &[u8], at: u64) -> u64
    ensures { flagged bytes.now (Err at) ≡ Err result }
{
    if bytes.get(FLAG) == Some(&0) {
        at.min(FLAG as u64)
    } else {
        at
    }
}

/// The persistent message that all of the bytes are.
#[tactic(auto, unfolding(crate::specs::Reading::persistent_of))]
fn persistent_message(alloc: Global, bytes: &[u8]) -> Result<Message, DecodeFault>
    ensures { Decodes result (persistent_of bytes.now) }
{
    match Message::decode(alloc, bytes) {
        Ok(message) if message.persistent() => Ok(message),
        Ok(_) => Err(DecodeFault::NotMessage { at: FLAG as u64 }),
        Err(DecodeFault::NotMessage { at }) => Err(DecodeFault::NotMessage {
            at: first_fault(bytes, at),
        }),
        Err(DecodeFault::NoMemory) => Err(DecodeFault::NoMemory),
    }
}

/// How many bytes are left from a place in a part of so many bytes, with those behind the part.
fn left_from(size: usize, at: usize, behind: usize) -> usize
    requires { size + behind < 2 ^ 63 }
    ensures { result ≡ (size - at) + behind }
{
    size.saturating_sub(at) + behind
}

/// The fault where so many bytes of a part are left.
fn fault_at(size: usize, left: usize, behind: usize) -> ReadFault
    requires { size + behind < 2 ^ 63 }
    ensures { result ≡ Left ((size - (size - left)) + behind) }
{
    ReadFault::Left(left_from(size, size.saturating_sub(left), behind))
}

/// A persistent message behind its length, and the bytes after it.
#[tactic(auto, unfolding(crate::specs::Reading::message_at, crate::specs::Reading::part_at))]
fn message_of(alloc: Global, bytes: &[u8]) -> Result<(Message, &[u8]), ReadFault>
    ensures { Gives (λ x. (x.0, x.1.now)) result (message_at bytes.now) }
{
    let (len, rest) = u32_of(bytes)?;
    let (part, rest) = bytes_of(len as usize, rest)?;
    match persistent_message(alloc, part) {
        Ok(message) => Ok((message, rest)),
        Err(DecodeFault::NotMessage { at }) => {
            Err(ReadFault::Left(left_from(part.len(), at as usize, rest.len())))
        }
        Err(DecodeFault::NoMemory) => Err(ReadFault::NoMemory),
    }
}

/// An item, and the bytes after it.
#[tactic(auto, unfolding(crate::specs::Reading::item_at))]
fn item_of(alloc: Global, bytes: &[u8]) -> Result<(Item, &[u8]), ReadFault>
    ensures { Gives (λ x. (x.0, x.1.now)) result (item_at bytes.now) }
{
    match bytes {
        [] => Err(ReadFault::Left(0)),
        [1, rest @ ..] => {
            let (queue, rest) = name_of(rest)?;
            let (message, rest) = message_of(alloc, rest)?;
            let queue = Bytes::of(alloc, queue)?;
            Ok((Item::Entered { queue, message }, rest))
        }
        [2, rest @ ..] => {
            let (queue, rest) = name_of(rest)?;
            let (id, rest) = u64_of(rest)?;
            let queue = Bytes::of(alloc, queue)?;
            Ok((Item::Gone { queue, id }, rest))
        }
        [_, ..] => Err(ReadFault::Left(bytes.len())),
    }
}

/// A list for so many, with room for the first few.
fn list_for<T>(alloc: Global, count: u32) -> Result<Vec<T>, NoMemory>
    ensures { IfOk result (λ v. v.items ≡ []) }
{
    match Vec::with_capacity(alloc, count.min(FEW) as usize) {
        Ok(list) => Ok(list),
        Err(_) => Err(NoMemory),
    }
}

/// So many items, and the bytes after them.
fn items_of(alloc: Global, count: u32, bytes: &[u8]) -> Result<(Items<Item>, &[u8]), ReadFault>
    ensures { Gives (λ x. (x.0, x.1.now)) result (many_at item_at count bytes.now) }
{
    let mut items = list_for(alloc, count)?;
    let mut rest = bytes;
    for _ in 0..count {
        let (item, after) = item_of(alloc, rest)?;
        items.push(item)?;
        rest = after;
    }
    Ok((Items::from_vec(items), rest))
}

/// A transaction behind the number of its items, and the bytes after it.
#[tactic(auto, unfolding(crate::specs::Reading::txn_at))]
fn txn_of(alloc: Global, bytes: &[u8]) -> Result<(Items<Item>, &[u8]), ReadFault>
    ensures { Gives (λ x. (x.0, x.1.now)) result (txn_at bytes.now) }
{
    let (count, rest) = u32_of(bytes)?;
    if count >= 1 && count <= MOST_ITEMS {
        items_of(alloc, count, rest)
    } else {
        Err(ReadFault::Left(bytes.len()))
    }
}

/// So many transactions, and the bytes after them.
fn list_of(
    alloc: Global,
    count: u32,
    bytes: &[u8],
) -> Result<(Items<Items<Item>>, &[u8]), ReadFault>
    ensures { Gives (λ x. (x.0, x.1.now)) result (many_at txn_at count bytes.now) }
{
    let mut txns = list_for(alloc, count)?;
    let mut rest = bytes;
    for _ in 0..count {
        let (txn, after) = txn_of(alloc, rest)?;
        txns.push(txn)?;
        rest = after;
    }
    Ok((Items::from_vec(txns), rest))
}

/// Transactions behind their number, and the bytes after them.
#[tactic(auto, unfolding(crate::specs::Reading::txns_at))]
fn txns_of(alloc: Global, bytes: &[u8]) -> Result<(Items<Items<Item>>, &[u8]), ReadFault>
    ensures { Gives (λ x. (x.0, x.1.now)) result (txns_at bytes.now) }
{
    let (count, rest) = u32_of(bytes)?;
    if count >= 1 {
        list_of(alloc, count, rest)
    } else {
        Err(ReadFault::Left(bytes.len()))
    }
}

/// What stands behind an open gate, and the bytes from the next gate on.
#[tactic(auto, unfolding(crate::specs::Reading::batch_at, crate::specs::Reading::part_at, crate::specs::Reading::txns_of))]
pub(crate) fn batch_of(
    alloc: Global,
    bytes: &[u8],
) -> Result<(Items<Items<Item>>, &[u8]), ReadFault>
    ensures { Gives (λ x. (x.0, x.1.now)) result (batch_at bytes.now) }
{
    let (len, rest) = u64_of(bytes)?;
    if len >= rest.len() as u64 {
        return Err(ReadFault::Left(bytes.len()));
    }
    let (part, after) = rest.split_at(len as usize);
    let size = part.len();
    match txns_of(alloc, part) {
        Ok((txns, [])) => Ok((txns, after)),
        Ok((_, more)) => Err(fault_at(size, more.len(), after.len())),
        Err(ReadFault::Left(left)) => Err(fault_at(size, left, after.len())),
        Err(ReadFault::NoMemory) => Err(ReadFault::NoMemory),
    }
}
