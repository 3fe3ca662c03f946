//! Transactions, which are kept as their bytes.
ghost use Rattle.std.specs.Prelude.{◌≡◌, ◌+◌, ◌^◌, ◌<◌, ◌≤◌, ◌++◌, ◌∷◌, ◌⊎◌, [], length, true, IfOk, OnOk, OnErr};
ghost use Rattle.std.specs.Bool.{OnTrue, OnFalse};
ghost use Rattle.std.specs.List.{flat_map};
ghost use Rattle.journal_format.specs.declared.items.Item.TheVariants.{Entered, Gone};
ghost use Rattle.journal_format.specs.Spelling.{item_bytes, txn_bytes, IsName};
ghost use Rattle.journal_format.specs.Filled.{HasPlace, IsFull, IsLimited};

use crate::faults::TxnTooLong;
use crate::items::{entered_size, gone_size, put_entered, put_gone};
use crate::limits::{MOST_ITEMS, MOST_TXN_BYTES};
use byte_lists::{Buffer, Bytes, NoMemory};
use message_core::Message;
use std::alloc::Global;
use std::marker::Model;

/// How many bytes of a transaction are no item's: the number of its items.
const COUNT_BYTES: u64 = 4;

/// A transaction that is being filled, in the form in which a journal keeps it. Contracts see the list of its items, and
/// the room left: how many bytes more the items can take without memory. It has at most 65,536 items and 67,108,864
/// bytes.
#[derive(Debug, Drop)]
pub struct Txn {
    bytes: Buffer,
    count: u32,
}

impl Model for Txn {
    ghost use Rattle.std.specs.Prelude.{◌-◌, length};
    ghost use Rattle.journal_format.specs.Filled.{Filled, items_in, IsKept};

    ghost Value = { Filled };

    ghost view = { λ t. record {
      items = items_in t.count t.bytes.bytes;
      room = t.bytes.room - length t.bytes.bytes;
    } };

    ghost invariant = { λ t. IsKept t.count t.bytes };
}

impl Txn {
    /// A transaction without items, with room for at least so many bytes of them. Refuses only for want of memory.
    pub fn with_room(alloc: Global, bytes: u64) -> Result<Txn, NoMemory>
        ensures empty { IfOk result (λ t. t.items ≡ []) }
        ensures room { IfOk result (λ t. bytes ≤ t.room) }
    {
        let bytes = Buffer::with_room(alloc, bytes)?;
        Ok(Txn { bytes, count: 0 })
    }

    /// Adds that the message was put into the queue, and answers the place of the body's first byte within the
    /// transaction. Needs room, a queue's name of 1 to 64 bytes and a persistent message. TxnTooLong exactly where there
    /// are 65,536 items or the encoding would pass 67,108,864 bytes; the transaction is unchanged then. Takes no memory.
    pub fn entered(&mut self, queue: &Bytes, message: &Message) -> Result<u32, TxnTooLong>
        requires name { IsName queue.now }
        requires persistent { message.now.persistent ≡ true }
        requires room { length (item_bytes (Entered queue.now message.now)) ≤ self.old.room }
        ensures items { OnOk result
            (self.new.items ≡ self.old.items ++ Entered queue.now message.now ∷ []) }
        ensures place { IfOk result
            (λ at. at + length message.now.body ≡ length (txn_bytes self.new.items)) }
        ensures room { OnOk result (self.old.room
            ≤ self.new.room + length (item_bytes (Entered queue.now message.now))) }
        ensures had_place { OnOk result (HasPlace self.old.items (Entered queue.now message.now)) }
        ensures too_long { OnErr result (IsFull self.old.items (Entered queue.now message.now)) }
        ensures unchanged { OnErr result (self.new ≡ self.old) }
    {
        let size = entered_size(queue, message);
        if !has_place(self.count, self.bytes.as_slice(), size) {
            return Err(TxnTooLong);
        }
        put_entered(queue, message, &mut self.bytes);
        self.count += 1;
        Ok((txn_size(self.bytes.as_slice()) - message.body().len() as u64) as u32)
    }

    /// Adds that the entry with this id is gone from the queue. Needs room and a queue's name of 1 to 64 bytes. TxnTooLong
    /// exactly where there are 65,536 items or the encoding would pass 67,108,864 bytes; the transaction is unchanged
    /// then. Takes no memory.
    pub fn gone(&mut self, queue: &Bytes, id: u64) -> Result<(), TxnTooLong>
        requires name { IsName queue.now }
        requires room { length (item_bytes (Gone queue.now id)) ≤ self.old.room }
        ensures items { OnOk result (self.new.items ≡ self.old.items ++ Gone queue.now id ∷ []) }
        ensures room { OnOk result
            (self.old.room ≤ self.new.room + length (item_bytes (Gone queue.now id))) }
        ensures had_place { OnOk result (HasPlace self.old.items (Gone queue.now id)) }
        ensures too_long { OnErr result (IsFull self.old.items (Gone queue.now id)) }
        ensures unchanged { OnErr result (self.new ≡ self.old) }
    {
        let size = gone_size(queue);
        if !has_place(self.count, self.bytes.as_slice(), size) {
            return Err(TxnTooLong);
        }
        put_gone(queue, id, &mut self.bytes);
        self.count += 1;
        Ok(())
    }

    /// Takes all items out, and keeps the room.
    pub fn clear(&mut self)
        ensures items { self.new.items ≡ [] }
        ensures room { self.new.room ≡ self.old.room + length (flat_map item_bytes self.old.items) }
    {
        self.bytes.clear();
        self.count = 0;
    }

    /// How many bytes the encoding has.
    pub fn len(&self) -> u64
        ensures len { result ≡ length (txn_bytes self.now.items) }
        ensures limited { IsLimited self.now.items }
    {
        txn_size(self.bytes.as_slice())
    }

    /// How many items there are.
    pub fn items(&self) -> u32
        ensures { result ≡ length self.now.items }
    {
        self.count
    }

    /// Puts the encoding at the end of the buffer, which has to have room for it. Takes no memory.
    pub(crate) fn encode(&self, into: &mut Buffer)
        requires { length into.old.bytes + length (txn_bytes self.now.items) ≤ into.old.room }
        ensures bytes { into.new.bytes ≡ into.old.bytes ++ txn_bytes self.now.items }
        ensures room { into.old.room ≤ into.new.room }
    {
        into.append(&self.count.to_be_bytes());
        into.append(self.bytes.as_slice());
    }
}

/// How many bytes the encoding of a transaction has whose items have these.
fn txn_size(items: &[u8]) -> u64
    ensures { result ≡ 4 + length items.now }
{
    COUNT_BYTES + items.len() as u64
}

/// Whether one more item of so many bytes keeps both limits, where there are `count` items with these bytes.
fn has_place(count: u32, items: &[u8], size: u64) -> bool
    ensures holds { OnTrue result ((count < MOST_ITEMS)
        × (4 + length items.now + size ≤ MOST_TXN_BYTES)) }
    ensures breaks { OnFalse result ((MOST_ITEMS ≤ count)
        ⊎ (MOST_TXN_BYTES < 4 + length items.now + size)) }
{
    count < MOST_ITEMS && txn_size(items).saturating_add(size) <= MOST_TXN_BYTES
}
