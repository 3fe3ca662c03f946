//! Batches of transactions, read and written.
ghost use Rattle.std.specs.Prelude.{◌≡◌, ◌+◌, ◌*◌, ◌≤◌, ◌<◌, ◌^◌, ◌++◌, ◌∷◌, [], ℕ, List, length, drop, IfOk, sum_by};
ghost use Rattle.std.specs.List.{All, flat_map};
ghost use Rattle.journal_format.specs.declared.limits.TheConstants.{MOST_TXN_BYTES};
ghost use Rattle.journal_format.specs.Spelling.{Txn as Listed, txn_bytes, batch_bytes, IsBatch};
ghost use Rattle.journal_format.specs.Filled.{IsLimited};
ghost use Rattle.journal_format.specs.Reading.{batch_at};
ghost use Rattle.journal_format.specs.Batches.{IsBatchAt, Reads, IsReadAs, lists_of};

use crate::faults::BatchFault;
use crate::items::Item;
use crate::reading::batch_of;
use crate::txns::Txn;
use byte_lists::Buffer;
use message_core::numbers::ReadFault;
use sqlite_items::Items;
use std::alloc::Global;

/// How many bytes of a batch are no transaction's: its length and the number of its transactions.
const BATCH_BYTES: u64 = 12;

/// A batch that was read: its transactions, and the place of the next gate.
#[derive(Debug, Drop)]
pub struct Batch {
    pub txns: Items<Items<Item>>,
    pub next: u64,
}

/// The batch whose length stands at `at`, behind an open gate. NotBatch exactly where no batch with a gate behind it
/// stands there; it tells the place of the first fault: the first byte of the first field that is cut short or has no
/// allowed value; for a length that leaves no byte for the next gate, that length; for bytes left over within the
/// length, the first of them; within a message, the message's place plus its own fault's place; for a message that
/// isn't persistent, its flag. NoMemory may come in place of any.
pub fn read_batch(alloc: Global, bytes: &[u8], at: u64) -> Result<Batch, BatchFault>
    // What is read is a batch, and its bytes stand there.
    ensures found { IfOk result (λ b. IsBatchAt bytes.now at b.txns b.next) }
    // A batch that stands there is read as that batch, unless memory runs out.
    ensures only { (ts : List Listed) (next : ℕ) → IsBatchAt bytes.now at ts next
        → IsReadAs result ts next }
    // Where the first fault is.
    ensures exact { Reads result bytes.now at (batch_at (drop at bytes.now)) }
{
    let from = bytes.len().min(at as usize);
    let front = &bytes[from..];
    match batch_of(alloc, front) {
        Ok((txns, rest)) => {
            let next = bytes.len() - rest.len();
            Ok(Batch {
                txns,
                next: next as u64,
            })
        }
        Err(ReadFault::Left(left)) => Err(BatchFault::NotBatch {
            at: at + front.len().saturating_sub(left) as u64,
        }),
        Err(ReadFault::NoMemory) => Err(BatchFault::NoMemory),
    }
}

/// How many bytes the transactions of a batch have, without their number.
fn txns_size(txns: &[Txn]) -> u64
    requires { length txns.now < 2 ^ 32 }
    ensures size { result ≡ sum_by (λ t. length (txn_bytes t.items)) txns.now }
    ensures most { result ≤ MOST_TXN_BYTES * length txns.now }
    ensures limited { All (λ t. IsLimited t.items) txns.now }
{
    let mut size = 0_u64;
    for txn in txns {
        size += txn.len();
    }
    size
}

/// How many bytes a batch of these transactions has, with the length before them and without the gate behind them.
pub fn batch_size(txns: &[Txn]) -> u64
    requires { length txns.now < 2 ^ 32 }
    ensures { result ≡ length (batch_bytes (lists_of txns.now)) }
{
    BATCH_BYTES + txns_size(txns)
}

/// Puts a batch of these transactions at the end, and a closed gate behind it: from 1 to 4,294,967,295 transactions of
/// at least one item each, for which the buffer has to have room. Takes no memory.
pub fn write_batch(txns: &[Txn], into: &mut Buffer)
    requires some { 1 ≤ length txns.now }
    requires few { length txns.now ≤ 4294967295 }
    requires items { All (λ t. 1 ≤ length t.items) txns.now }
    requires room { length into.old.bytes + (length (batch_bytes (lists_of txns.now)) + 1)
        ≤ into.old.room }
    ensures batch { IsBatch (lists_of txns.now) }
    ensures bytes { into.new.bytes ≡ into.old.bytes ++ (batch_bytes (lists_of txns.now) ++ 0 ∷ []) }
    ensures room { into.old.room ≤ into.new.room }
{
    let size = 4 + txns_size(txns);
    into.append(&size.to_be_bytes());
    into.append(&(txns.len() as u32).to_be_bytes());
    put_txns(txns, into);
    into.append(&[0]);
}

/// Puts the transactions at the end, one after the other.
fn put_txns(txns: &[Txn], into: &mut Buffer)
    requires room { length into.old.bytes + length (flat_map (λ t. txn_bytes t.items) txns.now)
        ≤ into.old.room }
    ensures bytes { into.new.bytes ≡ into.old.bytes ++ flat_map (λ t. txn_bytes t.items) txns.now }
    ensures room { into.old.room ≤ into.new.room }
{
    for txn in txns {
        txn.encode(into);
    }
}
