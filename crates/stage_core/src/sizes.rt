//! How many bytes items have, and whether a transaction takes them.
ghost use Rattle.std.specs.Prelude.{◌≡◌, ◌+◌, ◌^◌, ◌≤◌, ◌<◌, ◌↔◌, ℕ, List, IsTrue, length};
ghost use Rattle.journal_format.specs.declared.items.Item.TheVariants.{Entered, Gone};
ghost use Rattle.journal_format.specs.declared.limits.TheConstants.{MOST_ITEMS, MOST_TXN_BYTES};
ghost use Rattle.journal_format.specs.Spelling.{item_bytes, txn_bytes};

use journal_format::Txn;
use journal_format::limits::{MOST_ITEMS, MOST_TXN_BYTES};
use message_core::Message;

/// How many bytes of an item that entered are neither the queue's name nor the message's: the tag and two lengths.
const ENTERED_BYTES: u64 = 6;

/// How many bytes of an item that is gone are not the queue's name: the tag, a length and the id.
const GONE_BYTES: u64 = 10;

/// How many bytes say that the message entered a queue whose name has so many.
pub(crate) fn entered_size(name_len: u64, message: &Message) -> u64
    requires { name_len < 2 ^ 63 }
    ensures { (name : List ℕ) → length name ≡ name_len
        → result ≡ length (item_bytes (Entered name message.now)) }
{
    ENTERED_BYTES + name_len + message.size()
}

/// How many bytes say that an entry is gone from one.
pub(crate) fn gone_size(name_len: u64) -> u64
    requires { name_len < 2 ^ 63 }
    ensures { (name : List ℕ) (id : ℕ) → length name ≡ name_len
        → result ≡ length (item_bytes (Gone name id)) }
{
    GONE_BYTES + name_len
}

/// Whether the transaction keeps both limits with one more item of so many bytes.
pub(crate) fn has_place(txn: &Txn, size: u64) -> bool
    ensures { IsTrue result ↔ ((length txn.now.items < MOST_ITEMS)
        × (length (txn_bytes txn.now.items) + size ≤ MOST_TXN_BYTES)) }
{
    txn.items() < MOST_ITEMS && txn.len().saturating_add(size) <= MOST_TXN_BYTES
}
