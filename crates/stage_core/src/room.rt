//! How much room the transactions of an actor's lines may take.
ghost use Rattle.std.specs.Prelude.{◌≡◌, ◌<◌, ◌^◌, ℕ, List, length};
ghost use Rattle.defs_read.specs.Defined.{queues_in};
ghost use Rattle.stage_core.specs.Items.{name_at, names_in};
ghost use Rattle.stage_core.specs.Room.{each_for, line_bytes, put_bytes, room_for};

use crate::sizes::{entered_size, gone_size};
use defs_read::Defs;
use journal_format::limits::MOST_TXN_BYTES;
use message_core::Message;
use script_read::{Op, What};

/// The room for the greatest item that says that an entry is gone: ten bytes, and a name of 64.
pub const GONE_ROOM: u64 = 74;

/// How many bytes of a transaction are no item's.
const COUNT_BYTES: u64 = 4;

/// How many bytes the name of the queue of this number has.
fn name_len(defs: &Defs, queue: u32) -> u64
    ensures len { result ≡ length (name_at (names_in (queues_in defs.now)) queue) }
    ensures fits { result < 2 ^ 63 }
{
    match defs.queues.get(queue as usize) {
        Some(def) => def.name.as_slice().len() as u64,
        None => 0,
    }
}

/// How many bytes of items a put may add.
fn put_bytes(name_len: u64, message: &Message) -> u64
    requires { name_len < 2 ^ 63 }
    ensures { (name : List ℕ) → length name ≡ name_len → result ≡ put_bytes name message.now }
{
    if message.persistent() {
        entered_size(name_len, message)
    } else {
        gone_size(name_len)
    }
}

/// How many bytes of items a line may add.
fn line_bytes(defs: &Defs, what: &What) -> u64
    ensures { result ≡ line_bytes (names_in (queues_in defs.now)) what.now }
{
    match what {
        What::Put { queue, message } => put_bytes(name_len(defs, *queue), message),
        What::Ack { queue, .. } | What::Release { queue, .. } => gone_size(name_len(defs, *queue)),
        What::Take { .. }
        | What::Close { .. }
        | What::Lock { .. }
        | What::Unlock { .. }
        | What::Steal { .. }
        | What::Begin
        | What::Commit
        | What::Rollback => 0,
    }
}

/// How many bytes the items of a transaction of these lines may have: all that they may add, or as many as a transaction
/// may have in all.
pub fn room_for(defs: &Defs, ops: &[Op]) -> u64
    ensures { result ≡ room_for (names_in (queues_in defs.now)) ops.now }
{
    let mut room = 0u64;
    'lines: for op in ops {
        room = room
            .saturating_add(line_bytes(defs, &op.what))
            .min(MOST_TXN_BYTES);
    }
    room
}

/// How many bytes a transaction may have for whose items so many are taken: the number of its items comes to them.
pub fn each_for(room: u64) -> u64
    ensures { result ≡ each_for room }
{
    room.saturating_add(COUNT_BYTES).min(MOST_TXN_BYTES)
}
