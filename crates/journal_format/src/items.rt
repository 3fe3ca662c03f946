//! What a transaction has.
ghost use Rattle.std.specs.Prelude.{◌≡◌, ◌+◌, ◌≤◌, ◌++◌, ◌∷◌, ℕ, length};
ghost use Rattle.message_core.specs.Spelling.{IsMessage};
ghost use Rattle.journal_format.specs.Spelling.{name_bytes, item_bytes, IsName};
ghost use Rattle.journal_format.specs.declared.items.Item.TheVariants.{Entered, Gone};

use byte_lists::{Buffer, Bytes};
use message_core::Message;

/// How many bytes of an Entered are neither the queue's name nor the message's: the tag and two lengths.
const ENTERED_BYTES: u64 = 6;

/// How many bytes of a Gone are not the queue's name: the tag, a length and the id.
const GONE_BYTES: u64 = 10;

/// One thing that a transaction says of a queue.
#[derive(Debug, Drop)]
pub enum Item {
    /// A message was put.
    Entered { queue: Bytes, message: Message },
    /// The entry with this id is gone.
    Gone { queue: Bytes, id: u64 },
}

impl Item {
    /// How many bytes the encoding has.
    pub fn size(&self) -> u64
        ensures { result ≡ length (item_bytes self.now) }
    {
        match self {
            Item::Entered { queue, message } => entered_size(queue, message),
            Item::Gone { queue, .. } => gone_size(queue),
        }
    }
}

/// How many bytes the encoding of an Entered has.
pub(crate) fn entered_size(queue: &Bytes, message: &Message) -> u64
    ensures size { result ≡ length (item_bytes (Entered queue.now message.now)) }
    ensures message { IsMessage message.now }
{
    ENTERED_BYTES + queue.as_slice().len() as u64 + message.size()
}

/// How many bytes the encoding of a Gone has.
pub(crate) fn gone_size(queue: &Bytes) -> u64
    ensures { (id : ℕ) → result ≡ length (item_bytes (Gone queue.now id)) }
{
    GONE_BYTES + queue.as_slice().len() as u64
}

/// Puts a tag and a queue's name at the end.
fn put_name(tag: u8, queue: &Bytes, into: &mut Buffer)
    requires name { IsName queue.now }
    requires room { length into.old.bytes + (2 + length queue.now) ≤ into.old.room }
    ensures bytes { into.new.bytes ≡ into.old.bytes ++ (tag ∷ name_bytes queue.now) }
    ensures room { into.old.room ≤ into.new.room }
{
    let name = queue.as_slice();
    into.append(&[tag, name.len() as u8]);
    into.append(name);
}

/// Puts the encoding of an Entered at the end.
pub(crate) fn put_entered(queue: &Bytes, message: &Message, into: &mut Buffer)
    requires name { IsName queue.now }
    requires room { length into.old.bytes + length (item_bytes (Entered queue.now message.now))
        ≤ into.old.room }
    ensures bytes { into.new.bytes ≡ into.old.bytes ++ item_bytes (Entered queue.now message.now) }
    ensures room { into.old.room ≤ into.new.room }
{
    put_name(1, queue, into);
    into.append(&(message.size() as u32).to_be_bytes());
    message.encode(into);
}

/// Puts the encoding of a Gone at the end.
pub(crate) fn put_gone(queue: &Bytes, id: u64, into: &mut Buffer)
    requires name { IsName queue.now }
    requires room { length into.old.bytes + length (item_bytes (Gone queue.now id))
        ≤ into.old.room }
    ensures bytes { into.new.bytes ≡ into.old.bytes ++ item_bytes (Gone queue.now id) }
    ensures room { into.old.room ≤ into.new.room }
{
    put_name(2, queue, into);
    into.append(&id.to_be_bytes());
}
