//! A put or an acknowledgement that is committed alone.
ghost use Rattle.std.specs.Prelude.{◌≡◌, ◌≤◌, [], ◌∷◌, true, length};
ghost use Rattle.journal_format.specs.declared.items.Item.TheVariants.{Entered, Gone};
ghost use Rattle.journal_format.specs.Spelling.{IsName, item_bytes};
ghost use Rattle.stage_core.specs.Items.{body_place};
ghost use Rattle.stage_core.specs.Staging.{Adds};

use byte_lists::Bytes;
use journal_format::Txn;
use message_core::Message;

/// Makes an empty transaction one that says alone that a persistent message entered the queue of this name. Answers the
/// place of its body there. It is never too long. Takes no memory.
pub fn enter_alone(txn: &mut Txn, name: &Bytes, message: &Message) -> u32
    requires name { IsName name.now }
    requires empty { txn.old.items ≡ [] }
    requires persistent { message.now.persistent ≡ true }
    requires room { length (item_bytes (Entered name.now message.now)) ≤ txn.old.room }
    ensures adds { Adds (Entered name.now message.now ∷ []) txn.old txn.new }
    ensures within { result ≡ body_place [] name.now message.now }
{
    // It says that the message has at most so many bytes.
    let _size = message.size();
    match txn.entered(name, message) {
        Ok(within) => within,
        Err(_) => unreachable!(),
    }
}

/// Makes an empty transaction one that says alone that the entry with this id is gone from the queue of this name. It is
/// never too long. Takes no memory.
pub fn go_alone(txn: &mut Txn, name: &Bytes, id: u64)
    requires name { IsName name.now }
    requires empty { txn.old.items ≡ [] }
    requires room { length (item_bytes (Gone name.now id)) ≤ txn.old.room }
    ensures { Adds (Gone name.now id ∷ []) txn.old txn.new }
{
    match txn.gone(name, id) {
        Ok(()) => {}
        Err(_) => unreachable!(),
    }
}
