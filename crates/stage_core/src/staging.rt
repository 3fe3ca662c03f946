//! Lines that wait for their transaction's commit.
ghost use Rattle.std.specs.Prelude.{◌≡◌, ◌≤◌, ℕ, List, true, IfErr, IfOk, OnErr, OnOk};
ghost use Rattle.journal_format.specs.declared.items.Item.TheVariants.{Entered, Gone};
ghost use Rattle.journal_format.specs.Filled.{HasPlace, IsFull};
ghost use Rattle.journal_format.specs.Spelling.{IsName};
ghost use Rattle.txn_core.specs.declared.staging.Staged.TheVariants.{Put, Ack};
ghost use Rattle.txn_core.specs.Parcels.{shown};
ghost use Rattle.stage_core.specs.Items.{Stages, ack_items, name_at, place_within, put_items};
ghost use Rattle.stage_core.specs.Staging.{Adds, Appends, HasRoomFor};

use crate::sizes::{entered_size, gone_size, has_place};
use byte_lists::Bytes;
use journal_format::{Txn, TxnTooLong};
use message_core::Message;
use queue_model::Slip;
use txn_core::{Parcel, Staged, Staging};

/// Adds to the transaction that the message entered, where it is persistent; answers the place of its body there, and
/// else 0.
fn enter(txn: &mut Txn, name: &Bytes, message: &Message) -> Result<u32, TxnTooLong>
    requires name { IsName name.now }
    requires room { message.now.persistent ≡ true
        → HasRoomFor txn.old (Entered name.now message.now) }
    ensures adds { OnOk result (Adds (put_items name.now message.now) txn.old txn.new) }
    ensures within { IfOk result (λ w. w ≡ place_within txn.old.items name.now message.now) }
    ensures too_long { OnErr result ((message.now.persistent ≡ true)
        × IsFull txn.old.items (Entered name.now message.now)) }
    ensures had_place { OnOk result (message.now.persistent ≡ true
        → HasPlace txn.old.items (Entered name.now message.now)) }
    ensures unchanged { OnErr result (txn.new ≡ txn.old) }
{
    if !message.persistent() {
        return Ok(0);
    }
    if !has_place(txn, entered_size(name.as_slice().len() as u64, message)) {
        return Err(TxnTooLong);
    }
    txn.entered(name, message)
}

/// Adds to the transaction that the parcel's entry is gone, where its message is persistent.
fn go(txn: &mut Txn, name: &Bytes, parcel: &Parcel) -> Result<(), TxnTooLong>
    requires name { IsName name.now }
    requires room { (shown parcel.now).message.persistent ≡ true
        → HasRoomFor txn.old (Gone name.now (shown parcel.now).message.id) }
    ensures adds { OnOk result
        (Adds (ack_items name.now (shown parcel.now).message) txn.old txn.new) }
    ensures too_long { OnErr result (((shown parcel.now).message.persistent ≡ true)
        × IsFull txn.old.items (Gone name.now (shown parcel.now).message.id)) }
    ensures had_place { OnOk result ((shown parcel.now).message.persistent ≡ true
        → HasPlace txn.old.items (Gone name.now (shown parcel.now).message.id)) }
    ensures unchanged { OnErr result (txn.new ≡ txn.old) }
{
    if !parcel.persistent() {
        return Ok(());
    }
    if !has_place(txn, gone_size(name.as_slice().len() as u64)) {
        return Err(TxnTooLong);
    }
    txn.gone(name, parcel.message().id())
}

/// Stages a put to the queue of this number and name, behind the lines that are staged, and adds it to the journal's
/// transaction where the message is persistent. TxnTooLong exactly where it is and the transaction has 65,536 items or
/// would have more than 67,108,864 bytes; then nothing changes but that the message is given up. Takes no memory.
pub fn stage_put(
    staging: &mut Staging,
    txn: &mut Txn,
    name: &Bytes,
    queue: u32,
    slip: Slip,
    message: Message,
    flowed: bool,
) -> Result<(), TxnTooLong>
    requires name { IsName name.now }
    requires line { 1 ≤ staging.old.room }
    requires room { message.persistent ≡ true → HasRoomFor txn.old (Entered name.now message) }
    ensures adds { OnOk result (Adds (put_items name.now message) txn.old txn.new) }
    ensures appends { OnOk result (Appends
        (Put queue slip message (place_within txn.old.items name.now message) flowed)
        staging.old staging.new) }
    ensures stages { (names : List (List ℕ)) → name_at names queue ≡ name.now
        → Stages names staging.old.list txn.old.items
        → OnOk result (Stages names staging.new.list txn.new.items) }
    ensures too_long { OnErr result ((message.persistent ≡ true)
        × IsFull txn.old.items (Entered name.now message)) }
    ensures had_place { OnOk result
        (message.persistent ≡ true → HasPlace txn.old.items (Entered name.now message)) }
    ensures unchanged { OnErr result ((staging.new ≡ staging.old) × (txn.new ≡ txn.old)) }
{
    match enter(txn, name, &message) {
        Ok(within) => {
            staging.push(Staged::Put {
                queue,
                slip,
                message,
                within,
                flowed,
            });
            Ok(())
        }
        Err(TxnTooLong) => Err(TxnTooLong),
    }
}

/// Stages the acknowledgement of a row of the queue of this number and name, behind the lines that are staged, and adds it
/// to the journal's transaction where the message is persistent. The parcel comes back exactly where it is and the
/// transaction has 65,536 items or would have more than 67,108,864 bytes; then nothing changes. Takes no memory.
pub fn stage_ack(
    staging: &mut Staging,
    txn: &mut Txn,
    name: &Bytes,
    queue: u32,
    row: u64,
    parcel: Parcel,
) -> Result<(), Parcel>
    requires name { IsName name.now }
    requires line { 1 ≤ staging.old.room }
    requires room { (shown parcel).message.persistent ≡ true
        → HasRoomFor txn.old (Gone name.now (shown parcel).message.id) }
    ensures adds { OnOk result (Adds (ack_items name.now (shown parcel).message) txn.old txn.new) }
    ensures appends { OnOk result (Appends (Ack queue row parcel) staging.old staging.new) }
    ensures stages { (names : List (List ℕ)) → name_at names queue ≡ name.now
        → Stages names staging.old.list txn.old.items
        → OnOk result (Stages names staging.new.list txn.new.items) }
    ensures too_long { OnErr result (((shown parcel).message.persistent ≡ true)
        × IsFull txn.old.items (Gone name.now (shown parcel).message.id)) }
    ensures had_place { OnOk result ((shown parcel).message.persistent ≡ true
        → HasPlace txn.old.items (Gone name.now (shown parcel).message.id)) }
    ensures unchanged { OnErr result ((staging.new ≡ staging.old) × (txn.new ≡ txn.old)) }
    ensures back { IfErr result (λ back. back ≡ parcel) }
{
    match go(txn, name, &parcel) {
        Ok(()) => {
            staging.push(Staged::Ack { queue, row, parcel });
            Ok(())
        }
        Err(TxnTooLong) => Err(parcel),
    }
}
