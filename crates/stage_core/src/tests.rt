ghost use Rattle.std.specs.Prelude.{◌≡◌, ◌+◌, ◌≤◌, IfOk, length};
ghost use Rattle.journal_format.specs.Spelling.{IsName};

use super::*;
use byte_lists::Bytes;
use journal_format::Txn;
use message_core::Message;
use queue_model::Slip;
use std::alloc::Global;
use std::test::Fail;
use txn_core::{Parcel, Receipt, Staged, Staging};

// A message with this id and body: 16 bytes, and those of the body.
fn message(alloc: Global, id: u64, persistent: bool, body: &[u8]) -> Result<Message, Fail> {
    let body = Bytes::of(alloc, body)?;
    Ok(Message::make(alloc, id, persistent, 4, Vec::new(alloc), body)?)
}

// A queue's name of one byte.
fn name(alloc: Global, byte: u8) -> Result<Bytes, Fail>
    ensures { IfOk result (λ name. IsName name) }
{
    Ok(Bytes::of(alloc, &[byte])?)
}

// Stages a put, and tells whether it was staged.
fn put(staging: &mut Staging, txn: &mut Txn, name: &Bytes, queue: u32, message: Message) -> bool
    requires name { IsName name.now }
    requires line { 1 ≤ staging.old.room }
    requires room { 2000000 ≤ txn.old.room }
    ensures line { staging.old.room ≤ staging.new.room + 1 }
    ensures room { txn.old.room ≤ txn.new.room + 2000000 }
{
    let slip = Slip {
        id: message.id(),
        size: message.size(),
        mask: 0,
        list: 0,
        key: None,
    };
    stage_put(staging, txn, name, queue, slip, message, false).is_ok()
}

// Stages an acknowledgement, and tells whether it was staged.
fn ack(staging: &mut Staging, txn: &mut Txn, name: &Bytes, row: u64, message: Message) -> bool
    requires name { IsName name.now }
    requires line { 1 ≤ staging.old.room }
    requires room { 2000000 ≤ txn.old.room }
    ensures line { staging.old.room ≤ staging.new.room + 1 }
    ensures room { txn.old.room ≤ txn.new.room + 2000000 }
{
    stage_ack(staging, txn, name, 0, row, Parcel::of(message, None, 0)).is_ok()
}

// What a staged line is of: the queue and the place of a put, or the row of an acknowledgement.
fn told(staged: Option<Staged>) -> Option<(u32, u64)> {
    match staged {
        Some(Staged::Put { queue, within, .. }) => Some((queue, u64::from(within))),
        Some(Staged::Ack { queue, row, .. }) => Some((queue, row)),
        None => None,
    }
}

/// Two persistent puts, one that isn't, and an acknowledgement: three items of 25, 24 and 11 bytes behind the number of
/// items, and the bodies at the ends of the first two.
#[test]
fn ample(rt: HostRuntime) -> Result<(), Fail> {
    let alloc = rt.alloc();
    let q = name(alloc, b'q')?;
    let r = name(alloc, b'r')?;
    let mut staging = Staging::with_room(alloc, 4)?;
    let mut txn = Txn::with_room(alloc, 8_000_000)?;
    assert!(rt;
        put(
            &mut staging,
            &mut txn,
            &q,
            0,
            message(alloc, 1, true, b"hi")?
        )
    );
    assert!(rt;
        put(
            &mut staging,
            &mut txn,
            &r,
            1,
            message(alloc, 2, false, b"no")?
        )
    );
    assert!(rt;
        put(
            &mut staging,
            &mut txn,
            &r,
            1,
            message(alloc, 3, true, b"x")?
        )
    );
    assert!(rt;
        ack(
            &mut staging,
            &mut txn,
            &q,
            9,
            message(alloc, 4, true, b"gone")?
        )
    );
    assert_eq!(rt; (txn.items(), txn.len()), (3, 64));
    assert_eq!(rt; told(staging.pop_first()), Some((0, 27)));
    assert_eq!(rt; told(staging.pop_first()), Some((1, 0)));
    assert_eq!(rt; told(staging.pop_first()), Some((1, 52)));
    assert_eq!(rt; told(staging.pop_first()), Some((0, 9)));
    assert_eq!(rt; told(staging.pop_first()), None);
    Ok(())
}

/// A put that is committed alone has its body at the end of its 29 bytes; an acknowledgement has 15.
#[test]
fn lines_that_are_committed_alone(rt: HostRuntime) -> Result<(), Fail> {
    let alloc = rt.alloc();
    let q = name(alloc, b'q')?;
    let mut txn = Txn::with_room(alloc, 8_000_000)?;
    let first = message(alloc, 1, true, b"hi")?;
    assert!(rt; first.persistent());
    assert_eq!(rt; enter_alone(&mut txn, &q, &first), 27);
    assert_eq!(rt; (txn.items(), txn.len()), (1, 29));
    let mut other = Txn::with_room(alloc, GONE_ROOM)?;
    go_alone(&mut other, &q, 1);
    assert_eq!(rt; (other.items(), other.len()), (1, 15));
    Ok(())
}

/// The parcel of a persistent message has the receipt, and its body's place in the journal; that of another neither. A
/// place stays at the greatest.
#[test]
fn parcels_of_messages_that_enter(rt: HostRuntime) -> Result<(), Fail> {
    let alloc = rt.alloc();
    let receipt = Receipt { ticket: 3, at: 29 };
    let parcel = entering(message(alloc, 1, true, b"hi")?, 27, Some(receipt));
    assert_eq!(rt; parcel.receipt(), Some(receipt));
    let parcel = entering(message(alloc, 1, false, b"hi")?, 0, Some(receipt));
    assert_eq!(rt; parcel.receipt(), None);
    assert_eq!(rt;
        (each_for(0), each_for(100), each_for(67_108_864)),
        (4, 104, 67_108_864)
    );
    Ok(())
}
