use crate::{Parcel, Receipt, Staged, Staging};
use acts_core::Cargo;
use message_core::Message;
use std::alloc::Global;
use std::test::Fail;

// A message with id 7 and this body: 16 bytes, and those of the body.
fn message(alloc: Global, body: &[u8]) -> Result<Message, Fail> {
    let body = byte_lists::Bytes::of(alloc, body)?;
    Ok(Message::make(alloc, 7, true, 4, Vec::new(alloc), body)?)
}

// What a queue asks of its cargo.
fn facts<C: Cargo>(cargo: &C) -> (u64, u64, u32) {
    (cargo.id(), cargo.size(), cargo.count())
}

#[test]
fn ample(rt: HostRuntime) -> Result<(), Fail> {
    let receipt = Receipt { ticket: 3, at: 29 };
    let mut parcel = Parcel::of(message(rt.alloc(), b"hi")?, Some(receipt), 56);
    assert_eq!(rt; facts(&parcel), (7, 18, 0));
    assert_eq!(rt; parcel.receipt(), Some(receipt));
    assert_eq!(rt; parcel.message().id(), 7);
    assert!(rt; parcel.persistent());
    assert!(rt; parcel.is_here());
    assert_eq!(rt; parcel.body(), b"hi".as_slice());
    parcel.raise();
    parcel.carried();
    assert_eq!(rt; parcel.receipt(), None);
    assert_eq!(rt; parcel.delivered(), 1);
    assert_eq!(rt; facts(&parcel), (7, 18, 1));
    Ok(())
}

// The acknowledgement of a row.
fn ack(alloc: Global, row: u64) -> Result<Staged, Fail> {
    let parcel = Parcel::of(message(alloc, b"hi")?, None, 0);
    Ok(Staged::Ack {
        queue: 1,
        row,
        parcel,
    })
}

// The row that an acknowledgement is of.
fn row_of(staged: Option<Staged>) -> Option<u64> {
    match staged {
        Some(Staged::Ack { row, .. }) => Some(row),
        _ => None,
    }
}

#[test]
fn what_is_staged_comes_out_in_order(rt: HostRuntime) -> Result<(), Fail> {
    let mut staging = Staging::with_room(rt.alloc(), 2)?;
    staging.push(ack(rt.alloc(), 5)?);
    staging.push(ack(rt.alloc(), 3)?);
    assert_eq!(rt; row_of(staging.pop_first()), Some(5));
    assert_eq!(rt; row_of(staging.pop_first()), Some(3));
    assert!(rt; staging.pop_first().is_none());
    staging.push(ack(rt.alloc(), 4)?);
    assert_eq!(rt; row_of(staging.pop_first()), Some(4));
    Ok(())
}
