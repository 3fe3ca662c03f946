ghost use Rattle.std.specs.Prelude.{◌≡◌, ◌≤◌, length, true, IfOk};

use super::batches::{batch_size, read_batch, write_batch};
use super::*;
use byte_lists::{Buffer, Bytes};
use message_core::{Message, MessageFault};
use std::alloc::Global;
use std::process::Abort;
use std::test::*;

/// A journal with one commit of message 7, persistent, priority 4, body `hi`, to queue `q`.
const JOURNAL: &[u8] = &[
    0x51, 0x50, 0x49, 0x44, 0x51, 0x4a, 0x4e, 0x4c, 0, 0, 0, 1, 0, 0, 0, 0, 1, 0, 0, 0, 0, 0, 0, 0,
    0x21, 0, 0, 0, 1, 0, 0, 0, 1, 1, 1, 0x71, 0, 0, 0, 0x12, 0, 0, 0, 0, 0, 0, 0, 7, 1, 4, 0, 0, 0,
    0, 0, 2, 0x68, 0x69, 0,
];
/// The place of the length of the batch, behind the open gate.
const LENGTH: u64 = 17;
/// A batch of one transaction: the entry 258 of queue `ab` is gone. Its length is 20, and a closed gate follows.
const GONE: &[u8] = &[
    0, 0, 0, 0, 0, 0, 0, 0x14, 0, 0, 0, 1, 0, 0, 0, 1, 2, 2, 0x61, 0x62, 0, 0, 0, 0, 0, 0, 1, 2, 0,
];

fn batch(rt: &impl Abort, alloc: Global, bytes: &[u8], at: u64) -> Batch {
    read_batch(alloc, bytes, at).ok().expect(rt, "a batch")
}

/// The place of the first fault of the batch at a place.
fn fault(rt: &impl Abort, alloc: Global, bytes: &[u8], at: u64) -> u64 {
    match read_batch(alloc, bytes, at) {
        Err(BatchFault::NotBatch { at }) => at,
        Err(BatchFault::NoMemory) => panic!(rt; "memory"),
        Ok(_) => panic!(rt; "a batch"),
    }
}

/// Two bytes of the journal that are others, by their places, and the place of the fault that they make.
type Broken = ((usize, u8), (usize, u8), u64);

/// One broken encoding for each cause and place.
const BROKEN: [Broken; 24] = [
    // the length: it leaves no byte for the next gate, or says more than there is
    ((24, 34), (24, 34), 17),
    ((17, 128), (24, 33), 17),
    // the number of transactions: cut, none, one too many
    ((24, 3), (24, 3), 25),
    ((28, 0), (28, 0), 25),
    ((28, 2), (28, 2), 58),
    // the number of items: cut, none, 65,537, one too many
    ((24, 6), (24, 6), 29),
    ((32, 0), (32, 0), 29),
    ((30, 1), (32, 1), 29),
    ((32, 2), (32, 2), 58),
    // a byte is left over
    ((55, 1), (39, 17), 57),
    // the tag
    ((33, 0), (33, 0), 33),
    ((33, 3), (33, 3), 33),
    // the queue's name: empty, of 65 bytes, cut
    ((34, 0), (34, 0), 34),
    ((34, 65), (34, 65), 34),
    ((34, 64), (34, 64), 34),
    // the length of the message, the message and an id: cut
    ((24, 13), (24, 13), 36),
    ((39, 19), (39, 19), 40),
    ((33, 2), (24, 18), 36),
    // within the message: its id is cut, not persistent, flag 2, priority 10, and the earlier of two
    ((39, 7), (39, 7), 40),
    ((48, 0), (48, 0), 48),
    ((48, 2), (48, 2), 48),
    ((49, 10), (49, 10), 49),
    ((48, 0), (49, 10), 48),
    // its body is cut
    ((39, 17), (39, 17), 56),
];

/// The place of the first fault where two bytes of the journal are others.
fn fault_with(rt: &impl Abort, alloc: Global, first: (usize, u8), second: (usize, u8)) -> u64 {
    let mut changed = Vec::from_slice(alloc, JOURNAL).expect(rt, "memory");
    assert!(rt; first.0 < changed.len() && second.0 < changed.len());
    changed[first.0] = first.1;
    changed[second.0] = second.1;
    fault(rt, alloc, &changed, LENGTH)
}

#[test]
fn first_faults(rt: HostRuntime) {
    let alloc = rt.alloc();
    for (first, second, place) in BROKEN {
        assert_eq!(rt; fault_with(&rt, alloc, first, second), place);
    }
    assert_eq!(rt;
        fault(&rt, alloc, &JOURNAL[..20], LENGTH),
        17,
        "the length is cut"
    );
    assert_eq!(rt; fault(&rt, alloc, JOURNAL, 70), 70, "past the end");
}

#[test]
fn vector_read(rt: HostRuntime) {
    let alloc = rt.alloc();
    let read = batch(&rt, alloc, JOURNAL, LENGTH);
    assert_eq!(rt; read.next, 58);
    assert_eq!(rt; read.txns.len(), 1);
    let txn = read.txns.get(0).expect(&rt, "a transaction");
    assert_eq!(rt; txn.len(), 1);
    match txn.get(0) {
        Some(Item::Entered { queue, message }) => {
            assert_eq!(rt; queue.as_slice(), b"q".as_slice());
            assert_eq!(rt; message.id(), 7);
            assert_eq!(rt; message.body(), b"hi".as_slice());
        }
        _ => panic!(rt; "no entry"),
    }
}

#[test]
fn gone_read(rt: HostRuntime) {
    let alloc = rt.alloc();
    let read = batch(&rt, alloc, GONE, 0);
    assert_eq!(rt; read.next, 28);
    let txn = read.txns.get(0).expect(&rt, "a transaction");
    match txn.get(0) {
        Some(Item::Gone { queue, id }) => {
            assert_eq!(rt; queue.as_slice(), b"ab".as_slice());
            assert_eq!(rt; *id, 258);
        }
        _ => panic!(rt; "no entry"),
    }
}

/// Message 7 of the journal.
fn seven(alloc: Global, body: Bytes) -> Result<Message, MessageFault>
    ensures { IfOk result (λ m. m.persistent ≡ true) }
{
    Message::make(alloc, 7, true, 4, Vec::new(alloc), body)
}

/// The transaction of the journal. The body is to stand at its byte 27.
fn commit(rt: &impl Abort, alloc: Global) -> Txn
    ensures { 1 ≤ length result.items }
{
    let queue = Bytes::of(alloc, b"q").expect(rt, "memory");
    let body = Bytes::of(alloc, b"hi").expect(rt, "memory");
    let message = seven(alloc, body).expect(rt, "a message");
    let item = Item::Entered { queue, message };
    let mut txn = Txn::with_room(alloc, item.size()).expect(rt, "memory");
    match &item {
        Item::Entered { queue, message } => {
            let place = txn.entered(queue, message).ok().expect(rt, "a place");
            assert_eq!(rt; place, 27);
        }
        Item::Gone { .. } => panic!(rt; "no entry"),
    }
    txn
}

#[test]
fn vector_written(rt: HostRuntime) {
    let alloc = rt.alloc();
    let txns = [commit(&rt, alloc)];
    let size = batch_size(&txns);
    assert_eq!(rt; size, 41);
    let mut buffer = Buffer::with_room(alloc, size + 1).expect(&rt, "memory");
    write_batch(&txns, &mut buffer);
    assert_eq!(rt; buffer.as_slice(), &JOURNAL[LENGTH as usize..]);
}

/// Makes every call that may want memory, with ample memory, and compares the answer.
#[test]
fn ample(rt: HostRuntime) {
    let alloc = rt.alloc();
    let txn = Txn::with_room(alloc, 64).expect(&rt, "memory");
    assert_eq!(rt; txn.items(), 0);
    assert_eq!(rt; txn.len(), 4);
    assert_eq!(rt; batch(&rt, alloc, JOURNAL, LENGTH).next, 58);
}
