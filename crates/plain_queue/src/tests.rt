use crate::PlainQueue;
use byte_lists::Bytes;
use queue_model::{Depth, RowState};
use std::process::Abort;
use std::test::Fail;

// The entries and bytes that the queue has are these.
fn check_depth(rt: &impl Abort, queue: &PlainQueue, entries: u64, bytes: u64) {
    assert_eq!(rt; queue.depth(), Depth { entries, bytes });
}

#[test]
fn ample(rt: HostRuntime) -> Result<(), Fail> {
    let alloc = rt.alloc();
    let mut queue = PlainQueue::make(alloc);
    check_depth(&rt, &queue, 0, 0);
    assert_eq!(rt; queue.take(1), None);
    queue.put(7, Bytes::of(alloc, b"eighteen bytes all")?)?;
    check_depth(&rt, &queue, 1, 18);
    assert_eq!(rt; queue.row(0), Some((7, 18, RowState::Available)));
    assert_eq!(rt; queue.row(1), None);

    assert_eq!(rt; queue.take(1), Some(7));
    assert_eq!(rt; queue.row(0), Some((7, 18, RowState::Locked(1))));
    assert_eq!(rt; queue.take(2), None);
    assert!(rt; !queue.release(2, 7));
    assert!(rt; !queue.ack(2, 7));
    assert!(rt; queue.release(1, 7));
    assert_eq!(rt; queue.row(0), Some((7, 18, RowState::Available)));

    assert_eq!(rt; queue.take(1), Some(7));
    assert!(rt; queue.ack(1, 7));
    check_depth(&rt, &queue, 0, 0);
    assert_eq!(rt; queue.row(0), Some((7, 18, RowState::Deleted)));
    assert!(rt; !queue.ack(1, 7));
    Ok(())
}

#[test]
fn first_by_arrival(rt: HostRuntime) -> Result<(), Fail> {
    let alloc = rt.alloc();
    let mut queue = PlainQueue::make(alloc);
    queue.put(1, Bytes::of(alloc, b"one")?)?;
    // The next put requires room.
    assert!(rt; queue.depth().entries < 524_288);
    queue.put(2, Bytes::of(alloc, b"three")?)?;
    check_depth(&rt, &queue, 2, 8);
    assert_eq!(rt; queue.take(1), Some(1));
    assert!(rt; queue.release(1, 1));
    assert_eq!(rt; queue.take(3), Some(1));
    assert_eq!(rt; queue.take(3), Some(2));
    Ok(())
}
