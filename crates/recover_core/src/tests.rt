use super::*;
use byte_lists::Bytes;
use disk_core::MemoryDisk;
use journal_core::OpenFault;
use std::alloc::Global;
use std::process::Abort;
use std::test::*;

/// A journal with two commits: message 7, persistent, priority 4, body `hi`, to queue `q`; and that it is gone.
const JOURNAL: [u8; 86] = [
    0x51, 0x50, 0x49, 0x44, 0x51, 0x4a, 0x4e, 0x4c, 0, 0, 0, 1, 0, 0, 0, 0, 1, 0, 0, 0, 0, 0, 0, 0,
    0x21, 0, 0, 0, 1, 0, 0, 0, 1, 1, 1, 0x71, 0, 0, 0, 0x12, 0, 0, 0, 0, 0, 0, 0, 7, 1, 4, 0, 0, 0,
    0, 0, 2, 0x68, 0x69, 1, 0, 0, 0, 0, 0, 0, 0, 0x13, 0, 0, 0, 1, 0, 0, 0, 1, 2, 1, 0x71, 0, 0, 0,
    0, 0, 0, 0, 7,
];

/// A disk with the first so many bytes of the journal, of which one is another, and a closed gate behind them.
fn disk(rt: &impl Abort, alloc: Global, len: usize, at: usize, byte: u8) -> MemoryDisk {
    assert!(rt; len <= JOURNAL.len() && at < len);
    let mut bytes = Vec::from_slice(alloc, &JOURNAL[..len]).expect(rt, "memory");
    bytes[at] = byte;
    bytes.push(0).ok().expect(rt, "memory");
    MemoryDisk::of(alloc, Bytes::from_vec(bytes), 16, 0, Vec::new(alloc)).expect(rt, "memory")
}

fn recovered(rt: &impl Abort, alloc: Global, disk: MemoryDisk) -> Recovered {
    match recover(alloc, disk) {
        Ok((journal, recovered)) => {
            let _disk = journal.into_disk();
            recovered
        }
        Err(_) => panic!(rt; "refused"),
    }
}

fn refused(rt: &impl Abort, alloc: Global, disk: MemoryDisk) -> OpenFault {
    match recover(alloc, disk) {
        Ok(_) => panic!(rt; "a journal"),
        Err((fault, _)) => fault,
    }
}

/// Makes the calls that may want memory, with ample memory: the entry of the first commit, with its places.
#[test]
fn ample(rt: HostRuntime) {
    let alloc = rt.alloc();
    let found = recovered(&rt, alloc, disk(&rt, alloc, 58, 16, 1));
    assert_eq!(rt; found.commits, 1);
    assert_eq!(rt; found.entries.len(), 1);
    let entry = found.entries.get(0).expect(&rt, "an entry");
    assert_eq!(rt; entry.queue.as_slice(), b"q".as_slice());
    assert_eq!(rt; entry.message.id(), 7);
    assert_eq!(rt; entry.at, 29);
    assert_eq!(rt; entry.body_at, 56);
}

/// Behind the second commit the entry is gone; where it is of another queue or id, the entry stays.
#[test]
fn entries_that_are_gone(rt: HostRuntime) {
    let alloc = rt.alloc();
    for (at, byte, left) in [(85, 7, 0), (85, 8, 1), (77, 0x72, 1)] {
        let found = recovered(&rt, alloc, disk(&rt, alloc, 86, at, byte));
        assert_eq!(rt; found.commits, 2);
        assert_eq!(rt; found.entries.len(), left);
    }
}

/// What stands behind a closed gate has no meaning.
#[test]
fn closed_gates(rt: HostRuntime) {
    let alloc = rt.alloc();
    let none = recovered(&rt, alloc, disk(&rt, alloc, 86, 16, 0));
    assert_eq!(rt; none.commits, 0);
    assert!(rt; none.entries.is_empty());
    let one = recovered(&rt, alloc, disk(&rt, alloc, 86, 58, 2));
    assert_eq!(rt; one.commits, 1);
    assert_eq!(rt; one.entries.len(), 1);
}

#[test]
fn refusals(rt: HostRuntime) {
    let alloc = rt.alloc();
    assert_eq!(rt;
        refused(&rt, alloc, disk(&rt, alloc, 15, 0, 0x51)),
        OpenFault::NotJournal
    );
    assert_eq!(rt;
        refused(&rt, alloc, disk(&rt, alloc, 58, 11, 2)),
        OpenFault::NotJournal
    );
    let damaged = refused(&rt, alloc, disk(&rt, alloc, 58, 48, 0));
    assert_eq!(rt; damaged, OpenFault::Damaged { at: 48 });
    let cut = refused(&rt, alloc, disk(&rt, alloc, 80, 16, 1));
    assert_eq!(rt; cut, OpenFault::Damaged { at: 59 });
}
