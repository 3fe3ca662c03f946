ghost use Rattle.std.specs.Prelude.{◌≤◌, length, IfOk};

use crate::{CreateFault, DeviceFault, Journal, OpenFault, create, open_journal};
use byte_lists::{Buffer, Bytes};
use disk_core::{Disk, MemoryDisk};
use journal_format::Txn;
use journal_format::batches::batch_size;
use std::alloc::Global;
use std::process::Abort;
use std::test::Fail;

/// A journal with no commits.
const EMPTY: &[u8] = b"QPIDQJNL\0\0\0\x01\0\0\0\0\0";

/// A journal with one commit: entry 7 is gone from queue q.
const ONE: &[u8] =
    b"QPIDQJNL\0\0\0\x01\0\0\0\0\x01\0\0\0\0\0\0\0\x13\0\0\0\x01\0\0\0\x01\x02\x01q\0\0\0\0\0\0\0\x07\0";

// A disk with these bytes, which fails at these calls.
fn disk_of(alloc: Global, content: &[u8], failing: &[u64]) -> Result<MemoryDisk, Fail> {
    let bytes = Bytes::of(alloc, content)?;
    let failing = Vec::from_slice(alloc, failing)?;
    Ok(MemoryDisk::of(alloc, bytes, 99, 999, failing)?)
}

// That entry is gone from queue q.
fn gone(alloc: Global, id: u64) -> Result<Txn, Fail>
    ensures { IfOk result (λ t. 1 ≤ length t.items) }
{
    let queue = Bytes::of(alloc, b"q")?;
    let mut txn = Txn::with_room(alloc, 64)?;
    txn.gone(&queue, id)?;
    Ok(txn)
}

// Appends that entry 7 is gone from queue q.
fn append_seven(
    rt: &impl Abort,
    alloc: Global,
    journal: &mut Journal<MemoryDisk>,
) -> Result<Result<u64, DeviceFault>, Fail> {
    let txns = [gone(alloc, 7)?];
    let mut scratch = Buffer::with_room(alloc, 64)?;
    assert!(rt; journal.is_clean());
    assert!(rt; batch_size(&txns) < 64);
    Ok(journal.append(&txns, &mut scratch))
}

// A journal that `create` made on a disk that fails at these calls: 0 to 2 are those of `create`.
fn created(alloc: Global, failing: &[u64]) -> Result<Journal<MemoryDisk>, Fail> {
    match create(disk_of(alloc, b"", failing)?) {
        Ok(journal) => Ok(journal),
        Err((fault, _)) => Err(fault.into()),
    }
}

// What a journal over these bytes gives as its bytes.
fn bytes_of(alloc: Global, content: &[u8]) -> Result<Result<Bytes, OpenFault>, Fail> {
    match open_journal(alloc, disk_of(alloc, content, &[])?) {
        Ok(mut journal) => {
            if journal.is_clean() {
                Ok(journal.bytes(alloc))
            } else {
                Ok(Err(OpenFault::NotJournal))
            }
        }
        Err((fault, _)) => Ok(Err(fault)),
    }
}

// The same bytes, but for the gate at the end: a crash may have left any byte there that isn't 1.
fn is_like(found: &[u8], want: &[u8]) -> bool {
    match (found.split_last(), want.split_last()) {
        (Some((_, found)), Some((_, want))) => found == want,
        _ => false,
    }
}

// Each image of each moment since that one, by the picks 0 to 7, is a journal with these bytes, or with those.
fn check_images(
    rt: &impl Abort,
    alloc: Global,
    disk: &MemoryDisk,
    since: u64,
    either: [&[u8]; 2],
) -> Result<(), Fail> {
    for moment in since..disk.moments() {
        for pick in 0..8u64 {
            let image = disk.image(alloc, moment, pick)?;
            let found = bytes_of(alloc, image.as_slice())??;
            let is_either = is_like(found.as_slice(), either[0])
                || is_like(found.as_slice(), either[1]);
            assert!(rt; is_either, "at moment {moment}, by pick {pick}");
        }
    }
    Ok(())
}

#[test]
fn ample(rt: HostRuntime) -> Result<(), Fail> {
    let alloc = rt.alloc();
    let mut journal = created(alloc, &[])?;
    assert_eq!(rt; append_seven(&rt, alloc, &mut journal)?, Ok(29));
    let mut body = Buffer::with_room(alloc, 8)?;
    assert!(rt; journal.is_clean());
    assert_eq!(rt; journal.bytes(alloc)?.as_slice(), ONE);
    let mut disk = journal.into_disk();
    assert_eq!(rt; disk.calls(), 8);
    assert_eq!(rt; disk.len(), Ok(45));
    match open_journal(alloc, disk) {
        Ok(mut journal) => {
            assert_eq!(rt; journal.read_body(42, &mut body, 6), Ok(()));
            assert_eq!(rt; body.as_slice(), b"\0\x07\0\0\0\0".as_slice());
        }
        Err((fault, _)) => return Err(fault.into()),
    }
    Ok(())
}

#[test]
fn each_image_has_the_batch_or_none_of_it(rt: HostRuntime) -> Result<(), Fail> {
    let alloc = rt.alloc();
    // Nothing fails; then each call of the append does: the body, its sync, the gate, its sync.
    let failing: [&[u64]; 5] = [&[], &[3], &[4], &[5], &[6]];
    for calls in failing {
        let mut journal = created(alloc, calls)?;
        let answer = append_seven(&rt, alloc, &mut journal)?;
        assert_eq!(rt;
            answer,
            if calls.is_empty() {
                Ok(29)
            } else {
                Err(DeviceFault)
            }
        );
        assert_eq!(rt; journal.is_clean(), calls.is_empty());
        let disk = journal.into_disk();
        check_images(&rt, alloc, &disk, 2, [EMPTY, ONE])?;
        if calls.is_empty() {
            check_images(&rt, alloc, &disk, disk.moments() - 1, [ONE, ONE])?;
        }
    }
    Ok(())
}

#[test]
fn a_repair_takes_the_failed_batch_away(rt: HostRuntime) -> Result<(), Fail> {
    let alloc = rt.alloc();
    // A call of the append fails. In all there are three calls of `create`, those of the append up to that one, those
    // of the repair, one or two, and four of an append more.
    let failing: [(&[u64], u64); 4] = [(&[3], 9), (&[4], 10), (&[5], 12), (&[6], 13)];
    for (calls, want) in failing {
        let mut journal = created(alloc, calls)?;
        assert_eq!(rt; append_seven(&rt, alloc, &mut journal)?, Err(DeviceFault));
        assert_eq!(rt; journal.repair(), Ok(()));
        assert!(rt; journal.is_clean());
        assert_eq!(rt; append_seven(&rt, alloc, &mut journal)?, Ok(29));
        let disk = journal.into_disk();
        assert_eq!(rt; disk.calls(), want);
        check_images(&rt, alloc, &disk, 2, [EMPTY, ONE])?;
    }
    // A repair that fails leaves the journal unclean.
    let mut journal = created(alloc, &[5, 6, 8])?;
    assert_eq!(rt; append_seven(&rt, alloc, &mut journal)?, Err(DeviceFault));
    assert_eq!(rt; journal.repair(), Err(DeviceFault));
    assert!(rt; !journal.is_clean());
    assert_eq!(rt; journal.repair(), Err(DeviceFault));
    assert_eq!(rt; journal.repair(), Ok(()));
    check_images(&rt, alloc, &journal.into_disk(), 2, [EMPTY, ONE])
}

#[test]
fn what_is_no_journal_is_refused(rt: HostRuntime) -> Result<(), Fail> {
    let alloc = rt.alloc();
    let faults: [(&[u8], OpenFault); 6] = [
        (b"", OpenFault::NotJournal),
        (b"QPIDQJNL\0\0\0\x01\0\0\0\0", OpenFault::NotJournal),
        (b"QPIDQJNL\0\0\0\x02\0\0\0\0\0", OpenFault::NotJournal),
        // No length; a length that leaves no gate; no transaction.
        (
            b"QPIDQJNL\0\0\0\x01\0\0\0\0\x01",
            OpenFault::Damaged { at: 17 },
        ),
        (
            b"QPIDQJNL\0\0\0\x01\0\0\0\0\x01\0\0\0\0\0\0\0\x01\0",
            OpenFault::Damaged { at: 17 },
        ),
        (
            b"QPIDQJNL\0\0\0\x01\0\0\0\0\x01\0\0\0\0\0\0\0\x04\0\0\0\0\0",
            OpenFault::Damaged { at: 25 },
        ),
    ];
    for (content, want) in faults {
        match bytes_of(alloc, content)? {
            Ok(_) => panic!(rt; "opened"),
            Err(fault) => assert_eq!(rt; fault, want),
        }
    }
    // What follows a shut gate has no meaning.
    let longer = b"QPIDQJNL\0\0\0\x01\0\0\0\0\0\x01\x02\x03";
    assert_eq!(rt; bytes_of(alloc, longer)??.as_slice(), EMPTY);
    Ok(())
}

#[test]
fn a_disk_that_has_bytes_is_left_alone(rt: HostRuntime) -> Result<(), Fail> {
    let alloc = rt.alloc();
    match create(disk_of(alloc, b"seven!!", &[])?) {
        Ok(_) => panic!(rt; "a journal"),
        Err((fault, disk)) => {
            assert_eq!(rt; fault, CreateFault::NotEmpty { len: 7 });
            assert_eq!(rt; disk.moments(), 1);
        }
    }
    for failing in 0..3u64 {
        match create(disk_of(alloc, b"", &[failing])?) {
            Ok(_) => panic!(rt; "a journal"),
            Err((fault, _)) => assert_eq!(rt; fault, CreateFault::DeviceFault),
        }
        match open_journal(alloc, disk_of(alloc, EMPTY, &[failing])?) {
            Ok(_) => panic!(rt; "a journal"),
            Err((fault, _)) => assert_eq!(rt; fault, OpenFault::DeviceFault),
        }
    }
    Ok(())
}
