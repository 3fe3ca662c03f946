//! Journals that are made, and what they hold.
use crate::{init_command, recover_command};
use byte_lists::Bytes;
use command_line::journal_path;
use command_status::Status;
use disk_core::MemoryDisk;
use outside_io::MemorySink;
use std::alloc::Global;
use std::process::Abort;
use std::test::Fail;

// A journal with one commit, message 7, persistent, with the body `hi`, to queue `q`; and the batch that it is gone, behind
// the gate at 58.
const JOURNAL: [u8; 87] = [
    0x51, 0x50, 0x49, 0x44, 0x51, 0x4a, 0x4e, 0x4c, 0, 0, 0, 1, 0, 0, 0, 0, 1, 0, 0, 0, 0, 0, 0, 0,
    0x21, 0, 0, 0, 1, 0, 0, 0, 1, 1, 1, 0x71, 0, 0, 0, 0x12, 0, 0, 0, 0, 0, 0, 0, 7, 1, 4, 0, 0, 0,
    0, 0, 2, 0x68, 0x69, 0, 0, 0, 0, 0, 0, 0, 0, 0x13, 0, 0, 0, 1, 0, 0, 0, 1, 2, 1, 0x71, 0, 0, 0,
    0, 0, 0, 0, 7, 0,
];

// A batch whose item has the tag 9.
const BAD_TAG: [u8; 35] = [
    0x51, 0x50, 0x49, 0x44, 0x51, 0x4a, 0x4e, 0x4c, 0, 0, 0, 1, 0, 0, 0, 0, 1, 0, 0, 0, 0, 0, 0, 0,
    9, 0, 0, 0, 1, 0, 0, 0, 1, 9, 0,
];

// A disk with these bytes and room for 16 calls and 17 written bytes, which fails at these calls.
fn disk_of(alloc: Global, content: &[u8], failing: &[u64]) -> Result<MemoryDisk, Fail> {
    let bytes = Bytes::of(alloc, content)?;
    let failing = Vec::from_slice(alloc, failing)?;
    Ok(MemoryDisk::of(alloc, bytes, 16, 17, failing)?)
}

// Makes a journal on the disk, with such room for the output; compares the end, and gives the disk back.
fn check_init(
    rt: &(impl Abort + AllocGlobal),
    disk: MemoryDisk,
    room: u64,
    want: (Status, &str),
) -> Result<MemoryDisk, Fail> {
    let alloc = rt.alloc();
    let words = [
        String::from_str(alloc, "init")?,
        String::from_str(alloc, "a")?,
    ];
    let mut sink = MemorySink::of(alloc, room, Vec::new(alloc))?;
    let (status, disk) = init_command(alloc, &words, &mut sink, disk);
    assert_eq!(rt; status, want.0);
    assert_eq!(rt; sink.bytes(), want.1.as_bytes());
    Ok(disk)
}

// Tells what the journal on the disk holds, with such room for the output, and compares the end.
fn check_recover(
    rt: &(impl Abort + AllocGlobal),
    disk: MemoryDisk,
    room: u64,
    want: (Status, &str),
) -> Result<(), Fail> {
    let alloc = rt.alloc();
    let words = [
        String::from_str(alloc, "recover")?,
        String::from_str(alloc, "a")?,
    ];
    let mut sink = MemorySink::of(alloc, room, Vec::new(alloc))?;
    let (status, _disk) = recover_command(alloc, &words, &mut sink, disk);
    assert_eq!(rt; status, want.0);
    assert_eq!(rt; sink.bytes(), want.1.as_bytes());
    Ok(())
}

#[test]
fn a_journal_that_is_made(rt: HostRuntime) -> Result<(), Fail> {
    let empty = disk_of(rt.alloc(), b"", &[])?;
    let made = check_init(&rt, empty, 99, (Status::Done, "created\n"))?;
    let refused = (Status::JournalRefused, "fault: not empty 17\n");
    let made = check_init(&rt, made, 99, refused)?;
    check_recover(&rt, made, 99, (Status::Done, "commits 0 entries 0\n"))
}

#[test]
fn what_a_journal_holds(rt: HostRuntime) -> Result<(), Fail> {
    let alloc = rt.alloc();
    let one = (Status::Done, "entry q 7\ncommits 1 entries 1\n");
    check_recover(&rt, disk_of(alloc, &JOURNAL, &[])?, 99, one)?;
    let mut opened = JOURNAL;
    opened[58] = 1;
    let gone = (Status::Done, "commits 2 entries 0\n");
    check_recover(&rt, disk_of(alloc, &opened, &[])?, 99, gone)?;
    let cut = (Status::WriteFault, "entry q 7\nc");
    check_recover(&rt, disk_of(alloc, &JOURNAL, &[])?, 11, cut)
}

#[test]
fn refused_journals(rt: HostRuntime) -> Result<(), Fail> {
    let alloc = rt.alloc();
    let none = (Status::JournalRefused, "fault: journal at 0\n");
    check_recover(&rt, disk_of(alloc, &JOURNAL[..10], &[])?, 99, none)?;
    check_recover(&rt, disk_of(alloc, &[0; 17], &[])?, 99, none)?;
    let damaged = (Status::JournalRefused, "fault: journal at 33\n");
    check_recover(&rt, disk_of(alloc, &BAD_TAG, &[])?, 99, damaged)?;
    let long = (Status::JournalRefused, "fault: not empty 10\n");
    let _disk = check_init(&rt, disk_of(alloc, &JOURNAL[..10], &[])?, 99, long)?;
    Ok(())
}

#[test]
fn disks_and_sinks_that_fail(rt: HostRuntime) -> Result<(), Fail> {
    let alloc = rt.alloc();
    let failed = (Status::DeviceFault, "fault: disk\n");
    for call in 0..3 {
        let disk = disk_of(alloc, b"", &[call])?;
        let _disk = check_init(&rt, disk, 99, failed)?;
    }
    for call in 0..3 {
        check_recover(&rt, disk_of(alloc, &JOURNAL, &[call])?, 99, failed)?;
    }
    let cut = (Status::WriteFault, "crea");
    let made = check_init(&rt, disk_of(alloc, b"", &[])?, 4, cut)?;
    check_recover(&rt, made, 99, (Status::Done, "commits 0 entries 0\n"))
}

// Calls both with two words that are not theirs.
fn check_words(
    rt: &(impl Abort + AllocGlobal),
    first: &str,
    second: &str,
    path: Option<&str>,
) -> Result<(), Fail> {
    let alloc = rt.alloc();
    let words = [
        String::from_str(alloc, first)?,
        String::from_str(alloc, second)?,
    ];
    let mut sink = MemorySink::of(alloc, 99, Vec::new(alloc))?;
    let disk = disk_of(alloc, b"", &[])?;
    let (status, disk) = init_command(alloc, &words, &mut sink, disk);
    assert_eq!(rt; status, Status::WordsRefused);
    let (status, disk) = recover_command(alloc, &words, &mut sink, disk);
    assert_eq!(rt; status, Status::WordsRefused);
    assert_eq!(rt; sink.bytes(), b"fault: words\nfault: words\n".as_slice());
    assert_eq!(rt; disk.calls(), 0);
    assert!(rt; journal_path(&words) == path);
    Ok(())
}

#[test]
fn refused_words(rt: HostRuntime) -> Result<(), Fail> {
    check_words(&rt, "run", "a", Some("a"))?;
    check_words(&rt, "init", "-a", None)?;
    check_words(&rt, "recover", "", None)?;
    check_words(&rt, "select", "a", None)
}
