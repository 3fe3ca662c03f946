use crate::{Disk, FileDisk, MemoryDisk};
use byte_lists::Bytes;
use outside_io::Failed;
use std::alloc::Global;
use std::fs;
use std::process::Abort;
use std::test::Fail;

// A disk with these bytes and room for 16 calls and 16 written bytes, which fails at these calls.
fn disk_of(alloc: Global, content: &[u8], failing: &[u64]) -> Result<MemoryDisk, Fail> {
    let bytes = Bytes::of(alloc, content)?;
    let failing = Vec::from_slice(alloc, failing)?;
    Ok(MemoryDisk::of(alloc, bytes, 16, 16, failing)?)
}

// Asks for the length, and writes where the disk has that place: two calls.
fn write<D: Disk>(disk: &mut D, at: u64, bytes: &[u8]) -> Result<(), Failed> {
    let len = disk.len()?;
    if len < at {
        return Err(Failed);
    }
    disk.write_at(at, bytes)
}

// The disk reads so.
fn check_content<D: Disk>(rt: &impl Abort, disk: &mut D, want: &[u8]) {
    assert_eq!(rt; disk.len(), Ok(want.len() as u64));
    let mut buffer = [9u8; 24];
    assert_eq!(rt; disk.read_at(0, &mut buffer), Ok(want.len()));
    assert!(rt; want.len() <= 24);
    assert_eq!(rt; &buffer[..want.len()], want);
}

// One image of that moment.
fn check_image(
    rt: &impl Abort,
    alloc: Global,
    disk: &MemoryDisk,
    moment: u64,
    pick: u64,
    want: &[u8],
) -> Result<(), Fail> {
    assert!(rt; moment < disk.moments());
    let image = disk.image(alloc, moment, pick)?;
    assert_eq!(rt;
        image.as_slice(),
        want,
        "at moment {moment}, by pick {pick}"
    );
    Ok(())
}

#[test]
fn ample(rt: HostRuntime) -> Result<(), Fail> {
    let mut disk = disk_of(rt.alloc(), b"abc", &[])?;
    assert_eq!(rt; write(&mut disk, 1, b"xyz"), Ok(()));
    assert_eq!(rt; disk.sync(), Ok(()));
    check_content(&rt, &mut disk, b"axyz");
    assert_eq!(rt; disk.calls(), 5);
    assert_eq!(rt; disk.moments(), 3);
    check_image(&rt, rt.alloc(), &disk, 2, 0, b"axyz")
}

#[test]
fn calls_fail_where_they_are_told_to(rt: HostRuntime) -> Result<(), Fail> {
    let mut disk = disk_of(rt.alloc(), b"abc", &[0, 1, 3, 4])?;
    let mut buffer = [9u8; 2];
    assert_eq!(rt; disk.len(), Err(Failed));
    assert_eq!(rt; disk.read_at(0, &mut buffer), Err(Failed));
    assert_eq!(rt; buffer, [9, 9]);
    assert_eq!(rt; write(&mut disk, 1, b"xyz"), Err(Failed));
    assert_eq!(rt; disk.sync(), Err(Failed));
    assert_eq!(rt; disk.moments(), 1);
    check_content(&rt, &mut disk, b"abc");
    // A read stops at the end, and past the end it gives nothing.
    assert_eq!(rt; disk.read_at(2, &mut buffer), Ok(1));
    assert_eq!(rt; buffer, [b'c', 9]);
    assert_eq!(rt; disk.read_at(7, &mut buffer), Ok(0));
    // The last byte that fits, and one more.
    assert_eq!(rt; write(&mut disk, 3, b"0123456789abcdef"), Ok(()));
    assert_eq!(rt; write(&mut disk, 0, b"!"), Err(Failed));
    check_content(&rt, &mut disk, b"abc0123456789abcdef");
    // There were 15 calls, and the 17th is one too many.
    assert_eq!(rt; disk.calls(), 15);
    assert_eq!(rt; disk.sync(), Ok(()));
    assert_eq!(rt; disk.sync(), Err(Failed));
    Ok(())
}

#[test]
fn a_crash_leaves_one_of_the_images(rt: HostRuntime) -> Result<(), Fail> {
    let mut disk = disk_of(rt.alloc(), b"abcdef", &[])?;
    assert_eq!(rt; write(&mut disk, 2, b"XY"), Ok(()));
    assert_eq!(rt; disk.sync(), Ok(()));
    assert_eq!(rt; write(&mut disk, 4, b"1234"), Ok(()));
    let images: [(u64, u64, &[u8]); 14] = [
        (0, 0, b"abcdef"),
        (0, 1, b"abcdef"),
        (1, 0, b"abcdef"),
        (1, 1, b"abXYef"),
        (1, 2, b"abXdef"),
        (1, 3, b"ab\xff\xffef"),
        (1, 4, b"abcdef\x01\xff\x00"),
        (1, 5, b"abXYef\x01\xff\x00"),
        (2, 0, b"abXYef"),
        (2, 7, b"abXYef"),
        (3, 0, b"abXYef"),
        (3, 1, b"abXY1234"),
        (3, 6, b"abXY12\x01\xff\x00"),
        (3, 7, b"abXY\xff\xff\xff\xff\x01\xff\x00"),
    ];
    for (moment, pick, want) in images {
        check_image(&rt, rt.alloc(), &disk, moment, pick, want)?;
    }
    Ok(())
}

#[test]
fn each_write_has_a_digit(rt: HostRuntime) -> Result<(), Fail> {
    let mut disk = disk_of(rt.alloc(), b"ab", &[])?;
    assert_eq!(rt; write(&mut disk, 2, b"cd"), Ok(()));
    assert_eq!(rt; write(&mut disk, 4, b"ef"), Ok(()));
    let images: [(u64, &[u8]); 6] = [
        (0, b"ab"),
        (1, b"abcdef"),
        (9, b"abcdef"),
        (17, b"abcde"),
        // The second write would begin behind the end.
        (8, b"ab"),
        (10, b"abc"),
    ];
    for (pick, want) in images {
        check_image(&rt, rt.alloc(), &disk, 2, pick, want)?;
    }
    Ok(())
}

#[test]
fn a_file_keeps_what_was_written(rt: HostRuntime) -> Result<(), Fail> {
    let name = "a_file_keeps_what_was_written.bytes";
    let _ = fs::remove_file(&rt, name);
    let mut disk = FileDisk::named(rt, String::from_str(rt.alloc(), name)?);
    check_content(&rt, &mut disk, b"");
    assert_eq!(rt; write(&mut disk, 0, b"abcdef"), Ok(()));
    assert_eq!(rt; write(&mut disk, 4, b"12345"), Ok(()));
    assert_eq!(rt; disk.sync(), Ok(()));
    let mut again = FileDisk::named(rt, String::from_str(rt.alloc(), name)?);
    check_content(&rt, &mut again, b"abcd12345");
    fs::remove_file(&rt, name)?;
    // An opening that is refused.
    let mut lost = FileDisk::named(rt, String::from_str(rt.alloc(), "no/such/folder")?);
    assert_eq!(rt; lost.len(), Err(Failed));
    Ok(())
}
