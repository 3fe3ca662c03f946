use crate::{
    Failed, FreeGate, Gate, LineGate, MemorySink, MemorySource, Sink, Source, StdSink, StdSource,
    write_all,
};
use byte_lists::Bytes;
use std::alloc::Global;
use std::io::{Read, Write};
use std::process::Abort;
use std::sync::atomic::{AtomicU64, Ordering};
use std::test::Fail;
use std::{io, thread};

/// A reader that fails once, and then is at its end.
#[derive(Drop)]
struct BrokenReader {
    failed: bool,
}

impl Read for BrokenReader {
    fn read(&mut self, _buf: &mut [u8]) -> io::Result<usize> {
        if self.failed {
            return Ok(0);
        }
        self.failed = true;
        Err(io::Error::other("broken"))
    }
}

/// A writer that takes one byte at a time, up to its room, then nothing, and then fails.
#[derive(Drop)]
struct NarrowWriter {
    kept: Vec<u8>,
    room: usize,
    tired: bool,
}

impl Write for NarrowWriter {
    fn write(&mut self, buf: &[u8]) -> io::Result<usize> {
        if self.tired || buf.is_empty() {
            return Err(io::Error::other("tired"));
        }
        if self.kept.len() >= self.room {
            self.tired = true;
            return Ok(0);
        }
        self.kept.push(buf[0])?;
        Ok(1)
    }

    fn flush(&mut self) -> io::Result<()> {
        Ok(())
    }
}

#[test]
fn ample(rt: HostRuntime) -> Result<(), Fail> {
    let mut sink = MemorySink::of(rt.alloc(), 4, Vec::new(rt.alloc()))?;
    assert_eq!(rt; sink.bytes(), b"".as_slice());
    assert_eq!(rt; sink.write(b"abcdef"), Ok(4));
    assert_eq!(rt; sink.bytes(), b"abcd".as_slice());
    Ok(())
}

// Reads with a buffer of this size, as often as answers are wanted.
fn check_source(
    rt: &impl Abort,
    mut source: MemorySource,
    content: &[u8],
    size: usize,
    want: &[Result<usize, Failed>],
) {
    let mut buffer = [0u8; 4];
    let mut at = 0;
    for (number, answer) in want.iter().enumerate() {
        assert!(rt; 0 < size && size <= 4);
        let read = source.read(&mut buffer[..size]);
        assert_eq!(rt; read, *answer, "at read {number}");
        if let Ok(count) = read {
            assert!(rt; at <= content.len() && count <= content.len() - at);
            assert_eq!(rt;
                &buffer[..count],
                &content[at..at + count],
                "at read {number}"
            );
            at += count;
        }
    }
    assert_eq!(rt; at, content.len());
}

// Writes `abc`, as often as answers are wanted.
fn check_sink(
    rt: &impl Abort,
    mut sink: MemorySink,
    content: &[u8],
    want: &[Result<usize, Failed>],
) {
    for (number, answer) in want.iter().enumerate() {
        assert_eq!(rt; sink.write(b"abc"), *answer, "at write {number}");
    }
    assert_eq!(rt; sink.bytes(), content);
}

#[test]
fn fakes_fail_where_they_are_told_to(rt: HostRuntime) -> Result<(), Fail> {
    let alloc: Global = rt.alloc();
    let sources: [(&[u8], &[u64], usize, &[Result<usize, Failed>]); 3] = [
        (b"abc", &[0], 4, &[Err(Failed), Ok(3), Ok(0)]),
        (b"abcde", &[], 2, &[Ok(2), Ok(2), Ok(1), Ok(0), Ok(0)]),
        (
            b"abcd",
            &[4, 1],
            3,
            &[Ok(3), Err(Failed), Ok(1), Ok(0), Err(Failed), Ok(0)],
        ),
    ];
    for (content, failing, size, want) in sources {
        let bytes = Bytes::of(alloc, content)?;
        let source = MemorySource::of(bytes, Vec::from_slice(alloc, failing)?);
        check_source(&rt, source, content, size, want);
    }
    let sinks: [(u64, &[u64], &[u8], &[Result<usize, Failed>]); 4] = [
        (9, &[1], b"abcabc", &[Ok(3), Err(Failed), Ok(3)]),
        (3, &[], b"abc", &[Ok(3), Err(Failed), Err(Failed)]),
        (5, &[], b"abcab", &[Ok(3), Ok(2), Err(Failed)]),
        (0, &[], b"", &[Err(Failed)]),
    ];
    for (room, failing, content, want) in sinks {
        let sink = MemorySink::of(alloc, room, Vec::from_slice(alloc, failing)?)?;
        check_sink(&rt, sink, content, want);
    }
    Ok(())
}

#[test]
fn std_readers_and_writers(rt: HostRuntime) -> Result<(), Fail> {
    let mut buffer = [0u8; 2];
    let mut source = StdSource::new(b"abc".as_slice());
    assert_eq!(rt; source.read(&mut buffer), Ok(2));
    assert_eq!(rt; buffer.as_slice(), b"ab".as_slice());
    assert_eq!(rt; source.read(&mut buffer), Ok(1));
    assert_eq!(rt; buffer[0], b'c');
    assert_eq!(rt; source.read(&mut buffer), Ok(0));
    let mut source = StdSource::new(BrokenReader { failed: false });
    assert_eq!(rt; source.read(&mut buffer), Err(Failed));
    assert_eq!(rt; source.read(&mut buffer), Ok(0));

    let mut kept = Vec::new(rt.alloc());
    let mut sink = StdSink::new(&mut kept);
    assert_eq!(rt; sink.write(b"abc"), Ok(3));
    assert_eq!(rt; sink.write(b"d"), Ok(1));
    assert_eq!(rt; kept.as_slice(), b"abcd".as_slice());

    let mut narrow = NarrowWriter {
        kept: Vec::new(rt.alloc()),
        room: 1,
        tired: false,
    };
    let mut sink = StdSink::new(&mut narrow);
    assert_eq!(rt; sink.write(b"abc"), Ok(1));
    assert_eq!(rt; sink.write(b"bc"), Err(Failed));
    assert_eq!(rt; sink.write(b"bc"), Err(Failed));
    assert_eq!(rt; narrow.kept.as_slice(), b"a".as_slice());
    Ok(())
}

#[test]
fn writes_all_or_a_front(rt: HostRuntime) -> Result<(), Fail> {
    let mut sink = MemorySink::of(rt.alloc(), 8, Vec::new(rt.alloc()))?;
    assert_eq!(rt; write_all(&mut sink, b"abcde"), Ok(()));
    assert_eq!(rt; sink.bytes(), b"abcde".as_slice());
    assert_eq!(rt; write_all(&mut sink, b"fghij"), Err(Failed));
    assert_eq!(rt; sink.bytes(), b"abcdefgh".as_slice());
    assert_eq!(rt; write_all(&mut sink, b""), Ok(()));

    let mut narrow = NarrowWriter {
        kept: Vec::new(rt.alloc()),
        room: 3,
        tired: false,
    };
    let mut sink = StdSink::new(&mut narrow);
    assert_eq!(rt; write_all(&mut sink, b"abc"), Ok(()));
    assert_eq!(rt; write_all(&mut sink, b"d"), Err(Failed));
    assert_eq!(rt; narrow.kept.as_slice(), b"abc".as_slice());
    Ok(())
}

// Does a line behind a gate, and answers which line was done last before it.
fn pass<G: Gate>(gate: &G, last: &AtomicU64, line: u64) -> u64 {
    gate.before(line);
    let before = last.swap(line, Ordering::SeqCst);
    gate.after(line);
    before
}

#[test]
fn lines_pass_in_order(rt: HostRuntime) {
    let gate = LineGate::make(2, 10_000_000);
    let last = AtomicU64::new(1);
    let (of_third, of_second) = thread::join(
        &rt,
        || pass(&gate, &last, 3),
        || pass(&gate, &last, 2),
    );
    assert_eq!(rt; (of_second, of_third), (1, 2));
    assert!(rt; !gate.late());
}

#[test]
fn late_lines(rt: HostRuntime) {
    let gate = LineGate::make(2, 3);
    let last = AtomicU64::new(1);
    assert_eq!(rt; pass(&FreeGate, &last, 9), 1);
    assert_eq!(rt; pass(&gate, &last, 2), 9);
    assert!(rt; !gate.late());
    // Line 3 was not answered yet, and line 4 is not counted where it passes too early.
    assert_eq!(rt; pass(&gate, &last, 4), 2);
    assert!(rt; gate.late());
}
