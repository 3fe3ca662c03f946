//! Adapters of std's readers and writers. They are the edge to the outside: no contract knows what a
//! file, a socket or a terminal gives and takes, so they tell nothing of content.
ghost use Rattle.std.specs.Prelude.{◌≡◌, ◌+◌, ◌<◌, ◌≤◌, length, take, None, is_err, IfOk, if◌then◌else◌};
ghost use Rattle.outside_io.specs.Told.{HasCause, Reads, Writes};
ghost use Rattle.std.specs.Io.KnownBytes.{ReadConsumes, WriteAppends};
ghost use Rattle.outside_io.specs.Counts.{last_count, IsSpent};

use crate::outside::{Failed, Sink, Source};
use std::io::{Read, Write};
use std::marker::Model;

/// A source over one of std's readers. It counts each error of the reader. After 2^64 - 1 of them it
/// reads no more, and answers Ok(0).
#[derive(Drop)]
pub struct StdSource<R> {
    inner: R,
    faults: u64,
}

impl<R> Model for StdSource<R> {
    ghost use Rattle.outside_io.specs.Adapter.{AdapterView};

    ghost Value = { AdapterView R };

    ghost view = { λ s. record { inner = s.inner; faults = s.faults } };
}

impl<R> StdSource<R> {
    /// A source over this reader, with no faults yet.
    pub fn new(inner: R) -> Self
        ensures { result ≡ record { inner = inner; faults = 0 } }
    {
        StdSource { inner, faults: 0 }
    }
}

impl<R: Read> Source for StdSource<R> {
    ghost left = { λ _. None };

    ghost faults = { λ s. s.faults };

    /// What the reader gives in one call.
    fn read(&mut self, buffer: &mut [u8]) -> Result<usize, Failed>
        requires { 0 < length buffer.old }

        // What every source keeps.
        ensures bound { IfOk result (λ n. n ≤ length buffer.new) }
        ensures takes { Reads None None result buffer.new }
        ensures cause { HasCause self.old.faults self.new.faults result }

        // Each error is counted. Where the reader itself tells its bytes, these are what was read.
        ensures counted { self.new.faults ≡
            (if is_err result then self.old.faults + 1 else self.old.faults) }
        ensures passed { self.old.faults < last_count →
            ReadConsumes (R.remaining self.old.inner) (R.remaining self.new.inner) result buffer.new }

        // The end of the counter: the reader is reached no more.
        ensures top { self.new.faults ≤ last_count }
        ensures spent { IsSpent self.old.faults →
            (result ≡ Ok 0) × (self.new ≡ self.old) × (buffer.new ≡ buffer.old) }
    {
        if self.faults == u64::MAX {
            return Ok(0);
        }
        match self.inner.read(buffer) {
            Ok(count) => Ok(count),
            Err(_) => {
                self.faults += 1;
                Err(Failed)
            }
        }
    }
}

/// A sink over one of std's writers. It counts each error of the writer, and each write that took
/// nothing. After 2^64 - 1 of them it writes no more, and answers Ok with the number of all bytes.
#[derive(Drop)]
pub struct StdSink<W> {
    inner: W,
    faults: u64,
}

impl<W> Model for StdSink<W> {
    ghost use Rattle.outside_io.specs.Adapter.{AdapterView};

    ghost Value = { AdapterView W };

    ghost view = { λ s. record { inner = s.inner; faults = s.faults } };
}

impl<W> StdSink<W> {
    /// A sink over this writer, with no faults yet.
    pub fn new(inner: W) -> Self
        ensures { result ≡ record { inner = inner; faults = 0 } }
    {
        StdSink { inner, faults: 0 }
    }
}

impl<W: Write> Sink for StdSink<W> {
    ghost written = { λ _. None };

    ghost faults = { λ s. s.faults };

    /// What the writer takes in one call.
    fn write(&mut self, bytes: &[u8]) -> Result<usize, Failed>
        requires { 0 < length bytes.now }

        // What every sink keeps.
        ensures adds { Writes None None result bytes.now }
        ensures cause { HasCause self.old.faults self.new.faults result }

        // Each error, and each write of nothing, is counted. Where the writer itself tells its bytes,
        // these are what was written.
        ensures counted { self.new.faults ≡
            (if is_err result then self.old.faults + 1 else self.old.faults) }
        ensures passed { self.old.faults < last_count →
            WriteAppends (W.contents self.old.inner) (W.contents self.new.inner) result bytes.now }

        // The end of the counter: the writer is reached no more.
        ensures top { self.new.faults ≤ last_count }
        ensures spent { IsSpent self.old.faults →
            (result ≡ Ok (length bytes.now)) × (self.new ≡ self.old) }
    {
        if self.faults == u64::MAX {
            return Ok(bytes.len());
        }
        match self.inner.write(bytes) {
            Ok(0) | Err(_) => {
                self.faults += 1;
                Err(Failed)
            }
            Ok(count) => Ok(count),
        }
    }
}
