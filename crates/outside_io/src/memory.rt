//! A source and a sink over memory, which fail at the calls that they are told to fail at.
ghost use Rattle.std.specs.Prelude.{◌≡◌, ◌+◌, ◌-◌, ◌<◌, ◌≤◌, ◌↔◌, ◌++◌, [], min, length, take, drop, vec_len, vec_capacity, IfOk, MatchResult, OnErr, IsErr, IsTrue};
ghost use Rattle.outside_io.specs.Told.{HasCause, Reads, Writes};
ghost use Rattle.outside_io.specs.Counts.{last_count, next_call, IsSpent, IsListed};
ghost use Rattle.outside_io.specs.Memory.{left_of, written_of, FailsNext, RefusesNext};

use crate::outside::{Failed, Sink, Source};
use byte_lists::{Bytes, NoMemory};
use std::alloc::Global;
use std::marker::Model;

/// A source over bytes in memory. Each call has a number, from 0, and exactly the calls whose numbers
/// are in its list fail. The number stays at 2^64 - 1 once it is there, and that call is not failed.
/// After 2^64 - 1 failed calls it answers Ok(0) for ever, and tells nothing.
#[derive(Debug, Drop)]
pub struct MemorySource {
    bytes: Bytes,
    at: usize,
    call: u64,
    failing: Vec<u64>,
    faults: u64,
}

impl Model for MemorySource {
    ghost use Rattle.std.specs.Prelude.{◌≤◌, length, drop};
    ghost use Rattle.outside_io.specs.Memory.{SourceView};

    ghost Value = { SourceView };

    ghost view = { λ s. record {
      left = drop s.at s.bytes;
      call = s.call;
      failing = s.failing.items;
      faults = s.faults;
    } };

    ghost invariant = { λ s. s.at ≤ length s.bytes };
}

impl MemorySource {
    /// A source that has these bytes, and fails at the calls with these numbers. Takes no memory.
    pub fn of(bytes: Bytes, failing: Vec<u64>) -> MemorySource
        ensures { result ≡ record { left = bytes; call = 0; failing = failing.items; faults = 0 } }
    {
        MemorySource {
            bytes,
            at: 0,
            call: 0,
            failing,
            faults: 0,
        }
    }
}

impl Source for MemorySource {
    ghost left = { left_of };

    ghost faults = { λ s. s.faults };

    /// As many bytes as the buffer and what is left allow. The buffer keeps what it has behind them, and all
    /// that it has where the read fails.
    fn read(&mut self, buffer: &mut [u8]) -> Result<usize, Failed>
        requires { 0 < length buffer.old }

        // What every source keeps.
        ensures bound { IfOk result (λ n. n ≤ length buffer.new) }
        ensures takes { Reads (left_of self.old) (left_of self.new) result buffer.new }
        ensures cause { HasCause self.old.faults self.new.faults result }

        // Which calls fail, how many bytes the others move, and what each leaves.
        ensures fails { IsErr result ↔ FailsNext self.old }
        ensures failed { OnErr result (self.new ≡ record self.old {
          call = next_call self.old.call;
          faults = self.old.faults + 1;
        }) }
        ensures count { self.old.faults < last_count →
            IfOk result (λ n. n ≡ min (length buffer.old) (length self.old.left)) }
        ensures rest { self.old.faults < last_count → IfOk result (λ n. self.new ≡ record self.old {
          left = drop n self.old.left;
          call = next_call self.old.call;
        }) }
        ensures behind { MatchResult result
            (λ n. drop n buffer.new ≡ drop n buffer.old) (λ _. buffer.new ≡ buffer.old) }

        // The end of the counter: nothing is reached any more, and nothing changes.
        ensures top { self.new.faults ≤ last_count }
        ensures spent { IsSpent self.old.faults →
            (result ≡ Ok 0) × (self.new ≡ self.old) × (buffer.new ≡ buffer.old) }
    {
        if self.faults == u64::MAX {
            return Ok(0);
        }
        let call = self.call;
        self.call = call_after(call);
        if is_listed(self.failing.as_slice(), call) {
            self.faults += 1;
            return Err(Failed);
        }
        let count = copy_front(&self.bytes.as_slice()[self.at..], buffer);
        self.at += count;
        Ok(count)
    }
}

/// A sink over memory, with room for so many bytes and no more. Each call has a number, from 0. Exactly
/// the calls fail whose numbers are in its list, and those that find the room full. The number stays at
/// 2^64 - 1 once it is there, and that call is not failed by the list. After 2^64 - 1 failed calls it
/// answers Ok for ever, writes nothing and tells nothing.
#[derive(Debug, Drop)]
pub struct MemorySink {
    bytes: Vec<u8>,
    room: usize,
    call: u64,
    failing: Vec<u64>,
    faults: u64,
}

impl Model for MemorySink {
    ghost use Rattle.std.specs.Prelude.{◌≤◌, vec_len, vec_capacity};
    ghost use Rattle.outside_io.specs.Memory.{SinkView};

    ghost Value = { SinkView };

    ghost view = { λ s. record {
      written = s.bytes.items;
      room = s.room;
      call = s.call;
      failing = s.failing.items;
      faults = s.faults;
    } };

    ghost invariant = { λ s. (vec_len s.bytes ≤ s.room) × (s.room ≤ vec_capacity s.bytes) };
}

impl MemorySink {
    /// A sink with room for so many bytes, which fails at the calls with these numbers. It takes the
    /// room's memory now and none later, and refuses only for want of it.
    pub fn of(alloc: Global, room: u64, failing: Vec<u64>) -> Result<MemorySink, NoMemory>
        ensures { IfOk result (λ s. s ≡ record {
          written = [];
          room = room;
          call = 0;
          failing = failing.items;
          faults = 0;
        }) }
    {
        let room = room as usize;
        match Vec::with_capacity(alloc, room) {
            Ok(bytes) => Ok(MemorySink {
                bytes,
                room,
                call: 0,
                failing,
                faults: 0,
            }),
            Err(_) => Err(NoMemory),
        }
    }

    /// The bytes that were written.
    pub fn bytes(&self) -> &[u8]
        ensures bytes { result.now ≡ self.now.written }
        ensures fits { length self.now.written ≤ self.now.room }
    {
        self.bytes.as_slice()
    }
}

impl Sink for MemorySink {
    ghost written = { written_of };

    ghost faults = { λ s. s.faults };

    /// As many bytes as fit. Takes no memory.
    fn write(&mut self, bytes: &[u8]) -> Result<usize, Failed>
        requires { 0 < length bytes.now }

        // What every sink keeps.
        ensures adds { Writes (written_of self.old) (written_of self.new) result bytes.now }
        ensures cause { HasCause self.old.faults self.new.faults result }

        // Which calls fail, how many bytes the others write, and what each leaves.
        ensures fails { IsErr result ↔ RefusesNext self.old }
        ensures failed { OnErr result (self.new ≡ record self.old {
          call = next_call self.old.call;
          faults = self.old.faults + 1;
        }) }
        ensures count { self.old.faults < last_count →
            IfOk result (λ n. n ≡ min (length bytes.now) (self.old.room - length self.old.written)) }
        ensures gained { self.old.faults < last_count → IfOk result (λ n. self.new ≡ record self.old {
          written = self.old.written ++ take n bytes.now;
          call = next_call self.old.call;
        }) }

        // The end of the counter: nothing is reached any more, and nothing changes.
        ensures top { self.new.faults ≤ last_count }
        ensures spent { IsSpent self.old.faults →
            (result ≡ Ok (length bytes.now)) × (self.new ≡ self.old) }
    {
        if self.faults == u64::MAX {
            return Ok(bytes.len());
        }
        let call = self.call;
        self.call = call_after(call);
        if self.bytes.len() == self.room || is_listed(self.failing.as_slice(), call) {
            self.faults += 1;
            return Err(Failed);
        }
        let count = bytes.len().min(self.room - self.bytes.len());
        append_front(&mut self.bytes, bytes, count);
        Ok(count)
    }
}

// The number of the call after this one.
fn call_after(call: u64) -> u64
    ensures { result ≡ next_call call }
{
    call.saturating_add(1)
}

// Whether the list fails the call of this number.
fn is_listed(failing: &[u64], call: u64) -> bool
    ensures { IsTrue result ↔ IsListed failing.now call }
{
    call != u64::MAX && failing.contains(&call)
}

// Copies as many bytes as both have room for to the front of `into`.
fn copy_front(from: &[u8], into: &mut [u8]) -> usize
    ensures count { result ≡ min (length into.old) (length from.now) }
    ensures parts { from.now ≡ take result into.new ++ drop result from.now }
    ensures behind { drop result into.new ≡ drop result into.old }
{
    let count = into.len().min(from.len());
    into[..count].copy_from_slice(&from[..count]);
    count
}

// Appends the first bytes, in room that is there.
fn append_front(items: &mut Vec<u8>, bytes: &[u8], count: usize)
    requires count { count ≤ length bytes.now }
    requires room { vec_len items.old + count ≤ vec_capacity items.old }
    ensures items { items.new.items ≡ items.old.items ++ take count bytes.now }
    ensures room { vec_capacity items.old ≤ vec_capacity items.new }
{
    items.extend_from_slice(&bytes[..count]).unwrap();
}
