//! Lists of bytes and of numbers that contracts see as plain lists.
ghost use Rattle.std.specs.Prelude.{◌≡◌, [], ◌++◌, ◌+◌, ◌≤◌, length, IfOk};

use std::alloc::Global;
use std::marker::Model;
use thiserror::Error;

/// Want of memory. It is merged with no other refusal, and no clause says when it comes.
#[derive(Clone, Copy, Debug, PartialEq, Eq, Error)]
#[error("out of memory")]
pub struct NoMemory;

/// Bytes that are kept as they are. Contracts see the list of them.
#[derive(Debug, Drop)]
pub struct Bytes {
    items: Vec<u8>,
}

impl Model for Bytes {
    ghost use Rattle.std.specs.Prelude.{List, ℕ};

    ghost Value = { List ℕ };

    ghost view = { λ b. b.items.items };
}

impl Bytes {
    /// A copy of the bytes. Refuses only for want of memory.
    pub fn of(alloc: Global, bytes: &[u8]) -> Result<Bytes, NoMemory>
        ensures { IfOk result (λ b. b ≡ bytes.now) }
    {
        match Vec::from_slice(alloc, bytes) {
            Ok(items) => Ok(Bytes { items }),
            Err(_) => Err(NoMemory),
        }
    }

    /// The vector's bytes. Takes no memory.
    pub fn from_vec(items: Vec<u8>) -> Bytes
        ensures { result ≡ items.items }
    {
        Bytes { items }
    }

    /// The bytes as a vector. Takes no memory.
    pub fn into_vec(self) -> Vec<u8>
        ensures { result.items ≡ self }
    {
        let Bytes { items } = self;
        items
    }

    /// The bytes.
    pub fn as_slice(&self) -> &[u8]
        ensures { result.now ≡ self.now }
    {
        self.items.as_slice()
    }
}

/// Bytes that grow at the end, within room that was taken before. Contracts see the bytes, and the
/// room: how many bytes it can hold in all without taking memory.
#[derive(Debug, Drop)]
pub struct Buffer {
    items: Vec<u8>,
}

impl Model for Buffer {
    ghost use Rattle.std.specs.Prelude.{vec_capacity};
    ghost use Rattle.byte_lists.specs.Room.{Roomy};

    ghost Value = { Roomy };

    ghost view = { λ b. record { bytes = b.items.items; room = vec_capacity b.items } };
}

impl Buffer {
    /// An empty buffer with room for at least so many bytes. Refuses only for want of memory.
    pub fn with_room(alloc: Global, bytes: u64) -> Result<Buffer, NoMemory>
        ensures empty { IfOk result (λ b. b.bytes ≡ []) }
        ensures room { IfOk result (λ b. bytes ≤ b.room) }
    {
        match Vec::with_capacity(alloc, bytes as usize) {
            Ok(items) => Ok(Buffer { items }),
            Err(_) => Err(NoMemory),
        }
    }

    /// Puts the bytes at the end, which must fit into the room behind those that are there. Takes no memory,
    /// and never lowers the room.
    pub fn append(&mut self, bytes: &[u8])
        requires { length self.old.bytes + length bytes.now ≤ self.old.room }
        ensures bytes { self.new.bytes ≡ self.old.bytes ++ bytes.now }
        ensures room { self.old.room ≤ self.new.room }
    {
        self.items.extend_from_slice(bytes).unwrap();
    }

    /// Takes all bytes out, and keeps the room.
    pub fn clear(&mut self)
        ensures bytes { self.new.bytes ≡ [] }
        ensures room { self.new.room ≡ self.old.room }
    {
        self.items.clear();
    }

    /// The bytes as a vector. Takes no memory.
    pub fn into_vec(self) -> Vec<u8>
        ensures { result.items ≡ self.bytes }
    {
        let Buffer { items } = self;
        items
    }

    /// The bytes.
    pub fn as_slice(&self) -> &[u8]
        ensures { result.now ≡ self.now.bytes }
    {
        self.items.as_slice()
    }
}

/// Where a content came from, as a list of numbers that goes with it. Contracts see the list.
#[derive(Debug, Drop)]
pub struct Origin {
    numbers: Vec<u64>,
}

impl Model for Origin {
    ghost use Rattle.std.specs.Prelude.{List, ℕ};

    ghost Value = { List ℕ };

    ghost view = { λ o. o.numbers.items };
}

impl Origin {
    /// The origin of what came from nowhere: no numbers. Takes no memory.
    pub fn none(alloc: Global) -> Origin
        ensures { result ≡ [] }
    {
        Origin {
            numbers: Vec::new(alloc),
        }
    }

    /// The vector's numbers. Takes no memory.
    pub fn from_vec(numbers: Vec<u64>) -> Origin
        ensures { result ≡ numbers.items }
    {
        Origin { numbers }
    }

    /// The numbers.
    pub fn as_slice(&self) -> &[u64]
        ensures { result.now ≡ self.now }
    {
        self.numbers.as_slice()
    }
}
