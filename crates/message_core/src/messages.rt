//! Messages.
ghost use Rattle.std.specs.Prelude.{◌≡◌, ◌+◌, ◌≤◌, ◌++◌, [], length, IfErr, IfOk, Ok};
ghost use Rattle.std.specs.List.{All};
ghost use Rattle.std.specs.Option.{option_copied};
ghost use Rattle.message_core.specs.Spelling.{Content, content, parts, value_of, IsReadable, IsMessage};
ghost use Rattle.message_core.specs.Making.{IsRefused};
ghost use Rattle.message_core.specs.Reading.{message_of, Decodes};

use crate::faults::{DecodeFault, MessageFault};
use crate::headers::{Header, HeaderValue};
use crate::limits::{MOST_HEADERS, TOP_PRIORITY};
use crate::names::has_double;
use crate::reading::{Fields, all_fields_of};
use crate::sizes::{has_long_name, headers_size};
use crate::writing::put_headers;
use byte_lists::{Buffer, Bytes, MOST_BYTES};
use std::alloc::Global;
use std::marker::Model;

/// How many bytes of an encoding are neither a header's nor the body's.
const OTHER_BYTES: u64 = 16;

/// A message. Contracts see its five fields, and that they are a message's: a priority of at most 9, headers
/// with distinct names and within their limits, and an encoding of at most 1,048,576 bytes.
#[derive(Debug, Drop)]
pub struct Message {
    id: u64,
    persistent: bool,
    priority: u8,
    headers: Vec<Header>,
    body: Bytes,
}

impl Model for Message {
    ghost use Rattle.message_core.specs.Spelling.{Content, IsMessage, parts};

    ghost Value = { Content };

    ghost view = { λ m. parts m.id m.persistent m.priority m.headers.items m.body };

    ghost invariant = { λ m. IsMessage (parts m.id m.persistent m.priority m.headers.items m.body) };
}

impl Message {
    /// The message of these parts, whose names and texts have to be UTF-8. A priority passes up to 9, and is else
    /// refused as BadPriority. Headers need names of their own: else it is DoubleHeader. What is then left is
    /// TooLong exactly where one of three limits is passed: 255 bytes for a name, 65,535 headers, and
    /// 1,048,576 bytes for the whole encoding. Where several are true, the first of these is answered; want of
    /// memory may come before them all.
    pub fn make(
        alloc: Global,
        id: u64,
        persistent: bool,
        priority: u8,
        headers: Vec<Header>,
        body: Bytes,
    ) -> Result<Message, MessageFault>
        requires { All IsReadable headers.items }
        ensures made { IfOk result (λ m.
            (m ≡ parts id persistent priority headers.items body) × IsMessage m) }
        ensures refused { IfErr result (λ e.
            IsRefused e (parts id persistent priority headers.items body)) }
    {
        if priority > TOP_PRIORITY {
            return Err(MessageFault::BadPriority);
        }
        match has_double(alloc, &headers) {
            Ok(true) => return Err(MessageFault::DoubleHeader),
            Ok(false) => {}
            Err(_) => return Err(MessageFault::NoMemory),
        }
        let size = headers_size(&headers).saturating_add(body.as_slice().len() as u64);
        let many = headers.len() as u64 > MOST_HEADERS;
        if many || has_long_name(&headers) || size > MOST_BYTES - OTHER_BYTES {
            return Err(MessageFault::TooLong);
        }
        Ok(Message {
            id,
            persistent,
            priority,
            headers,
            body,
        })
    }

    /// Reads a message back from its encoding, which has to be all of the bytes. NotMessage comes exactly where
    /// no message is spelled so; `at` is then where the first faulty field begins: one that the bytes end in,
    /// that has a value which it can't have, that repeats a name, or whose text isn't UTF-8. A name begins
    /// behind its length, and a text at its length. A byte after the body, and a byte above the limit of
    /// 1,048,576, is at fault where too many begin, unless an earlier place is at fault. NoMemory may come in
    /// place of any.
    pub fn decode(alloc: Global, bytes: &[u8]) -> Result<Message, DecodeFault>
        // What is read is a message, and the bytes are its encoding.
        ensures found { IfOk result (λ m. IsMessage m × (bytes.now ≡ content m)) }
        // The encoding of a message is read as that message, unless memory runs out.
        ensures only { (m : Content) → IsMessage m → bytes.now ≡ content m → Decodes result (Ok m) }
        // Where the first fault is.
        ensures exact { Decodes result (message_of bytes.now) }
    {
        let Fields {
            id,
            persistent,
            priority,
            headers,
            body,
        } = all_fields_of(alloc, bytes)?;
        Ok(Message {
            id,
            persistent,
            priority,
            headers,
            body,
        })
    }

    /// How many bytes the encoding has: at most 1,048,576.
    pub fn size(&self) -> u64
        ensures size { result ≡ length (content self.now) }
        ensures message { IsMessage self.now }
    {
        OTHER_BYTES + headers_size(&self.headers) + self.body.as_slice().len() as u64
    }

    /// Puts the encoding at the end of the buffer, which has to have room for it. Takes no memory.
    pub fn encode(&self, into: &mut Buffer)
        requires { length into.old.bytes + length (content self.now) ≤ into.old.room }
        ensures bytes { into.new.bytes ≡ into.old.bytes ++ content self.now }
        ensures room { into.old.room ≤ into.new.room }
    {
        into.append(&self.id.to_be_bytes());
        into.append(&[u8::from(self.persistent), self.priority]);
        into.append(&(self.headers.len() as u16).to_be_bytes());
        put_headers(&self.headers, into);
        let body = self.body.as_slice();
        into.append(&(body.len() as u32).to_be_bytes());
        into.append(body);
    }

    /// The message's id.
    pub fn id(&self) -> u64
        ensures { result ≡ self.now.id }
    {
        self.id
    }

    /// Whether the message outlives the process.
    pub fn persistent(&self) -> bool
        ensures { result ≡ self.now.persistent }
    {
        self.persistent
    }

    /// The priority, from 0 to 9.
    pub fn priority(&self) -> u8
        ensures value { result ≡ self.now.priority }
        ensures within { result ≤ TOP_PRIORITY }
    {
        self.priority
    }

    /// The value of the header with exactly the bytes of this name; None exactly where no header has it.
    pub fn header(&self, name: &[u8]) -> Option<&HeaderValue>
        ensures { option_copied result ≡ value_of name.now self.now.headers }
    {
        for header in &self.headers {
            if header.name.as_slice() == name {
                return Some(&header.value);
            }
        }
        None
    }

    /// The bytes of the body.
    pub fn body(&self) -> &[u8]
        ensures { result.now ≡ self.now.body }
    {
        self.body.as_slice()
    }

    /// Makes the body empty and gives its memory up; all else stays. Takes no memory.
    pub fn clear_body(&mut self)
        ensures { self.new ≡ record self.old { body = [] } }
    {
        let alloc = *self.headers.allocator();
        self.body = Bytes::from_vec(Vec::new(alloc));
    }
}
