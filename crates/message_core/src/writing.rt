//! Puts the bytes of headers at the end of a buffer.
ghost use Rattle.std.specs.Prelude.{◌≡◌, ◌+◌, ◌<◌, ◌≤◌, ◌^◌, ◌++◌, length};
ghost use Rattle.std.specs.List.{flat_map, All};
ghost use Rattle.message_core.specs.declared.limits.TheConstants.{LONGEST_NAME};
ghost use Rattle.message_core.specs.Spelling.{text_bytes, value_bytes, header_bytes, IsHeader};

use crate::headers::{Header, HeaderValue};
use byte_lists::Buffer;

/// Puts a text at the end, behind its length.
fn put_text(text: &[u8], into: &mut Buffer)
    requires short { length text.now < 2 ^ 32 }
    requires room { length into.old.bytes + length (text_bytes text.now) ≤ into.old.room }
    ensures bytes { into.new.bytes ≡ into.old.bytes ++ text_bytes text.now }
    ensures room { into.old.room ≤ into.new.room }
{
    into.append(&(text.len() as u32).to_be_bytes());
    into.append(text);
}

/// Puts a value at the end, behind its tag.
fn put_value(value: &HeaderValue, into: &mut Buffer)
    requires short { length (value_bytes value.now) < 2 ^ 32 }
    requires room { length into.old.bytes + length (value_bytes value.now) ≤ into.old.room }
    ensures bytes { into.new.bytes ≡ into.old.bytes ++ value_bytes value.now }
    ensures room { into.old.room ≤ into.new.room }
{
    match value {
        HeaderValue::Bool(truth) => into.append(&[u8::from(*truth)]),
        HeaderValue::Int(number) => {
            into.append(&[2]);
            into.append(&number.to_be_bytes());
        }
        HeaderValue::Text(text) => {
            into.append(&[3]);
            put_text(text.as_slice(), into);
        }
    }
}

/// Puts a header at the end.
fn put_header(header: &Header, into: &mut Buffer)
    requires name { length header.now.name ≤ LONGEST_NAME }
    requires short { length (header_bytes header.now) < 2 ^ 32 }
    requires room { length into.old.bytes + length (header_bytes header.now) ≤ into.old.room }
    ensures bytes { into.new.bytes ≡ into.old.bytes ++ header_bytes header.now }
    ensures room { into.old.room ≤ into.new.room }
{
    let name = header.name.as_slice();
    into.append(&[name.len() as u8]);
    into.append(name);
    put_value(&header.value, into);
}

/// Puts the bytes of all headers at the end, without their number. Takes no memory.
pub(crate) fn put_headers(headers: &[Header], into: &mut Buffer)
    requires headers { All IsHeader headers.now }
    requires short { length (flat_map header_bytes headers.now) < 2 ^ 32 }
    requires room { length into.old.bytes + length (flat_map header_bytes headers.now) ≤ into.old.room }
    ensures bytes { into.new.bytes ≡ into.old.bytes ++ flat_map header_bytes headers.now }
    ensures room { into.old.room ≤ into.new.room }
{
    for header in headers {
        put_header(header, into);
    }
}
