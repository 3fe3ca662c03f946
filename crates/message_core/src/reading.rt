//! Reads the fields of a message from left to right.
ghost use Rattle.std.specs.Prelude.{◌≡◌, ◌-◌, ◌++◌, ◌∷◌, [], List, ℕ, Result, IfOk, MatchResult, Err};
ghost use Rattle.std.specs.Int.{w16, w32, w64};
ghost use Rattle.std.specs.Str.{is_utf8};
ghost use Rattle.message_core.specs.Names.{Holds};
ghost use Rattle.message_core.specs.Reading.{Gives, number_at, byte_at, bytes_at, flag_at, priority_at, utf8_at, name_at, text_at, value_at, header_at, headers_at, content_at, message_of, place_of, Refuses};
ghost use Rattle.message_core.specs.Spelling.{Content};
ghost use Rattle.message_core.specs.Fields.{view};

use crate::faults::DecodeFault;
use crate::headers::{Header, HeaderValue};
use crate::limits::TOP_PRIORITY;
use crate::names::add_name;
use crate::numbers::{ReadFault, byte_of, bytes_of, u16_of, u32_of, u64_of};
use byte_lists::{Bytes, MOST_BYTES};
use std::alloc::Global;
use std::collections::BTreeSet;
use std::str::from_utf8;

/// The fields of a message.
#[derive(Debug, Drop)]
pub(crate) struct Fields {
    pub(crate) id: u64,
    pub(crate) persistent: bool,
    pub(crate) priority: u8,
    pub(crate) headers: Vec<Header>,
    pub(crate) body: Bytes,
}

/// A flag, and the bytes after it.
#[tactic(auto, unfolding(crate::specs::Reading::flag_at))]
fn flag_of(bytes: &[u8]) -> Result<(bool, &[u8]), ReadFault>
    ensures { Gives (λ x. (x.0, x.1.now)) result (flag_at bytes.now) }
{
    match bytes {
        [] => Err(ReadFault::Left(0)),
        [0, rest @ ..] => Ok((false, rest)),
        [1, rest @ ..] => Ok((true, rest)),
        [_, ..] => Err(ReadFault::Left(bytes.len())),
    }
}

/// A priority, and the bytes after it.
#[tactic(auto, unfolding(crate::specs::Reading::priority_at))]
fn priority_of(bytes: &[u8]) -> Result<(u8, &[u8]), ReadFault>
    ensures { Gives (λ x. (x.0, x.1.now)) result (priority_at bytes.now) }
{
    let (priority, rest) = byte_of(bytes)?;
    if priority <= TOP_PRIORITY {
        Ok((priority, rest))
    } else {
        Err(ReadFault::Left(bytes.len()))
    }
}

/// Whether the bytes are UTF-8.
fn is_text(bytes: &[u8]) -> bool
    ensures { result ≡ is_utf8 bytes.now }
{
    from_utf8(bytes).is_ok()
}

/// The first so many bytes, which have to be UTF-8, and the bytes after them. A fault is where `left` bytes are
/// left.
#[tactic(auto, unfolding(crate::specs::Reading::utf8_at))]
fn utf8_of(left: usize, count: usize, bytes: &[u8]) -> Result<(&[u8], &[u8]), ReadFault>
    ensures { Gives (λ x. (x.0.now, x.1.now)) result (utf8_at left count bytes.now) }
{
    if bytes.len() < count {
        return Err(ReadFault::Left(left));
    }
    let (text, rest) = bytes.split_at(count);
    if is_text(text) {
        Ok((text, rest))
    } else {
        Err(ReadFault::Left(left))
    }
}

/// A name that isn't taken, which is taken afterwards, and the bytes after it.
#[tactic(auto, unfolding(crate::specs::Reading::name_at))]
fn name_of<'a>(
    taken: &mut BTreeSet<&'a [u8]>,
    bytes: &'a [u8],
) -> Result<(&'a [u8], &'a [u8]), ReadFault>
    ensures given { (ns : List (List ℕ)) → Holds taken.old ns
        → Gives (λ x. (x.0.now, x.1.now)) result (name_at ns bytes.now) }
    ensures holds { (ns : List (List ℕ)) → Holds taken.old ns
        → IfOk result (λ x. Holds taken.new (ns ++ x.0.now ∷ [])) }
{
    let (len, rest) = byte_of(bytes)?;
    let (name, after) = utf8_of(rest.len(), len as usize, rest)?;
    if add_name(taken, name)? {
        Ok((name, after))
    } else {
        Err(ReadFault::Left(rest.len()))
    }
}

/// A text, and the bytes after it.
#[tactic(auto, unfolding(crate::specs::Reading::text_at))]
fn text_of(bytes: &[u8]) -> Result<(&[u8], &[u8]), ReadFault>
    ensures { Gives (λ x. (x.0.now, x.1.now)) result (text_at bytes.now) }
{
    let (len, rest) = u32_of(bytes)?;
    utf8_of(bytes.len(), len as usize, rest)
}

/// A value, and the bytes after it.
#[tactic(auto, unfolding(crate::specs::Reading::value_at))]
fn value_of(alloc: Global, bytes: &[u8]) -> Result<(HeaderValue, &[u8]), ReadFault>
    ensures { Gives (λ x. (x.0, x.1.now)) result (value_at bytes.now) }
{
    match bytes {
        [] => Err(ReadFault::Left(0)),
        [0, rest @ ..] => Ok((HeaderValue::Bool(false), rest)),
        [1, rest @ ..] => Ok((HeaderValue::Bool(true), rest)),
        [2, rest @ ..] => {
            let (number, rest) = u64_of(rest)?;
            Ok((HeaderValue::Int(number.cast_signed()), rest))
        }
        [3, rest @ ..] => {
            let (text, rest) = text_of(rest)?;
            Ok((HeaderValue::Text(Bytes::of(alloc, text)?), rest))
        }
        [_, ..] => Err(ReadFault::Left(bytes.len())),
    }
}

/// A header whose name isn't taken, which is taken afterwards, and the bytes after it.
#[tactic(auto, unfolding(crate::specs::Reading::header_at))]
fn header_of<'a>(
    alloc: Global,
    taken: &mut BTreeSet<&'a [u8]>,
    bytes: &'a [u8],
) -> Result<(Header, &'a [u8]), ReadFault>
    ensures given { (ns : List (List ℕ)) → Holds taken.old ns
        → Gives (λ x. (x.0, x.1.now)) result (header_at ns bytes.now) }
    ensures holds { (ns : List (List ℕ)) → Holds taken.old ns
        → IfOk result (λ x. Holds taken.new (ns ++ x.0.name ∷ [])) }
{
    let (name, rest) = name_of(taken, bytes)?;
    let (value, rest) = value_of(alloc, rest)?;
    let name = Bytes::of(alloc, name)?;
    Ok((Header { name, value }, rest))
}

/// So many headers with distinct names, and the bytes after them.
fn headers_of(alloc: Global, count: u16, bytes: &[u8]) -> Result<(Vec<Header>, &[u8]), ReadFault>
    ensures { Gives (λ x. (x.0.items, x.1.now)) result (headers_at count [] bytes.now) }
{
    let mut taken = BTreeSet::new(alloc);
    let mut headers = Vec::new(alloc);
    let mut rest = bytes;
    for _ in 0..count {
        let (header, after) = header_of(alloc, &mut taken, rest)?;
        headers.push(header)?;
        rest = after;
    }
    Ok((headers, rest))
}

/// The fields at the front of the bytes, and the bytes after them.
#[tactic(auto, unfolding(crate::specs::Reading::content_at))]
pub(crate) fn fields_of(alloc: Global, bytes: &[u8]) -> Result<(Fields, &[u8]), ReadFault>
    ensures { Gives (λ x. (view x.0, x.1.now)) result (content_at bytes.now) }
{
    let (id, rest) = u64_of(bytes)?;
    let (persistent, rest) = flag_of(rest)?;
    let (priority, rest) = priority_of(rest)?;
    let (count, rest) = u16_of(rest)?;
    let (headers, rest) = headers_of(alloc, count, rest)?;
    let (len, rest) = u32_of(rest)?;
    let (body, rest) = bytes_of(len as usize, rest)?;
    let body = Bytes::of(alloc, body)?;
    let fields = Fields {
        id,
        persistent,
        priority,
        headers,
        body,
    };
    Ok((fields, rest))
}

/// The fault where so many of the bytes are left, or where too many begin if that comes first.
fn place(size: usize, left: usize) -> DecodeFault
    ensures { (r : Result Content ℕ) → r ≡ Err (place_of size left) → Refuses result r }
{
    let at = size.saturating_sub(left) as u64;
    DecodeFault::NotMessage {
        at: at.min(MOST_BYTES),
    }
}

/// The fields of a message, read from all of the bytes.
#[tactic(auto, unfolding(crate::specs::Reading::message_of))]
pub(crate) fn all_fields_of(alloc: Global, bytes: &[u8]) -> Result<Fields, DecodeFault>
    ensures { MatchResult result (λ fields. message_of bytes.now ≡ Ok (view fields))
        (λ e. Refuses e (message_of bytes.now)) }
{
    let size = bytes.len();
    match fields_of(alloc, bytes) {
        Ok((fields, rest)) if rest.is_empty() && size as u64 <= MOST_BYTES => Ok(fields),
        Ok((_, rest)) => Err(place(size, rest.len())),
        Err(ReadFault::Left(left)) => Err(place(size, left)),
        Err(ReadFault::NoMemory) => Err(DecodeFault::NoMemory),
    }
}
