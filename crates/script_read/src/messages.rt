//! The message that an object says.
ghost use Rattle.std.specs.Prelude.{◌≡◌, ◌≤◌, [], option_map, option_and_then, unwrap_or, IfOk};
ghost use Rattle.std.specs.List.{All, IsDistinct};
ghost use Rattle.std.specs.Str.{IsUtf8, bytes_eq};
ghost use Rattle.std.specs.String.{string_bytes};
ghost use Rattle.serde_json.specs.Data.{no_members};
ghost use Rattle.serde_json.specs.Find.{as_bool, as_number, as_object, as_str, as_u64};
ghost use Rattle.serde_json.specs.View.{members_view, view};
ghost use Rattle.message_core.specs.Spelling.{IsReadable, IsText, names, parts};
ghost use Rattle.script_read.specs.Messages.{header_value, headers_of, message_of};
ghost use Rattle.script_read.specs.Parts.{content_said, of_message, priority_in};
ghost use Rattle.script_read.specs.Reading.{Gives};

use crate::faults::LineFault;
use crate::pieces::{Pieces, pieces_of};
use byte_lists::{Bytes, NoMemory};
use message_core::{Header, HeaderValue, Message, MessageFault};
use serde_json::{Map, Value};
use std::alloc::Global;

/// The priority of a message whose line has none.
const USUAL_PRIORITY: u64 = 4;

/// The text's bytes. Takes no memory.
fn bytes_of(text: String) -> Bytes
    ensures value { result ≡ string_bytes text }
    ensures utf8 { IsUtf8 result }
{
    Bytes::from_vec(text.into_bytes())
}

/// The value of a header: only texts, truth values and whole numbers of 64 bits are one.
fn header_value(value: Value) -> HeaderValue
    ensures value { result ≡ header_value (view value) }
    ensures text { IsText result }
{
    match value {
        Value::Bool(truth) => HeaderValue::Bool(truth),
        Value::Number(number) => HeaderValue::Int(number.as_i64().unwrap_or(0)),
        Value::String(text) => HeaderValue::Text(bytes_of(text)),
        Value::Null | Value::Array(_) | Value::Object(_) => HeaderValue::Bool(false),
    }
}

/// The members as headers, in the byte order of their names.
fn headers_of(alloc: Global, members: Map<String, Value>) -> Result<Vec<Header>, NoMemory>
    ensures value { IfOk result
        (λ headers. headers.items ≡ headers_of (members_view members.entries)) }
    ensures readable { IfOk result (λ headers. All IsReadable headers.items) }
    ensures distinct { IfOk result (λ headers. IsDistinct bytes_eq (names headers.items)) }
{
    let Ok(mut headers) = Vec::with_capacity(alloc, members.len()) else {
        return Err(NoMemory);
    };
    for (name, value) in members {
        let header = Header {
            name: bytes_of(name),
            value: header_value(value),
        };
        match headers.push(header) {
            Ok(()) => {}
            Err(_) => return Err(NoMemory),
        }
    }
    Ok(headers)
}

/// The members of the object; none where it is something else.
fn members_of(alloc: Global, value: Option<Value>) -> Map<String, Value>
    ensures { members_view result.entries
        ≡ unwrap_or (option_and_then as_object (option_map (λ v. view v) value)) no_members }
{
    match value {
        Some(Value::Object(members)) => members,
        _ => Map::new(alloc),
    }
}

/// The bytes of the text; none where it is something else.
fn text_of(alloc: Global, value: Option<Value>) -> Bytes
    ensures { result ≡ unwrap_or (option_and_then as_str (option_map (λ v. view v) value)) [] }
{
    match value {
        Some(Value::String(text)) => bytes_of(text),
        _ => Bytes::from_vec(Vec::new(alloc)),
    }
}

/// The whole number from 0 to 2^64 - 1 that the value is; none where it is something else.
fn number_of(value: Option<Value>) -> Option<u64>
    ensures { result
        ≡ option_and_then as_u64 (option_and_then as_number (option_map (λ v. view v) value)) }
{
    match value {
        Some(value) => value.as_u64(),
        None => None,
    }
}

/// The truth value that the value is; none where it is something else.
fn truth_of(value: Option<Value>) -> Option<bool>
    ensures { result ≡ option_and_then as_bool (option_map (λ v. view v) value) }
{
    match value {
        Some(value) => value.as_bool(),
        None => None,
    }
}

/// A refusal of a message's parts, as a cause of its line.
fn cause_of(fault: MessageFault) -> LineFault
    ensures { result ≡ of_message fault }
{
    match fault {
        MessageFault::BadPriority | MessageFault::DoubleHeader => LineFault::BadValue,
        MessageFault::TooLong => LineFault::TooLong,
        MessageFault::NoMemory => LineFault::NoMemory,
    }
}

/// The message of these parts; TooLong where it passes a limit.
fn made(
    alloc: Global,
    id: u64,
    persistent: bool,
    priority: u8,
    headers: Vec<Header>,
    body: Bytes,
) -> Result<Message, LineFault>
    requires priority { priority ≤ 9 }
    requires readable { All IsReadable headers.items }
    requires distinct { IsDistinct bytes_eq (names headers.items) }
    ensures { Gives result (content_said (parts id persistent priority headers.items body)) }
{
    match Message::make(alloc, id, persistent, priority, headers, body) {
        Ok(message) => Ok(message),
        Err(fault) => Err(cause_of(fault)),
    }
}

/// The message that the object says, where its fields have allowed values; TooLong where it passes a limit. Moves the
/// body and the headers' texts out of the object.
pub(crate) fn message_of(alloc: Global, value: Value) -> Result<Message, LineFault>
    requires { priority_in (view value) ≤ 9 }
    ensures { Gives result (content_said (message_of (view value))) }
{
    let pieces = pieces_of(members_of(alloc, Some(value)));
    let Pieces {
        id,
        persistent,
        priority,
        headers,
        body,
    } = pieces;
    let id = number_of(id).unwrap_or(0);
    let persistent = truth_of(persistent).unwrap_or(false);
    let priority = number_of(priority).unwrap_or(USUAL_PRIORITY) as u8;
    let body = text_of(alloc, body);
    match headers_of(alloc, members_of(alloc, headers)) {
        Ok(headers) => made(alloc, id, persistent, priority, headers, body),
        Err(_) => Err(LineFault::NoMemory),
    }
}
