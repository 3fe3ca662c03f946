ghost use Rattle.std.specs.Prelude.{◌<◌, length};
ghost use Rattle.std.specs.List.{All};
ghost use Rattle.std.specs.Str.{IsUtf8};
ghost use Rattle.message_core.specs.Spelling.{IsReadable, IsText};

use super::*;
use byte_lists::{Buffer, Bytes};
use std::alloc::Global;
use std::process::Abort;
use std::str::from_utf8;
use std::test::*;

/// Id 7, not persistent, priority 4, no header, body `hi`.
const HI: &[u8] = &[0, 0, 0, 0, 0, 0, 0, 7, 0, 4, 0, 0, 0, 0, 0, 2, 0x68, 0x69];
/// Id 2, persistent, priority 9, header price = 11.
const PRICE: &[u8] = &[
    0, 0, 0, 0, 0, 0, 0, 2, 1, 9, 0, 1, 5, 0x70, 0x72, 0x69, 0x63, 0x65, 2, 0, 0, 0, 0, 0, 0, 0,
    0x0b, 0, 0, 0, 0,
];
/// Id 1, priority 0, headers `a` = -2 and `b` = the text `hé`, body `x`.
const TWO: &[u8] = &[
    0, 0, 0, 0, 0, 0, 0, 1, 0, 0, 0, 2, 1, 0x61, 2, 255, 255, 255, 255, 255, 255, 255, 254, 1,
    0x62, 3, 0, 0, 0, 3, 0x68, 0xc3, 0xa9, 0, 0, 0, 1, 0x78,
];

fn text(rt: &impl Abort, alloc: Global, bytes: &[u8]) -> Bytes
    ensures { IsUtf8 result }
{
    let text = from_utf8(bytes).ok().expect(rt, "a text");
    Bytes::of(alloc, text.as_bytes()).expect(rt, "memory")
}

fn header(rt: &impl Abort, alloc: Global, name: &[u8], value: HeaderValue) -> Header
    requires { IsText value }
    ensures { IsReadable result }
{
    Header {
        name: text(rt, alloc, name),
        value,
    }
}

fn add(rt: &impl Abort, headers: &mut Vec<Header>, header: Header)
    requires old { All IsReadable headers.old.items }
    requires new { IsReadable header }
    ensures { All IsReadable headers.new.items }
{
    headers.push(header).ok().expect(rt, "memory");
}

fn body(rt: &impl Abort, alloc: Global, bytes: &[u8]) -> Bytes {
    Bytes::of(alloc, bytes).expect(rt, "memory")
}

fn repeated(rt: &impl Abort, alloc: Global, byte: u8, count: usize) -> Vec<u8> {
    vec![in alloc; byte; count].ok().expect(rt, "memory")
}

fn encoded(rt: &impl Abort, alloc: Global, message: &Message) -> Buffer {
    let mut bytes = Buffer::with_room(alloc, 1_048_576).expect(rt, "memory");
    assert!(rt; message.size() <= 1_048_576);
    message.encode(&mut bytes);
    bytes
}

fn decoded(rt: &impl Abort, alloc: Global, bytes: &[u8]) -> Message {
    Message::decode(alloc, bytes).ok().expect(rt, "a message")
}

/// The place of the first fault.
fn fault(rt: &impl Abort, alloc: Global, bytes: &[u8]) -> u64 {
    match Message::decode(alloc, bytes) {
        Err(DecodeFault::NotMessage { at }) => at,
        Err(DecodeFault::NoMemory) => panic!(rt; "memory"),
        Ok(_) => panic!(rt; "a message"),
    }
}

/// The place of the first fault where one byte is another.
fn fault_with(rt: &impl Abort, alloc: Global, bytes: &[u8], at: usize, byte: u8) -> u64
    requires { at < length bytes.now }
{
    let mut changed = Vec::from_slice(alloc, bytes).expect(rt, "memory");
    changed[at] = byte;
    fault(rt, alloc, &changed)
}

#[test]
fn first_vector(rt: HostRuntime) {
    let alloc = rt.alloc();
    let made = Message::make(alloc, 7, false, 4, Vec::new(alloc), body(&rt, alloc, b"hi"));
    let message = made.ok().expect(&rt, "a message");
    assert_eq!(rt; message.size(), 18);
    assert_eq!(rt; encoded(&rt, alloc, &message).as_slice(), HI);
    let mut read = decoded(&rt, alloc, HI);
    assert_eq!(rt; read.id(), 7);
    assert_eq!(rt; read.persistent(), false);
    assert_eq!(rt; read.priority(), 4);
    assert_eq!(rt; read.body(), b"hi".as_slice());
    assert!(rt; read.header(b"price").is_none());
    read.clear_body();
    assert_eq!(rt; read.size(), 16);
}

#[test]
fn second_vector(rt: HostRuntime) {
    let alloc = rt.alloc();
    let mut headers = Vec::new(alloc);
    add(
        &rt,
        &mut headers,
        header(&rt, alloc, b"price", HeaderValue::Int(11)),
    );
    let made = Message::make(alloc, 2, true, 9, headers, body(&rt, alloc, b""));
    let message = made.ok().expect(&rt, "a message");
    assert_eq!(rt; message.size(), 31);
    assert_eq!(rt; encoded(&rt, alloc, &message).as_slice(), PRICE);
    let read = decoded(&rt, alloc, PRICE);
    assert_eq!(rt; read.id(), 2);
    assert_eq!(rt; read.persistent(), true);
    assert_eq!(rt; read.priority(), 9);
    assert!(rt; matches!(read.header(b"price"), Some(HeaderValue::Int(11))));
    assert!(rt; read.header(b"pric").is_none());
    assert!(rt; read.body().is_empty());
}

#[test]
fn ample(rt: HostRuntime) {
    let alloc = rt.alloc();
    let mut headers = Vec::new(alloc);
    add(
        &rt,
        &mut headers,
        header(&rt, alloc, b"a", HeaderValue::Int(-2)),
    );
    let value = HeaderValue::Text(text(&rt, alloc, &[0x68, 0xc3, 0xa9]));
    add(&rt, &mut headers, header(&rt, alloc, b"b", value));
    let made = Message::make(alloc, 1, false, 0, headers, body(&rt, alloc, b"x"));
    let message = made.ok().expect(&rt, "a message");
    assert_eq!(rt; encoded(&rt, alloc, &message).as_slice(), TWO);
    let read = decoded(&rt, alloc, TWO);
    assert_eq!(rt; encoded(&rt, alloc, &read).as_slice(), TWO);
    match read.header(b"b") {
        Some(HeaderValue::Text(bytes)) => assert_eq!(rt; bytes.as_slice(), &TWO[30..33]),
        _ => panic!(rt; "no text"),
    }
}

#[test]
fn faults_of_fields(rt: HostRuntime) {
    let alloc = rt.alloc();
    assert_eq!(rt; fault(&rt, alloc, &HI[..7]), 0, "the id is cut");
    assert_eq!(rt; fault_with(&rt, alloc, HI, 8, 2), 8, "flag 2");
    assert_eq!(rt; fault_with(&rt, alloc, HI, 9, 10), 9, "priority 10");
    assert_eq!(rt;
        fault(&rt, alloc, &HI[..11]),
        10,
        "the number of headers is cut"
    );
    assert_eq!(rt;
        fault(&rt, alloc, &HI[..15]),
        12,
        "the length of the body is cut"
    );
    assert_eq!(rt; fault(&rt, alloc, &HI[..17]), 16, "the body is cut");
    assert_eq!(rt;
        fault_with(&rt, alloc, HI, 15, 1),
        17,
        "a byte after the body"
    );
}

#[test]
fn faults_of_headers(rt: HostRuntime) {
    let alloc = rt.alloc();
    assert_eq!(rt;
        fault(&rt, alloc, &PRICE[..12]),
        12,
        "no length of the name"
    );
    assert_eq!(rt; fault(&rt, alloc, &PRICE[..15]), 13, "the name is cut");
    assert_eq!(rt;
        fault_with(&rt, alloc, PRICE, 13, 255),
        13,
        "the name is not UTF-8"
    );
    assert_eq!(rt;
        fault_with(&rt, alloc, TWO, 24, 0x61),
        24,
        "a second equal name"
    );
    assert_eq!(rt; fault_with(&rt, alloc, TWO, 14, 4), 14, "tag 4");
    assert_eq!(rt;
        fault(&rt, alloc, &TWO[..20]),
        15,
        "the whole number is cut"
    );
    assert_eq!(rt;
        fault(&rt, alloc, &TWO[..28]),
        26,
        "the length of the text is cut"
    );
    assert_eq!(rt; fault(&rt, alloc, &TWO[..32]), 26, "the text is cut");
    assert_eq!(rt;
        fault_with(&rt, alloc, TWO, 32, 0x68),
        26,
        "the text is not UTF-8"
    );
}

#[test]
fn limits(rt: HostRuntime) {
    let alloc = rt.alloc();
    let mut many = repeated(&rt, alloc, 0, 1_048_577);
    assert_eq!(rt; fault(&rt, alloc, &many), 16, "bytes after an empty body");
    assert_eq!(rt; many.len(), 1_048_577);
    many[13] = 0x0f;
    many[14] = 0xff;
    many[15] = 0xf1;
    assert_eq!(rt; fault(&rt, alloc, &many), 1_048_576, "too many bytes");
    assert_eq!(rt; fault_with(&rt, alloc, &many, 8, 2), 8, "an earlier fault");
    let most = body(&rt, alloc, &repeated(&rt, alloc, 0, 1_048_560));
    let made = Message::make(alloc, 1, false, 9, Vec::new(alloc), most);
    assert_eq!(rt; made.ok().expect(&rt, "a message").size(), 1_048_576);
    let past = body(&rt, alloc, &repeated(&rt, alloc, 0, 1_048_561));
    let made = Message::make(alloc, 1, false, 9, Vec::new(alloc), past);
    assert!(rt; matches!(made, Err(MessageFault::TooLong)));
    let made = Message::make(alloc, 1, false, 10, Vec::new(alloc), body(&rt, alloc, b""));
    assert!(rt; matches!(made, Err(MessageFault::BadPriority)));
}

#[test]
fn limits_of_names(rt: HostRuntime) {
    let alloc = rt.alloc();
    let name = repeated(&rt, alloc, b'a', 255);
    let mut headers = Vec::new(alloc);
    add(
        &rt,
        &mut headers,
        header(&rt, alloc, &name, HeaderValue::Bool(true)),
    );
    let made = Message::make(alloc, 1, false, 0, headers, body(&rt, alloc, b""));
    assert_eq!(rt; made.ok().expect(&rt, "a message").size(), 273);
    let name = repeated(&rt, alloc, b'a', 256);
    let mut headers = Vec::new(alloc);
    add(
        &rt,
        &mut headers,
        header(&rt, alloc, &name, HeaderValue::Bool(true)),
    );
    let made = Message::make(alloc, 1, false, 0, headers, body(&rt, alloc, b""));
    assert!(rt; matches!(made, Err(MessageFault::TooLong)));
}

#[test]
fn equal_names(rt: HostRuntime) {
    let alloc = rt.alloc();
    let mut headers = Vec::new(alloc);
    add(
        &rt,
        &mut headers,
        header(&rt, alloc, b"a", HeaderValue::Bool(true)),
    );
    add(
        &rt,
        &mut headers,
        header(&rt, alloc, b"a", HeaderValue::Bool(false)),
    );
    let made = Message::make(alloc, 1, false, 0, headers, body(&rt, alloc, b""));
    assert!(rt; matches!(made, Err(MessageFault::DoubleHeader)));
}

// So many headers, each with a name of its own.
fn many(rt: &impl Abort, alloc: Global, count: u32) -> Vec<Header>
    ensures { All IsReadable result.items }
{
    let mut headers = Vec::new(alloc);
    'adding: for number in 0..count {
        let name = format!(in alloc; "{number}").ok().expect(rt, "memory");
        let added = header(rt, alloc, name.as_bytes(), HeaderValue::Bool(true));
        add(rt, &mut headers, added);
    }
    headers
}

#[test]
fn limits_of_headers(rt: HostRuntime) {
    let alloc = rt.alloc();
    let most = many(&rt, alloc, 65_535);
    let made = Message::make(alloc, 1, false, 0, most, body(&rt, alloc, b""));
    assert_eq!(rt; made.ok().expect(&rt, "a message").size(), 447_651);
    let past = many(&rt, alloc, 65_536);
    let made = Message::make(alloc, 1, false, 0, past, body(&rt, alloc, b""));
    assert!(rt; matches!(made, Err(MessageFault::TooLong)));
}
