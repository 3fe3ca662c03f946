//! Each kind of line once, each cause once, and which of two causes is given.
ghost use Rattle.std.specs.Prelude.{◌≤◌, length};
ghost use Rattle.defs_read.specs.Allowed.{most_queues};
ghost use Rattle.defs_read.specs.Defined.{queues_in};

use super::*;
use byte_lists::Bytes;
use defs_read::{ConsumerDef, Defs, QueueDef, QueueKind};
use message_core::{HeaderValue, Message};
use std::alloc::{AllocError, Global};
use std::process::Abort;
use std::test::*;

/// The line, its actor, and what it does there. Queue `p` is number 0 and `q` number 1; consumer `c` of the actor `a`
/// is number 0, `d` of `b` number 1, and `e` of `a` number 2.
const DEEDS: &[(&str, &str, &str)] = &[
    (
        r#"{"do":"take","actor":"a","consumer":"c"}"#,
        "a",
        "Take { consumer: 0 }",
    ),
    (
        r#"{"do":"take","actor":"b","consumer":"d"}"#,
        "b",
        "Take { consumer: 1 }",
    ),
    (
        r#"{"consumer":"e","actor":"a","do":"close"}"#,
        "a",
        "Close { consumer: 2 }",
    ),
    (
        r#"{"do":"ack","actor":"a","queue":"q","id":7}"#,
        "a",
        "Ack { queue: 1, id: Some(7) }",
    ),
    (
        r#"{"do":"ack","actor":"a","queue":"p"}"#,
        "a",
        "Ack { queue: 0, id: None }",
    ),
    (
        r#"{"do":"release","actor":"x","queue":"p","id":0}"#,
        "x",
        "Release { queue: 0, id: Some(0) }",
    ),
    (
        r#"{"do":"release","actor":"x","queue":"q"}"#,
        "x",
        "Release { queue: 1, id: None }",
    ),
    (
        r#"{"do":"lock","actor":"a","queue":"q","id":18446744073709551615}"#,
        "a",
        "Lock { queue: 1, id: Some(18446744073709551615) }",
    ),
    (
        r#"{"do":"lock","actor":"a","queue":"q"}"#,
        "a",
        "Lock { queue: 1, id: None }",
    ),
    (
        r#"{"do":"unlock","actor":"a","queue":"q","id":8}"#,
        "a",
        "Unlock { queue: 1, id: Some(8) }",
    ),
    (
        r#"{"do":"unlock","actor":"a","queue":"p"}"#,
        "a",
        "Unlock { queue: 0, id: None }",
    ),
    (
        r#"{"do":"steal","actor":"a","queue":"q","id":9}"#,
        "a",
        "Steal { queue: 1, id: 9 }",
    ),
    (r#"{"do":"begin","actor":"a"}"#, "a", "Begin"),
    (r#"{"do":"commit","actor":"a"}"#, "a", "Commit"),
    (r#"{"do":"rollback","actor":"a"}"#, "a", "Rollback"),
    (
        r#" { "do" : "begin" , "actor" : "a", "actor" : "b" } "#,
        "b",
        "Begin",
    ),
];

/// A put with every field; the members' order is of no matter.
const FULL: &str =
    r#"{"body":"h\u00e9\n\ud83d\ude00","headers":{"z":"t","n":-2,"f":true},"priority":9,"persistent":true,"id":2,"queue":"p","actor":"a","do":"put"}"#;

/// Lines with one cause each, but for LineTooLong and TooLong.
const REFUSED: &[(&str, LineFault)] = &[
    ("", LineFault::NotJson),
    (r#"{"do":"rest""#, LineFault::NotJson),
    (r#"{"do":"rest"} {}"#, LineFault::NotJson),
    ("[]", LineFault::BadValue),
    (r#""rest""#, LineFault::BadValue),
    ("7", LineFault::BadValue),
    ("{}", LineFault::MissingField),
    (r#"{"do":"fly"}"#, LineFault::BadValue),
    (r#"{"do":"Rest"}"#, LineFault::BadValue),
    (r#"{"do":7}"#, LineFault::BadValue),
    (r#"{"do":1.5}"#, LineFault::BadValue),
    (r#"{"do":"rest","actor":"a"}"#, LineFault::UnknownField),
    (
        r#"{"do":"take","actor":"a","consumer":"c","queue":"q"}"#,
        LineFault::UnknownField,
    ),
    (
        r#"{"do":"put","queue":"q","id":1}"#,
        LineFault::MissingField,
    ),
    (
        r#"{"do":"put","actor":"a","id":1}"#,
        LineFault::MissingField,
    ),
    (
        r#"{"do":"put","actor":"a","queue":"q"}"#,
        LineFault::MissingField,
    ),
    (
        r#"{"do":"steal","actor":"a","queue":"q"}"#,
        LineFault::MissingField,
    ),
    (r#"{"do":"take","actor":"a"}"#, LineFault::MissingField),
    (
        r#"{"do":"put","actor":"a","queue":"q","id":1.0}"#,
        LineFault::FloatNumber,
    ),
    (
        r#"{"do":"put","actor":"a","queue":"q","id":-0}"#,
        LineFault::FloatNumber,
    ),
    (
        r#"{"do":"put","actor":"a","queue":"q","id":18446744073709551616}"#,
        LineFault::FloatNumber,
    ),
    (
        r#"{"do":"put","actor":"a","queue":"q","id":1,"headers":{"n":1e2}}"#,
        LineFault::FloatNumber,
    ),
    (
        r#"{"do":"put","actor":"a","queue":"q","id":-1}"#,
        LineFault::BadValue,
    ),
    (
        r#"{"do":"put","actor":"a","queue":"q","id":1,"persistent":1}"#,
        LineFault::BadValue,
    ),
    (
        r#"{"do":"put","actor":"a","queue":"q","id":1,"priority":10}"#,
        LineFault::BadValue,
    ),
    (
        r#"{"do":"put","actor":"a","queue":"q","id":1,"headers":{"n":null}}"#,
        LineFault::BadValue,
    ),
    (
        r#"{"do":"put","actor":"a","queue":"q","id":1,"headers":{"n":9223372036854775808}}"#,
        LineFault::BadValue,
    ),
    (
        r#"{"do":"put","actor":"a","queue":"q","id":1,"body":null}"#,
        LineFault::BadValue,
    ),
    (r#"{"do":"begin","actor":"a#b"}"#, LineFault::BadValue),
    (
        r#"{"do":"ack","actor":"a","queue":"x"}"#,
        LineFault::UnknownQueue,
    ),
    (
        r#"{"do":"take","actor":"a","consumer":"x"}"#,
        LineFault::UnknownConsumer,
    ),
    (
        r#"{"do":"take","actor":"b","consumer":"c"}"#,
        LineFault::UnknownConsumer,
    ),
];

/// Lines with two causes, and the one that is given.
const TWO_CAUSES: &[(&str, LineFault)] = &[
    // A line that doesn't end is no JSON, whatever it begins with.
    (r#"{"do":"put","extra":1"#, LineFault::NotJson),
    // `do` is missing, beside each later cause.
    (r#"{"extra":1}"#, LineFault::MissingField),
    (r#"{"id":1.5}"#, LineFault::MissingField),
    (r#"{"id":-1}"#, LineFault::MissingField),
    (r#"{"queue":"x"}"#, LineFault::MissingField),
    (r#"{"consumer":"x"}"#, LineFault::MissingField),
    // `do` says nothing, beside each later cause.
    (r#"{"do":"fly","extra":1}"#, LineFault::BadValue),
    (r#"{"do":"fly","id":1.5}"#, LineFault::BadValue),
    (r#"{"do":1.5,"queue":"x"}"#, LineFault::BadValue),
    // A field that is not known, beside each later cause.
    (r#"{"do":"put","extra":1}"#, LineFault::UnknownField),
    (
        r#"{"do":"begin","actor":1.5,"extra":1}"#,
        LineFault::UnknownField,
    ),
    (
        r#"{"do":"begin","actor":"","extra":1}"#,
        LineFault::UnknownField,
    ),
    (
        r#"{"do":"ack","actor":"a","queue":"x","extra":1}"#,
        LineFault::UnknownField,
    ),
    (
        r#"{"do":"take","actor":"a","consumer":"x","extra":1}"#,
        LineFault::UnknownField,
    ),
    // A field that is missing, beside each later cause.
    (
        r#"{"do":"put","actor":"a","id":1.5}"#,
        LineFault::MissingField,
    ),
    (
        r#"{"do":"put","actor":"a","id":-1}"#,
        LineFault::MissingField,
    ),
    (
        r#"{"do":"put","actor":"a","queue":"x"}"#,
        LineFault::MissingField,
    ),
    (r#"{"do":"take","consumer":"x"}"#, LineFault::MissingField),
    // Values, by the order of the fields; of one field FloatNumber comes first.
    (
        r#"{"do":"put","actor":"a","queue":1,"id":1.5}"#,
        LineFault::BadValue,
    ),
    (
        r#"{"do":"put","id":1.5,"actor":"","queue":"q"}"#,
        LineFault::BadValue,
    ),
    (
        r#"{"do":"put","actor":"a","queue":"q","priority":10,"id":1.5}"#,
        LineFault::FloatNumber,
    ),
    (
        r#"{"do":"put","actor":"a","queue":"q","id":1,"priority":10,"body":1.5}"#,
        LineFault::BadValue,
    ),
    (
        r#"{"do":"put","actor":"a","queue":"q","id":1,"headers":{"a":null,"b":1.5}}"#,
        LineFault::FloatNumber,
    ),
    (
        r#"{"do":"put","actor":"a","queue":"q","id":1,"headers":{"a":1.5},"body":1}"#,
        LineFault::FloatNumber,
    ),
    // Values, beside a name that is not defined.
    (
        r#"{"do":"put","actor":"a","queue":"x","id":1.5}"#,
        LineFault::FloatNumber,
    ),
    (
        r#"{"do":"put","actor":"a","queue":"x","id":1,"priority":10}"#,
        LineFault::BadValue,
    ),
    (
        r#"{"do":"ack","actor":"","queue":"x"}"#,
        LineFault::BadValue,
    ),
    (
        r#"{"do":"take","actor":1.5,"consumer":"x"}"#,
        LineFault::FloatNumber,
    ),
    (
        r#"{"do":"take","actor":"","consumer":"c"}"#,
        LineFault::BadValue,
    ),
    (
        r#"{"do":"take","actor":"a","consumer":""}"#,
        LineFault::BadValue,
    ),
    // Equal members: the last stays, and the fault of an earlier one is none.
    (
        r#"{"do":"put","actor":"a","queue":"q","id":1,"id":1.5}"#,
        LineFault::FloatNumber,
    ),
    (
        r#"{"do":"put","actor":"a","queue":"q","id":1.5,"id":-1}"#,
        LineFault::BadValue,
    ),
];

/// The beginning of a put with a header whose name is too long and what is behind the name, and the cause that is
/// given.
const BESIDE_TOO_LONG: &[(&str, &str, LineFault)] = &[
    (
        r#"{"do":"put","actor":"a","queue":"q","id":1,"headers":{""#,
        r#"":true}}"#,
        LineFault::TooLong,
    ),
    (
        r#"{"do":"put","actor":"a","queue":"q","id":1,"headers":{""#,
        r#"":true},"extra":1}"#,
        LineFault::UnknownField,
    ),
    (
        r#"{"do":"put","actor":"a","queue":"q","headers":{""#,
        r#"":true}}"#,
        LineFault::MissingField,
    ),
    (
        r#"{"do":"put","actor":"a","queue":"q","id":1,"headers":{""#,
        r#"":1.5}}"#,
        LineFault::FloatNumber,
    ),
    (
        r#"{"do":"put","actor":"a","queue":"q","id":1,"headers":{""#,
        r#"":true},"body":1}"#,
        LineFault::BadValue,
    ),
    (
        r#"{"do":"put","actor":"a","queue":"x","id":1,"headers":{""#,
        r#"":true}}"#,
        LineFault::UnknownQueue,
    ),
    (
        r#"{"do":"fly","actor":"a","queue":"q","id":1,"headers":{""#,
        r#"":true}}"#,
        LineFault::BadValue,
    ),
];

/// Lines of a message by itself that are refused.
const NO_MESSAGE: &[(&str, LineFault)] = &[
    (r#"{"id":1"#, LineFault::NotJson),
    ("[1]", LineFault::BadValue),
    (r#"{"do":"put","id":1}"#, LineFault::UnknownField),
    (r#"{"actor":"a"}"#, LineFault::UnknownField),
    ("{}", LineFault::MissingField),
    (r#"{"priority":1.5}"#, LineFault::MissingField),
    (r#"{"priority":10,"id":1.5}"#, LineFault::FloatNumber),
    (r#"{"id":-1,"body":1.5}"#, LineFault::BadValue),
    (r#"{"id":1,"priority":10}"#, LineFault::BadValue),
];

fn bytes(rt: &impl Abort, alloc: Global, text: &str) -> Bytes {
    Bytes::of(alloc, text.as_bytes()).expect(rt, "memory")
}

fn consumer(rt: &impl Abort, alloc: Global, name: &str, actor: &str, number: u32) -> ConsumerDef {
    ConsumerDef {
        name: bytes(rt, alloc, name),
        actor: bytes(rt, alloc, actor),
        number,
        selector: None,
    }
}

/// Queue `p` with the consumer `c` of the actor `a`; queue `q` with `d` of `b` and `e` of `a`.
fn two_queues(rt: &impl Abort, alloc: Global) -> Defs
    ensures { length (queues_in result) ≤ most_queues }
{
    let first = [consumer(rt, alloc, "c", "a", 0)];
    let later = [
        consumer(rt, alloc, "d", "b", 1),
        consumer(rt, alloc, "e", "a", 2),
    ];
    let of_p = Vec::from_array(alloc, first).ok().expect(rt, "memory");
    let of_q = Vec::from_array(alloc, later).ok().expect(rt, "memory");
    let queues = [
        QueueDef::bare(bytes(rt, alloc, "p"), QueueKind::Standard, of_p),
        QueueDef::bare(bytes(rt, alloc, "q"), QueueKind::Standard, of_q),
    ];
    Defs {
        queues: Vec::from_array(alloc, queues).ok().expect(rt, "memory"),
    }
}

/// So many times the byte.
fn filled(alloc: Global, byte: u8, count: usize) -> Result<Vec<u8>, AllocError> {
    vec![in alloc; byte; count]
}

/// The number of the queue and the message of a put.
fn put<'a>(rt: &impl Abort, line: &'a Line) -> (u32, &'a Message) {
    match line {
        Line::Doing(
            Op {
                what: What::Put { queue, message },
                ..
            },
        ) => (*queue, message),
        _ => panic!(rt; "no put"),
    }
}

/// Why the text is no line.
fn fault(rt: &impl Abort, alloc: Global, defs: &Defs, text: &[u8]) -> LineFault
    requires { length (queues_in defs.now) ≤ most_queues }
{
    read_line(alloc, text, 2, defs).err().expect(rt, "a fault")
}

#[test]
fn deeds(rt: HostRuntime) -> Result<(), Fail> {
    let alloc = rt.alloc();
    let defs = two_queues(&rt, alloc);
    for &(text, actor, deed) in DEEDS {
        match read_line(alloc, text.as_bytes(), 67_108_865, &defs)? {
            Line::Doing(op) => {
                assert_eq!(rt; op.line, 67_108_865);
                assert_eq!(rt; op.actor.as_slice(), actor.as_bytes(), "at {text}");
                let shown = format!(in alloc; "{:?}", op.what)?;
                assert_eq!(rt; shown.as_str(), deed, "at {text}");
            }
            Line::Rest => panic!(rt; "a rest at {text}"),
        }
    }
    let rest = read_line(alloc, br#"{"do":"rest"}"#, 3, &defs)?;
    assert!(rt; matches!(rest, Line::Rest));
    Ok(())
}

#[test]
fn puts(rt: HostRuntime) -> Result<(), Fail> {
    let alloc = rt.alloc();
    let defs = two_queues(&rt, alloc);
    let bare = br#"{"do":"put","actor":"a","queue":"q","id":7,"id":1}"#;
    let line = read_line(alloc, bare, 2, &defs)?;
    let (queue, message) = put(&rt, &line);
    assert_eq!(rt; queue, 1);
    assert_eq!(rt; message.id(), 1);
    assert_eq!(rt; message.persistent(), false);
    assert_eq!(rt; message.priority(), 4);
    assert_eq!(rt; message.size(), 16, "no header and no body");

    // Three headers: f of 3 bytes, n of 11 and z of 8. A body of 8 bytes: h, é, a line feed and a smile.
    let line = read_line(alloc, FULL.as_bytes(), 2, &defs)?;
    let (queue, message) = put(&rt, &line);
    assert_eq!(rt; queue, 0);
    assert_eq!(rt; message.id(), 2);
    assert_eq!(rt; message.persistent(), true);
    assert_eq!(rt; message.priority(), 9);
    assert!(rt; matches!(message.header(b"f"), Some(HeaderValue::Bool(true))));
    assert!(rt; matches!(message.header(b"n"), Some(HeaderValue::Int(-2))));
    match message.header(b"z") {
        Some(HeaderValue::Text(text)) => assert_eq!(rt; text.as_slice(), b"t".as_slice()),
        _ => panic!(rt; "no text"),
    }
    assert_eq!(rt; message.body(), b"h\xc3\xa9\n\xf0\x9f\x98\x80".as_slice());
    assert_eq!(rt; message.size(), 46);
    Ok(())
}

#[test]
fn messages(rt: HostRuntime) -> Result<(), Fail> {
    let alloc = rt.alloc();
    let message = read_message(alloc, br#"{"id":18446744073709551615}"#)?;
    assert_eq!(rt; message.id(), 18_446_744_073_709_551_615);
    assert_eq!(rt; message.persistent(), false);
    assert_eq!(rt; message.priority(), 4);
    assert_eq!(rt; message.size(), 16);
    let full = br#"{"id":7,"persistent":true,"priority":0,"headers":{"a":false},"body":"hi"}"#;
    let message = read_message(alloc, full)?;
    assert_eq!(rt; message.id(), 7);
    assert_eq!(rt; message.persistent(), true);
    assert_eq!(rt; message.priority(), 0);
    assert!(rt; matches!(message.header(b"a"), Some(HeaderValue::Bool(false))));
    assert_eq!(rt; message.body(), b"hi".as_slice());
    for &(text, want) in NO_MESSAGE {
        let got = read_message(alloc, text.as_bytes()).err();
        assert_eq!(rt; got, Some(want), "at {text}");
    }
    Ok(())
}

#[test]
fn one_cause(rt: HostRuntime) {
    let alloc = rt.alloc();
    let defs = two_queues(&rt, alloc);
    for &(text, want) in REFUSED {
        assert_eq!(rt;
            fault(&rt, alloc, &defs, text.as_bytes()),
            want,
            "at {text}"
        );
    }
    // Not UTF-8.
    assert_eq!(rt; fault(&rt, alloc, &defs, b"\"\xff\""), LineFault::NotJson);
}

#[test]
fn first_of_two_causes(rt: HostRuntime) {
    let alloc = rt.alloc();
    let defs = two_queues(&rt, alloc);
    for &(text, want) in TWO_CAUSES {
        assert_eq!(rt;
            fault(&rt, alloc, &defs, text.as_bytes()),
            want,
            "at {text}"
        );
    }
}

/// The text with a name of so many bytes in the midst.
fn with_name(alloc: Global, before: &str, size: usize, after: &str) -> Result<Vec<u8>, AllocError> {
    let mut line = Vec::from_slice(alloc, before.as_bytes())?;
    line.extend_from_slice(&filled(alloc, b'n', size)?)?;
    line.extend_from_slice(after.as_bytes())?;
    Ok(line)
}

#[test]
fn causes_beside_too_long(rt: HostRuntime) -> Result<(), Fail> {
    let alloc = rt.alloc();
    let defs = two_queues(&rt, alloc);
    for &(before, after, want) in BESIDE_TOO_LONG {
        let line = with_name(alloc, before, 256, after)?;
        assert_eq!(rt;
            fault(&rt, alloc, &defs, &line),
            want,
            "at {before}..{after}"
        );
    }
    // 255 bytes are right, and a message by itself has the same limit.
    let (before, after, _want) = BESIDE_TOO_LONG[0];
    let line = read_line(alloc, &with_name(alloc, before, 255, after)?, 2, &defs)?;
    assert_eq!(rt; put(&rt, &line).1.size(), 273);
    let line = with_name(alloc, "{\"id\":1,\"headers\":{\"", 256, "\":true}}")?;
    assert_eq!(rt; read_message(alloc, &line).err(), Some(LineFault::TooLong));
    Ok(())
}

/// A put of so many bytes, with a body that fills it; for a shorter one the body is empty.
fn put_of(alloc: Global, size: usize) -> Result<Vec<u8>, AllocError> {
    let before = br#"{"do":"put","actor":"a","queue":"q","id":1,"body":""#;
    let mut line = Vec::from_slice(alloc, before)?;
    let count = size.saturating_sub(before.len() + 2);
    line.extend_from_slice(&filled(alloc, b'x', count)?)?;
    line.extend_from_slice(b"\"}")?;
    Ok(line)
}

#[test]
fn longest_line(rt: HostRuntime) -> Result<(), Fail> {
    let alloc = rt.alloc();
    let defs = two_queues(&rt, alloc);
    let text = put_of(alloc, 1_048_576)?;
    assert_eq!(rt; text.len(), 1_048_576);
    // 51 bytes before the body, and 2 behind it.
    let line = read_line(alloc, &text, 2, &defs)?;
    assert_eq!(rt; put(&rt, &line).1.body().len(), 1_048_523);
    let line = put_of(alloc, 1_048_577)?;
    assert_eq!(rt; fault(&rt, alloc, &defs, &line), LineFault::LineTooLong);
    assert_eq!(rt;
        read_message(alloc, &line).err(),
        Some(LineFault::LineTooLong)
    );
    // A long line that is no JSON.
    let line = filled(alloc, b'x', 1_048_577)?;
    assert_eq!(rt; fault(&rt, alloc, &defs, &line), LineFault::LineTooLong);
    Ok(())
}
