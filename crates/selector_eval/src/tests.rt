//! The truths of tables of selectors, and what their patterns fit.
ghost use Rattle.std.specs.List.{All};
ghost use Rattle.std.specs.Str.{IsUtf8};
ghost use Rattle.message_core.specs.Spelling.{IsReadable, IsText};

use crate::patterns::is_like;
use crate::{Truth, laws, truth};
use byte_lists::Bytes;
use message_core::{Header, HeaderValue, Message};
use selector_read::read;
use std::alloc::Global;
use std::process::Abort;
use std::str::from_utf8;
use std::test::*;

mod tables;

use tables::{CASES, HEADERS, Headers, Held, PATTERNS, WORKED};

fn text(rt: &impl Abort, alloc: Global, bytes: &[u8]) -> Bytes
    ensures { IsUtf8 result }
{
    let text = from_utf8(bytes).ok().expect(rt, "a text");
    Bytes::of(alloc, text.as_bytes()).expect(rt, "memory")
}

fn held(rt: &impl Abort, alloc: Global, held: Held) -> HeaderValue
    ensures { IsText result }
{
    match held {
        Held::Is(truth) => HeaderValue::Bool(truth),
        Held::Number(number) => HeaderValue::Int(number),
        Held::Text(bytes) => HeaderValue::Text(text(rt, alloc, bytes.as_bytes())),
    }
}

fn header(rt: &impl Abort, alloc: Global, name: &str, value: Held) -> Header
    ensures { IsReadable result }
{
    Header {
        name: text(rt, alloc, name.as_bytes()),
        value: held(rt, alloc, value),
    }
}

fn add(rt: &impl Abort, headers: &mut Vec<Header>, header: Header)
    requires old { All IsReadable headers.old.items }
    requires new { IsReadable header }
    ensures { All IsReadable headers.new.items }
{
    headers.push(header).ok().expect(rt, "memory");
}

fn message(
    rt: &impl Abort,
    alloc: Global,
    persistent: bool,
    priority: u8,
    given: Headers,
) -> Message {
    let mut headers = Vec::new(alloc);
    for (name, value) in given {
        add(rt, &mut headers, header(rt, alloc, name, *value));
    }
    let body = Bytes::from_vec(Vec::new(alloc));
    let made = Message::make(alloc, 1, persistent, priority, headers, body);
    made.ok().expect(rt, "a message")
}

fn said(rt: &impl Abort, alloc: Global, selector: &str, message: &Message) -> Truth {
    let selector = read(alloc, selector).ok().expect(rt, "a selector");
    truth(&selector, message)
}

#[test]
fn cases(rt: HostRuntime) {
    let alloc = rt.alloc();
    let message = message(&rt, alloc, true, 4, HEADERS);
    for (selector, expected) in CASES {
        assert_eq!(rt;
            said(&rt, alloc, selector, &message),
            *expected,
            "{selector}"
        );
    }
}

#[test]
fn worked(rt: HostRuntime) {
    let alloc = rt.alloc();
    for (selector, headers, expected) in WORKED {
        let message = message(&rt, alloc, false, 0, headers);
        assert_eq!(rt;
            said(&rt, alloc, selector, &message),
            *expected,
            "{selector}"
        );
    }
}

#[test]
fn patterns(rt: HostRuntime) {
    for (pattern, escape, text, expected) in PATTERNS {
        let fits = is_like(*escape, pattern.as_bytes(), text.as_bytes());
        assert_eq!(rt; fits, *expected, "{text} LIKE {pattern}");
    }
    laws::like();
}

/// The time is that of the product of the lengths at most, however many % there are.
#[test]
fn long_text(rt: HostRuntime) {
    let text = vec![in rt.alloc(); b'a'; 100_000]
        .ok()
        .expect(&rt, "memory");
    assert!(rt; !is_like(None, b"%a%a%a%a%b", &text));
    assert!(rt; is_like(None, b"%a%a%a%a%a", &text));
    assert!(rt; !is_like(None, b"%a%a_a%aaaaaaaaaaaaaaaa%ab%", &text));
}
