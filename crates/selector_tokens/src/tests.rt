use super::*;
use byte_lists::Bytes;
use std::alloc::Global;
use std::process::Abort;
use std::str::from_utf8;

/// Texts, and their tokens with their places, up to the end or to the first fault.
const TEXTS: &[(&str, &str)] = &[
    (
        "price >= 10 AND name LIKE 'a%' ESCAPE '\\'",
        "0 price, 6 >=, 9 10, 12 And, 16 name, 21 Like, 26 'a%', 31 Escape, 38 '\\', end",
    ),
    (
        "=<><<=>>=+-*/(),",
        "0 =, 1 <>, 3 <, 4 <=, 6 >, 7 >=, 9 Plus, 10 Minus, 11 Times, 12 Divide, 13 Open, 14 Close, 15 Comma, end",
    ),
    (
        "And oR NOT between In liKe escape is null TRUE false",
        "0 And, 4 Or, 7 Not, 11 Between, 19 In, 22 Like, 27 Escape, 34 Is, 37 Null, 42 True, 47 False, end",
    ),
    ("_a $1 Orx aND1", "0 _a, 3 $1, 6 Orx, 10 aND1, end"),
    // White space is space, tab, line feed, carriage return and form feed.
    ("\t\u{c}a\r\n b", "2 a, 6 b, end"),
    ("  ", "end"),
    ("", "end"),
    ("\u{b}a", "selector at 0: BadChar"),
    // Whole numbers.
    ("9223372036854775807", "0 9223372036854775807, end"),
    (" 9223372036854775808", "selector at 1: IntRange"),
    ("99999999999999999999", "selector at 0: IntRange"),
    ("0000000000000000000000012", "0 12, end"),
    ("a = 1.5", "0 a, 2 =, selector at 4: FloatLiteral"),
    ("1e2", "selector at 0: FloatLiteral"),
    ("99999999999999999999E", "selector at 0: FloatLiteral"),
    ("x .5", "0 x, selector at 2: FloatLiteral"),
    ("5x", "0 5, selector at 1: BadChar"),
    ("5 e", "0 5, 2 e, end"),
    ("5'a'(", "0 5, 1 'a', 4 Open, end"),
    ("x.y", "0 x, selector at 1: BadChar"),
    ("x.5", "0 x, selector at 1: FloatLiteral"),
    // Strings.
    ("'it''s'", "0 'it's', end"),
    ("''''", "0 ''', end"),
    ("''x'é'", "0 '', 2 x, 3 'é', end"),
    ("a 'b''", "0 a, selector at 2: OpenString"),
    ("'", "selector at 0: OpenString"),
    ("a # b", "0 a, selector at 2: BadChar"),
    ("é", "selector at 0: BadChar"),
];

fn text_of(rt: &impl Abort, alloc: Global, bytes: &Bytes) -> String {
    let text = from_utf8(bytes.as_slice()).ok().expect(rt, "a text");
    String::from_str(alloc, text).expect(rt, "memory")
}

fn sign_of(op: CompareOp) -> &'static str {
    match op {
        CompareOp::Equal => "=",
        CompareOp::Unequal => "<>",
        CompareOp::Less => "<",
        CompareOp::LessEqual => "<=",
        CompareOp::Greater => ">",
        CompareOp::GreaterEqual => ">=",
    }
}

fn said(rt: &impl Abort, alloc: Global, at: u64, token: &Token) -> String {
    let said = match token {
        Token::Name(name) => format!(in alloc; "{at} {}, ", text_of(rt, alloc, name)),
        Token::Word(word) => format!(in alloc; "{at} {word:?}, "),
        Token::Number(number) => format!(in alloc; "{at} {number}, "),
        Token::Text(text) => format!(in alloc; "{at} '{}', ", text_of(rt, alloc, text)),
        Token::Compare(op) => format!(in alloc; "{at} {}, ", sign_of(*op)),
        sign => format!(in alloc; "{at} {sign:?}, "),
    };
    said.expect(rt, "memory")
}

fn tokens_of(rt: &impl Abort, alloc: Global, text: &str) -> String {
    let mut lexer = Lexer::of(text);
    let mut line = String::new(alloc);
    for _ in 0..100 {
        let next = match lexer.next(alloc) {
            Ok(Some(placed)) => said(rt, alloc, placed.at, &placed.token),
            Ok(None) => {
                line.push_str("end").expect(rt, "memory");
                return line;
            }
            Err(fault) => {
                let fault = format!(in alloc; "{fault}").expect(rt, "memory");
                line.push_str(fault.as_str()).expect(rt, "memory");
                return line;
            }
        };
        line.push_str(next.as_str()).expect(rt, "memory");
    }
    line
}

#[test]
fn texts(rt: HostRuntime) {
    let alloc = rt.alloc();
    for (text, tokens) in TEXTS {
        assert_eq!(rt; tokens_of(&rt, alloc, text).as_str(), *tokens, "at {text}");
    }
}

/// The end and a fault come again at the next call.
#[test]
fn stops(rt: HostRuntime) {
    let alloc = rt.alloc();
    let mut whole = Lexer::of(" ");
    assert!(rt; whole.next(alloc).ok().expect(&rt, "the end").is_none());
    assert!(rt; whole.next(alloc).ok().expect(&rt, "the end").is_none());
    let mut cut = Lexer::of(" #");
    let bad = SelectorFault::Bad {
        at: 1,
        kind: Kind::BadChar,
    };
    assert_eq!(rt; cut.next(alloc).err().expect(&rt, "a fault"), bad);
    assert_eq!(rt; cut.next(alloc).err().expect(&rt, "a fault"), bad);
}

/// With ample memory a name and a string come, which are what takes memory.
#[test]
fn ample(rt: HostRuntime) {
    let mut lexer = Lexer::of("a 'b'");
    for _ in 0..2 {
        assert!(rt; lexer.next(rt.alloc()).ok().expect(&rt, "memory").is_some());
    }
}
