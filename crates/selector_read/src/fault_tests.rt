//! Texts that are no selector, each with its first fault and its place, by hand from the grammar.
use crate::read;
use selector_tokens::Kind::{
    BadChar, FloatLiteral, IntRange, OpenString, TooDeep, TooLong, Unexpected,
};
use selector_tokens::{Kind, SelectorFault};
use std::alloc::{AllocError, Global};
use std::test::Fail;

const FAULTS: &[(&str, u64, Kind)] = &[
    // An operand must come.
    ("", 0, Unexpected),
    ("   ", 3, Unexpected),
    (")", 0, Unexpected),
    ("NOT", 3, Unexpected),
    ("a =", 3, Unexpected),
    ("a = =", 4, Unexpected),
    ("AND", 0, Unexpected),
    ("a AND", 5, Unexpected),
    ("a OR OR b", 5, Unexpected),
    ("* 2", 0, Unexpected),
    ("()", 1, Unexpected),
    ("NULL", 0, Unexpected),
    ("IN ('a')", 0, Unexpected),
    // NOT begins no part of a comparison.
    ("a + NOT b", 4, Unexpected),
    ("a = NOT b", 4, Unexpected),
    ("- NOT a", 2, Unexpected),
    ("a BETWEEN NOT b AND c", 10, Unexpected),
    // Behind an operand.
    ("(a", 2, Unexpected),
    ("a)", 1, Unexpected),
    ("(a))", 3, Unexpected),
    ("a b", 2, Unexpected),
    ("1 2", 2, Unexpected),
    ("a 'b'", 2, Unexpected),
    ("a (b)", 2, Unexpected),
    ("a , b", 2, Unexpected),
    ("a NULL", 2, Unexpected),
    ("a ESCAPE '!'", 2, Unexpected),
    // A comparison has no comparison in it.
    ("a = b = c", 6, Unexpected),
    ("a < b > c", 6, Unexpected),
    ("a == b", 3, Unexpected),
    ("a = b + 1 <> c", 10, Unexpected),
    ("a = 1 BETWEEN 0 AND 2", 6, Unexpected),
    ("a = b NOT BETWEEN 1 AND 2", 6, Unexpected),
    ("a BETWEEN 1 AND 2 = 3", 18, Unexpected),
    ("a BETWEEN b = c AND d", 12, Unexpected),
    ("x IS NULL = 1", 10, Unexpected),
    ("a IN ('b') + 1", 11, Unexpected),
    // Only a name alone stands before IN, LIKE and IS.
    ("1 IN ('a')", 2, Unexpected),
    ("(x) IN ('a')", 4, Unexpected),
    ("+ x IN ('a')", 4, Unexpected),
    ("1 NOT IN ('a')", 6, Unexpected),
    ("'x' LIKE 'y'", 4, Unexpected),
    ("x + y LIKE 'a'", 6, Unexpected),
    ("a + 1 NOT LIKE 'b'", 10, Unexpected),
    ("(x) IS NULL", 4, Unexpected),
    ("a = b IS NULL", 6, Unexpected),
    // Behind NOT.
    ("a NOT", 5, Unexpected),
    ("a NOT NULL", 6, Unexpected),
    ("a NOT = 1", 6, Unexpected),
    ("1 NOT NOT BETWEEN 1 AND 2", 6, Unexpected),
    // BETWEEN.
    ("a BETWEEN 1", 11, Unexpected),
    ("a BETWEEN 1 AND", 15, Unexpected),
    ("a BETWEEN 1 OR 2", 12, Unexpected),
    ("a BETWEEN 1, 2", 11, Unexpected),
    ("(a BETWEEN 1) AND 2", 12, Unexpected),
    // IS.
    ("x IS", 4, Unexpected),
    ("x IS 1", 5, Unexpected),
    ("x IS NOT 1", 9, Unexpected),
    ("x IS NOT NOT NULL", 9, Unexpected),
    ("x IS NULL NULL", 10, Unexpected),
    // IN.
    ("a IN 'b'", 5, Unexpected),
    ("a IN ()", 6, Unexpected),
    ("a IN (b)", 6, Unexpected),
    ("a IN (1)", 6, Unexpected),
    ("a IN ('b'", 9, Unexpected),
    ("a IN ('b',)", 10, Unexpected),
    ("a IN ('b' 'c')", 10, Unexpected),
    // LIKE. A pattern is at fault once its escape string was read.
    ("a LIKE b", 7, Unexpected),
    ("a NOT LIKE", 10, Unexpected),
    ("a LIKE 'b' ESCAPE", 17, Unexpected),
    ("a LIKE 'b' ESCAPE c", 18, Unexpected),
    ("a LIKE 'b' ESCAPE ''", 18, Unexpected),
    ("a LIKE 'b' ESCAPE '!!'", 18, Unexpected),
    ("a LIKE 'b!' ESCAPE '!!'", 19, Unexpected),
    ("a LIKE 'b' ESCAPE '!' ESCAPE '!'", 22, Unexpected),
    ("x LIKE 'a!' ESCAPE '!'", 7, Unexpected),
    ("x LIKE 'a!!!' ESCAPE '!'", 7, Unexpected),
    ("x NOT LIKE '!' ESCAPE '!'", 11, Unexpected),
    ("x LIKE 'aé' ESCAPE 'é'", 7, Unexpected),
    // No token can be read.
    ("a = 1.5", 4, FloatLiteral),
    ("a = .5", 4, FloatLiteral),
    ("a = 1e3", 4, FloatLiteral),
    ("1.", 0, FloatLiteral),
    ("a > -9223372036854775808", 5, IntRange),
    ("9223372036854775808", 0, IntRange),
    ("a # b", 2, BadChar),
    ("1abc", 1, BadChar),
    ("a . b", 2, BadChar),
    ("é = 1", 0, BadChar),
    ("a != b", 2, BadChar),
    ("a = 'b", 4, OpenString),
    ("a = 'b''", 4, OpenString),
    // The first fault from the left.
    ("a b 1.5", 2, Unexpected),
    (") #", 0, Unexpected),
    ("1.5 b", 0, FloatLiteral),
];

/// A front, a number of the same pieces and a back: the place of the fault, if there is one.
struct Repeated {
    front: &'static str,
    piece: &'static str,
    times: usize,
    back: &'static str,
    fault: Option<(u64, Kind)>,
}

const REPEATED: &[Repeated] = &[
    Repeated {
        front: "",
        piece: "(",
        times: 64,
        back: "",
        fault: Some((64, Unexpected)),
    },
    Repeated {
        front: "",
        piece: "(",
        times: 65,
        back: "",
        fault: Some((64, TooDeep)),
    },
    Repeated {
        front: "",
        piece: "NOT ",
        times: 64,
        back: "a",
        fault: None,
    },
    Repeated {
        front: "",
        piece: "NOT ",
        times: 65,
        back: "a",
        fault: Some((256, TooDeep)),
    },
    Repeated {
        front: "",
        piece: "-",
        times: 64,
        back: "1",
        fault: None,
    },
    Repeated {
        front: "",
        piece: "-",
        times: 65,
        back: "1",
        fault: Some((64, TooDeep)),
    },
    Repeated {
        front: "",
        piece: "+",
        times: 64,
        back: "a",
        fault: None,
    },
    Repeated {
        front: "",
        piece: "+",
        times: 65,
        back: "a",
        fault: Some((64, TooDeep)),
    },
    // IN's parenthesis would be the 64th, and the 65th.
    Repeated {
        front: "",
        piece: "NOT ",
        times: 63,
        back: "a IN ('b')",
        fault: None,
    },
    Repeated {
        front: "",
        piece: "NOT ",
        times: 64,
        back: "a IN ('b')",
        fault: Some((261, TooDeep)),
    },
    // No NOT may stand there, however nested.
    Repeated {
        front: "",
        piece: "(",
        times: 64,
        back: "a = NOT b",
        fault: Some((68, Unexpected)),
    },
    // What is whole counts no more.
    Repeated {
        front: "a",
        piece: " OR (NOT -a > +1)",
        times: 100,
        back: "",
        fault: None,
    },
    Repeated {
        front: "a = ",
        piece: "- (1) + ",
        times: 64,
        back: "1",
        fault: None,
    },
    // The greatest number of bytes.
    Repeated {
        front: "",
        piece: "a",
        times: 4096,
        back: "",
        fault: None,
    },
    Repeated {
        front: "",
        piece: "a",
        times: 4097,
        back: "",
        fault: Some((4096, TooLong)),
    },
    Repeated {
        front: "#",
        piece: " ",
        times: 4096,
        back: "",
        fault: Some((4096, TooLong)),
    },
    Repeated {
        front: "#",
        piece: " ",
        times: 4095,
        back: "",
        fault: Some((0, BadChar)),
    },
];

/// The text with so many pieces.
fn text_of(alloc: Global, repeated: &Repeated) -> Result<String, AllocError> {
    let mut text = String::from_str(alloc, repeated.front)?;
    for _ in 0..repeated.times {
        text.push_str(repeated.piece)?;
    }
    text.push_str(repeated.back)?;
    Ok(text)
}

#[test]
fn finds_the_first_fault(rt: HostRuntime) {
    for &(text, at, kind) in FAULTS {
        let fault = read(rt.alloc(), text).err();
        assert_eq!(rt; fault, Some(SelectorFault::Bad { at, kind }), "in {text}");
    }
}

#[test]
fn keeps_the_limits(rt: HostRuntime) -> Result<(), Fail> {
    for repeated in REPEATED {
        let text = text_of(rt.alloc(), repeated)?;
        let fault = read(rt.alloc(), text.as_str()).err();
        let wanted = repeated
            .fault
            .map(|(at, kind)| SelectorFault::Bad { at, kind });
        assert_eq!(rt; fault, wanted, "in {text}");
    }
    Ok(())
}
