use crate::{
    Field, FieldFault, JsonFault, check_presence, check_values, items, number, read_json, text,
    truth,
};
use std::alloc::{AllocError, Global};
use std::test::Fail;

// A value, the field that has it, and the cause that it gives.
const VALUES: &[(&str, Field, Option<FieldFault>)] = &[
    ("[]", Field::Queues, Some(FieldFault::BadValue)),
    ("[0]", Field::Queues, None),
    ("[0,0,0,0,0,0,0,0,0,0,0,0,0,0,0,0]", Field::Queues, None),
    (
        "[0,0,0,0,0,0,0,0,0,0,0,0,0,0,0,0,0]",
        Field::Queues,
        Some(FieldFault::BadValue),
    ),
    (r#"{"0":0}"#, Field::Queues, Some(FieldFault::BadValue)),
    ("1.5", Field::Queues, Some(FieldFault::FloatNumber)),
    (r#""""#, Field::Name, Some(FieldFault::BadValue)),
    (r#""!""#, Field::Name, None),
    (r#""~""#, Field::Name, None),
    (r#""a#b""#, Field::Name, Some(FieldFault::BadValue)),
    (r#""a b""#, Field::Name, Some(FieldFault::BadValue)),
    (r#""a\u007f""#, Field::Name, Some(FieldFault::BadValue)),
    (r#""é""#, Field::Name, Some(FieldFault::BadValue)),
    ("null", Field::Name, Some(FieldFault::BadValue)),
    ("7", Field::Name, Some(FieldFault::BadValue)),
    ("1.5", Field::Name, Some(FieldFault::FloatNumber)),
    (r#""standard""#, Field::Kind, None),
    (r#""priority""#, Field::Kind, None),
    (r#""sorted""#, Field::Kind, None),
    (r#""lvq""#, Field::Kind, None),
    (r#""Standard""#, Field::Kind, Some(FieldFault::BadValue)),
    (r#""LVQ""#, Field::Kind, Some(FieldFault::BadValue)),
    (r#""""#, Field::Kind, Some(FieldFault::BadValue)),
    ("0", Field::Priorities, Some(FieldFault::BadValue)),
    ("1", Field::Priorities, None),
    ("10", Field::Priorities, None),
    ("11", Field::Priorities, Some(FieldFault::BadValue)),
    ("-1", Field::Priorities, Some(FieldFault::BadValue)),
    (r#""1""#, Field::Priorities, Some(FieldFault::BadValue)),
    ("1.5", Field::Priorities, Some(FieldFault::FloatNumber)),
    ("1e2", Field::Priorities, Some(FieldFault::FloatNumber)),
    ("-0", Field::Priorities, Some(FieldFault::FloatNumber)),
    ("-2", Field::MaximumMessages, Some(FieldFault::BadValue)),
    ("-1", Field::MaximumMessages, None),
    ("0", Field::MaximumMessages, Some(FieldFault::BadValue)),
    ("1", Field::MaximumMessages, None),
    ("1099511627776", Field::MaximumMessages, None),
    (
        "1099511627777",
        Field::MaximumMessages,
        Some(FieldFault::BadValue),
    ),
    ("1.0", Field::MaximumMessages, Some(FieldFault::FloatNumber)),
    ("-2", Field::MaximumBytes, Some(FieldFault::BadValue)),
    ("-1", Field::MaximumBytes, None),
    ("0", Field::MaximumBytes, Some(FieldFault::BadValue)),
    ("1", Field::MaximumBytes, None),
    ("1099511627776", Field::MaximumBytes, None),
    (
        "1099511627777",
        Field::MaximumBytes,
        Some(FieldFault::BadValue),
    ),
    (r#""-1""#, Field::MaximumBytes, Some(FieldFault::BadValue)),
    (r#""NONE""#, Field::OverflowPolicy, None),
    (r#""RING""#, Field::OverflowPolicy, None),
    (r#""PRODUCER_FLOW_CONTROL""#, Field::OverflowPolicy, None),
    (r#""FLOW_TO_DISK""#, Field::OverflowPolicy, None),
    (r#""REJECT""#, Field::OverflowPolicy, None),
    (
        r#""none""#,
        Field::OverflowPolicy,
        Some(FieldFault::BadValue),
    ),
    (
        r#""Ring""#,
        Field::OverflowPolicy,
        Some(FieldFault::BadValue),
    ),
    ("[]", Field::Consumers, None),
    ("[1.5]", Field::Consumers, None),
    ("{}", Field::Consumers, Some(FieldFault::BadValue)),
    ("null", Field::Consumers, Some(FieldFault::BadValue)),
    (r#""a""#, Field::Actor, None),
    ("\"#\"", Field::Actor, Some(FieldFault::BadValue)),
    (r#""""#, Field::Selector, None),
    (r#""a = 1""#, Field::Selector, None),
    ("null", Field::Selector, Some(FieldFault::BadValue)),
    ("1", Field::Selector, Some(FieldFault::BadValue)),
    ("1.5", Field::Selector, Some(FieldFault::FloatNumber)),
    (r#""put""#, Field::Do, None),
    (r#""""#, Field::Do, None),
    ("1", Field::Do, Some(FieldFault::BadValue)),
    (r#""q""#, Field::Queue, None),
    (r#""""#, Field::Queue, Some(FieldFault::BadValue)),
    (r#""c""#, Field::Consumer, None),
    (r#""c ""#, Field::Consumer, Some(FieldFault::BadValue)),
    ("0", Field::Id, None),
    ("18446744073709551615", Field::Id, None),
    (
        "18446744073709551616",
        Field::Id,
        Some(FieldFault::FloatNumber),
    ),
    ("-1", Field::Id, Some(FieldFault::BadValue)),
    ("1.5", Field::Id, Some(FieldFault::FloatNumber)),
    ("1e2", Field::Id, Some(FieldFault::FloatNumber)),
    ("-0", Field::Id, Some(FieldFault::FloatNumber)),
    ("true", Field::Persistent, None),
    ("false", Field::Persistent, None),
    ("1", Field::Persistent, Some(FieldFault::BadValue)),
    (r#""true""#, Field::Persistent, Some(FieldFault::BadValue)),
    ("0", Field::Priority, None),
    ("9", Field::Priority, None),
    ("10", Field::Priority, Some(FieldFault::BadValue)),
    ("-1", Field::Priority, Some(FieldFault::BadValue)),
    ("9.0", Field::Priority, Some(FieldFault::FloatNumber)),
    ("{}", Field::Headers, None),
    (
        r#"{"a":"","b":true,"c":-9223372036854775808,"d":9223372036854775807}"#,
        Field::Headers,
        None,
    ),
    (
        r#"{"a":9223372036854775808}"#,
        Field::Headers,
        Some(FieldFault::BadValue),
    ),
    (r#"{"a":null}"#, Field::Headers, Some(FieldFault::BadValue)),
    (r#"{"a":[1.5]}"#, Field::Headers, Some(FieldFault::BadValue)),
    (
        r#"{"a":null,"b":1.5}"#,
        Field::Headers,
        Some(FieldFault::FloatNumber),
    ),
    (
        r#"{"a":1.5,"b":[]}"#,
        Field::Headers,
        Some(FieldFault::FloatNumber),
    ),
    (r#"{"a":-0}"#, Field::Headers, Some(FieldFault::FloatNumber)),
    ("[]", Field::Headers, Some(FieldFault::BadValue)),
    ("1.5", Field::Headers, Some(FieldFault::FloatNumber)),
    (r#""""#, Field::Body, None),
    (r#""hi""#, Field::Body, None),
    ("1", Field::Body, Some(FieldFault::BadValue)),
    ("1.5", Field::Body, Some(FieldFault::FloatNumber)),
];

// How many bytes the text of a field has, and the cause that it gives.
const LENGTHS: &[(usize, Field, Option<FieldFault>)] = &[
    (0, Field::Name, Some(FieldFault::BadValue)),
    (1, Field::Name, None),
    (64, Field::Name, None),
    (65, Field::Name, Some(FieldFault::BadValue)),
    (64, Field::Actor, None),
    (65, Field::Actor, Some(FieldFault::BadValue)),
    (64, Field::Queue, None),
    (65, Field::Queue, Some(FieldFault::BadValue)),
    (64, Field::Consumer, None),
    (65, Field::Consumer, Some(FieldFault::BadValue)),
    (0, Field::SortKey, Some(FieldFault::BadValue)),
    (1, Field::SortKey, None),
    (255, Field::SortKey, None),
    (256, Field::SortKey, Some(FieldFault::BadValue)),
    (0, Field::LvqKey, Some(FieldFault::BadValue)),
    (1, Field::LvqKey, None),
    (255, Field::LvqKey, None),
    (256, Field::LvqKey, Some(FieldFault::BadValue)),
    (256, Field::Body, None),
];

// Bytes that are no JSON text in UTF-8.
const NO_JSON: &[&[u8]] = &[b"", b"{", b"{} {}", b"'a'", b"01", b"\"\xff\""];

// The object with this field alone, whose value is written so.
fn object_of(alloc: Global, field: Field, value: &str) -> Result<String, AllocError> {
    format!(in alloc; "{{\"{}\":{value}}}", field.name())
}

// A text of so many bytes, as JSON.
fn text_of(alloc: Global, count: usize) -> Result<String, AllocError> {
    let letters = "k".repeat(alloc, count)?;
    format!(in alloc; "\"{letters}\"")
}

#[test]
fn limits_of_values(rt: HostRuntime) -> Result<(), Fail> {
    let alloc = rt.alloc();
    for &(value, field, want) in VALUES {
        let object = read_json(alloc, object_of(alloc, field, value)?.as_bytes())?;
        assert_eq!(rt; check_values(&object, &[field]).err(), want, "at {value}");
    }
    for &(count, field, want) in LENGTHS {
        let value = text_of(alloc, count)?;
        let object = read_json(alloc, object_of(alloc, field, &value)?.as_bytes())?;
        assert_eq!(rt; check_values(&object, &[field]).err(), want, "at {count}");
    }
    Ok(())
}

#[test]
fn ample(rt: HostRuntime) -> Result<(), Fail> {
    let alloc = rt.alloc();
    for bytes in NO_JSON {
        assert!(rt; matches!(read_json(alloc, bytes), Err(JsonFault::NotJson)));
    }

    let line = br#" {"do":"put","id":7,"persistent":true,"queues":[1,2],"priority":1.5,"body":0}"#;
    let object = read_json(alloc, line)?;
    assert_eq!(rt; text(&object, Field::Do), Some("put"));
    assert_eq!(rt; text(&object, Field::Id), None);
    assert_eq!(rt; text(&object, Field::Name), None);
    assert_eq!(rt; number(&object, Field::Id), Some(7));
    assert_eq!(rt; number(&object, Field::Priority), None);
    assert_eq!(rt; truth(&object, Field::Persistent), Some(true));
    assert_eq!(rt; truth(&object, Field::Id), None);
    assert_eq!(rt; items(&object, Field::Queues).len(), 2);
    assert_eq!(rt; items(&object, Field::Consumers).len(), 0);
    assert_eq!(rt; items(&object, Field::Body).len(), 0);
    assert_eq!(rt; Field::MaximumMessages.name(), "maximumQueueDepthMessages");
    assert!(rt; Field::Headers.accepts(&read_json(alloc, b"{}")?));
    assert!(rt; !Field::Headers.accepts(&object));

    // UnknownField comes before MissingField; the first field with a cause tells it.
    let known = [
        Field::Do,
        Field::Id,
        Field::Persistent,
        Field::Queues,
        Field::Priority,
        Field::Body,
    ];
    assert_eq!(rt; check_presence(&object, &known, &[Field::Do]), Ok(()));
    assert_eq!(rt;
        check_presence(&object, &known, &[Field::Do, Field::Queue]),
        Err(FieldFault::MissingField)
    );
    assert_eq!(rt;
        check_presence(&object, &known[1..], &[Field::Queue]),
        Err(FieldFault::UnknownField)
    );
    assert_eq!(rt; check_values(&object, &known), Err(FieldFault::FloatNumber));
    assert_eq!(rt;
        check_values(&object, &[Field::Body, Field::Priority]),
        Err(FieldFault::BadValue)
    );
    assert_eq!(rt;
        check_values(&object, &[Field::Do, Field::Queue, Field::Id]),
        Ok(())
    );
    Ok(())
}
