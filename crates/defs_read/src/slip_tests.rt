//! Slips: which consumers want a message, and its list and its key in queues of each kind.
use super::*;
use message_core::Message;
use queue_model::Slip;
use std::alloc::{AllocError, Global};
use std::process::Abort;
use std::test::*;

/// The headers `weight` = 12 and `region` = `north`.
const NORTH_12: &[u8] = b"\x06weight\x02\0\0\0\0\0\0\0\x0c\x06region\x03\0\0\0\x05north";
/// `weight` = 11 and `region` = `south`.
const SOUTH_11: &[u8] = b"\x06weight\x02\0\0\0\0\0\0\0\x0b\x06region\x03\0\0\0\x05south";
/// `weight` = 3.
const LIGHT: &[u8] = b"\x06weight\x02\0\0\0\0\0\0\0\x03";
/// `weight` = the text `12`.
const TEXT_12: &[u8] = b"\x06weight\x03\0\0\0\x0212";
/// `weight` = true.
const TRUE: &[u8] = b"\x06weight\x01";

/// A queue whose five consumers are those of the numbers 2 to 6: bit 0 of its masks is that of number 2. The last selector
/// is unknown of every message.
const FIVE: &str = r#"{"queues":[
    {"name":"q","consumers":[{"name":"a","actor":"x"},{"name":"b","actor":"x","selector":"weight > 10"},
        {"name":"c","actor":"x","selector":"region LIKE 'n%'"},{"name":"d","actor":"x","selector":"NOT (weight > 10)"},
        {"name":"e","actor":"x","selector":"weight + 1"}]},
    {"name":"p","consumers":[{"name":"f","actor":"x","selector":"FALSE"},{"name":"g","actor":"x"}]}]}"#;

/// Of a message with these headers its size, its mask in the first of these queues, and that in the second.
const MASKS: [(u8, &[u8], u64, u64, u64); 6] = [
    (2, NORTH_12, 49, 0b00111, 0b10),
    (2, SOUTH_11, 49, 0b00011, 0b10),
    (1, LIGHT, 32, 0b01001, 0b10),
    (1, TEXT_12, 30, 0b01001, 0b10),
    (1, TRUE, 24, 0b01001, 0b10),
    (0, b"", 16, 0b00001, 0b10),
];

/// With so many priorities, the list of each priority from 0.
const LISTS: [(u32, [u32; 10]); 7] = [
    (1, [0, 0, 0, 0, 0, 0, 0, 0, 0, 0]),
    (2, [0, 0, 0, 0, 0, 1, 1, 1, 1, 1]),
    (3, [0, 0, 0, 0, 1, 2, 2, 2, 2, 2]),
    (4, [0, 0, 0, 0, 1, 2, 3, 3, 3, 3]),
    (5, [0, 0, 0, 1, 2, 3, 4, 4, 4, 4]),
    (9, [0, 1, 2, 3, 4, 5, 6, 7, 8, 8]),
    (10, [0, 1, 2, 3, 4, 5, 6, 7, 8, 9]),
];

/// The fields of a queue behind its name, the headers of a message, and its key there.
const KEYS: [(&str, u8, &[u8], Option<&[u8]>); 8] = [
    (
        r#""type":"sorted","sortKey":"region""#,
        2,
        NORTH_12,
        Some(b"north"),
    ),
    (r#""type":"sorted","sortKey":"weight""#, 2, NORTH_12, None),
    (r#""type":"sorted","sortKey":"region""#, 1, LIGHT, None),
    (r#""type":"lvq","lvqKey":"weight""#, 1, TEXT_12, Some(b"12")),
    (r#""type":"lvq","lvqKey":"weight""#, 1, TRUE, None),
    (r#""type":"lvq","lvqKey":"Region""#, 2, SOUTH_11, None),
    (r#""type":"priority""#, 2, SOUTH_11, None),
    (r#""type":"standard""#, 2, SOUTH_11, None),
];

/// The message with this id, priority and headers, of which there are so many, without a body.
fn message(
    rt: &impl Abort,
    alloc: Global,
    priority: u8,
    count: u8,
    headers: &[u8],
) -> Result<Message, AllocError> {
    let mut bytes = Vec::from_slice(alloc, &[0, 0, 0, 0, 0, 0, 0, 5, 0, priority, 0, count])?;
    bytes.extend_from_slice(headers)?;
    bytes.extend_from_slice(&[0, 0, 0, 0])?;
    Ok(Message::decode(alloc, &bytes).ok().expect(rt, "a message"))
}

/// The slip of the message in the queue of this place.
fn slip_in(rt: &impl Abort, alloc: Global, text: &str, place: usize, message: &Message) -> Slip {
    let Ok(defs) = read_defs(alloc, text.as_bytes()) else {
        panic!(rt; "no definitions");
    };
    let queue = defs.queues.get(place).expect(rt, "a queue");
    slip(alloc, queue, message).ok().expect(rt, "a slip")
}

#[test]
fn masks(rt: HostRuntime) -> Result<(), Fail> {
    let alloc = rt.alloc();
    for (count, headers, size, first, second) in MASKS {
        let message = message(&rt, alloc, 4, count, headers)?;
        let Slip {
            id,
            size: told,
            mask,
            list,
            key,
        } = slip_in(&rt, alloc, FIVE, 0, &message);
        assert_eq!(rt; (id, told, mask, list), (5, size, first, 0));
        assert!(rt; key.is_none());
        assert_eq!(rt; slip_in(&rt, alloc, FIVE, 1, &message).mask, second);
    }
    let message = message(&rt, alloc, 4, 0, b"")?;
    let all = tests::crowd(
        alloc,
        63,
        r#"{"name":"last","actor":"a","selector":"TRUE"}"#,
    )?;
    assert_eq!(rt; slip_in(&rt, alloc, &all, 0, &message).mask, u64::MAX);
    let but_one = tests::crowd(
        alloc,
        63,
        r#"{"name":"last","actor":"a","selector":"weight = 1"}"#,
    )?;
    assert_eq!(rt;
        slip_in(&rt, alloc, &but_one, 0, &message).mask,
        u64::MAX >> 1
    );
    Ok(())
}

#[test]
fn lists(rt: HostRuntime) -> Result<(), Fail> {
    let alloc = rt.alloc();
    for (priorities, lists) in LISTS {
        let text = format!(in alloc;
            r#"{{"queues":[{{"name":"q","type":"priority","priorities":{priorities}}}]}}"#
        )?;
        for (priority, list) in (0..).zip(lists) {
            let message = message(&rt, alloc, priority, 0, b"")?;
            let told = slip_in(&rt, alloc, &text, 0, &message).list;
            assert_eq!(rt; told, list, "at {priorities}, {priority}");
        }
    }
    Ok(())
}

#[test]
fn keys(rt: HostRuntime) -> Result<(), Fail> {
    let alloc = rt.alloc();
    for (fields, count, headers, key) in KEYS {
        let text = format!(in alloc; r#"{{"queues":[{{"name":"q",{fields}}}]}}"#)?;
        let message = message(&rt, alloc, 4, count, headers)?;
        let slip = slip_in(&rt, alloc, &text, 0, &message);
        assert_eq!(rt;
            slip.key.as_ref().map(|key| key.as_slice()),
            key,
            "at {fields}"
        );
    }
    Ok(())
}

/// A slip, with enough memory for its key.
#[test]
fn ample(rt: HostRuntime) -> Result<(), Fail> {
    let alloc = rt.alloc();
    let message = message(&rt, alloc, 4, 2, NORTH_12)?;
    let text = r#"{"queues":[{"name":"q","type":"sorted","sortKey":"region"}]}"#;
    let slip = slip_in(&rt, alloc, text, 0, &message);
    assert_eq!(rt;
        slip.key.as_ref().map(|key| key.as_slice()),
        Some(b"north".as_slice())
    );
    Ok(())
}
