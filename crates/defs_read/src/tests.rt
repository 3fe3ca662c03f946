use super::*;
use byte_lists::Bytes;
use queue_model::{Limits, Policy};
use std::alloc::{AllocError, Global};
use std::process::Abort;
use std::test::Fail;

/// What kind of queue is wanted.
#[derive(Drop)]
enum WantedKind {
    Standard,
    Priority(u32),
    Sorted(&'static str),
    LastValue(&'static str),
}

/// Which queue is wanted; of each consumer its name, its actor and its number.
#[derive(Drop)]
struct Wanted {
    name: &'static str,
    kind: WantedKind,
    limits: Limits,
    consumers: &'static [(&'static str, &'static str, u32)],
}

const NO_LIMITS: Limits = Limits {
    policy: Policy::None,
    entries: None,
    bytes: None,
};

/// Every kind, limit and policy, with and without its field.
const AMPLE: &str = r#"{"queues":[
    {"name":1.5,"name":"plain"},
    {"name":"three","type":"priority","priorities":3,"maximumQueueDepthMessages":5,"maximumQueueDepthBytes":-1,
        "overflowPolicy":"RING","consumers":[{"name":"c","actor":"x"},{"name":"d","actor":"y"}]},
    {"name":"ten","type":"priority","overflowPolicy":"NONE"},
    {"name":"sorted","type":"sorted","sortKey":"size","maximumQueueDepthMessages":-1,
        "maximumQueueDepthBytes":1099511627776,"overflowPolicy":"PRODUCER_FLOW_CONTROL","consumers":[]},
    {"name":"last","type":"lvq","lvqKey":"part","overflowPolicy":"FLOW_TO_DISK",
        "consumers":[{"actor":"x","name":"e"}]},
    {"name":"usual","type":"lvq","maximumQueueDepthBytes":1},
    {"name":"standard","type":"standard","overflowPolicy":"REJECT","consumers":[{"name":"f","actor":"f"}]}]}"#;

const WANTED: [Wanted; 7] = [
    Wanted {
        name: "plain",
        kind: WantedKind::Standard,
        limits: NO_LIMITS,
        consumers: &[],
    },
    Wanted {
        name: "three",
        kind: WantedKind::Priority(3),
        limits: Limits {
            policy: Policy::Ring,
            entries: Some(5),
            bytes: None,
        },
        consumers: &[("c", "x", 0), ("d", "y", 1)],
    },
    Wanted {
        name: "ten",
        kind: WantedKind::Priority(10),
        limits: NO_LIMITS,
        consumers: &[],
    },
    Wanted {
        name: "sorted",
        kind: WantedKind::Sorted("size"),
        limits: Limits {
            policy: Policy::FlowControl,
            entries: None,
            bytes: Some(1_099_511_627_776),
        },
        consumers: &[],
    },
    Wanted {
        name: "last",
        kind: WantedKind::LastValue("part"),
        limits: Limits {
            policy: Policy::FlowToDisk,
            entries: None,
            bytes: None,
        },
        consumers: &[("e", "x", 2)],
    },
    Wanted {
        name: "usual",
        kind: WantedKind::LastValue("qpid.LVQ_key"),
        limits: Limits {
            policy: Policy::None,
            entries: None,
            bytes: Some(1),
        },
        consumers: &[],
    },
    Wanted {
        name: "standard",
        kind: WantedKind::Standard,
        limits: Limits {
            policy: Policy::Reject,
            entries: None,
            bytes: None,
        },
        consumers: &[("f", "f", 3)],
    },
];

/// The queue that `QueueDef::bare` makes of the name `q`.
const BARE: Wanted = Wanted {
    name: "q",
    kind: WantedKind::Standard,
    limits: NO_LIMITS,
    consumers: &[],
};

/// A definition of one queue.
const ONE: &str = r#"{"queues":[{"name":"q"}]}"#;

const SIXTEEN: &str =
    r#"{"queues":[{"name":"1"},{"name":"2"},{"name":"3"},{"name":"4"},{"name":"5"},{"name":"6"},
    {"name":"7"},{"name":"8"},{"name":"9"},{"name":"10"},{"name":"11"},{"name":"12"},{"name":"13"},{"name":"14"},
    {"name":"15"},{"name":"16"}]}"#;

const SEVENTEEN: &str =
    r#"{"queues":[{"name":"1"},{"name":"2"},{"name":"3"},{"name":"4"},{"name":"5"},{"name":"6"},
    {"name":"7"},{"name":"8"},{"name":"9"},{"name":"10"},{"name":"11"},{"name":"12"},{"name":"13"},{"name":"14"},
    {"name":"15"},{"name":"16"},{"name":"17"}]}"#;

/// Lines, and the first cause of each. Where two causes meet, the one that comes first is told.
const LINES: [(&str, Option<DefsFault>); 17] = [
    (ONE, None),
    (SIXTEEN, None),
    (r#"{"queues":1.5,"queues":[{"name":"q"}]}"#, None),
    ("", Some(DefsFault::NotJson)),
    (r#"{"queues":["#, Some(DefsFault::NotJson)),
    (r#"{"queues":[{"name":"q"}]} 1"#, Some(DefsFault::NotJson)),
    ("1.5", Some(DefsFault::BadValue)),
    ("[]", Some(DefsFault::BadValue)),
    (r#"{"more":1}"#, Some(DefsFault::UnknownField)),
    (r#"{"queues":1.5,"more":1}"#, Some(DefsFault::UnknownField)),
    (r#"{"queues":[{}],"more":1}"#, Some(DefsFault::UnknownField)),
    ("{}", Some(DefsFault::MissingField)),
    (r#"{"queues":1.5}"#, Some(DefsFault::FloatNumber)),
    (
        r#"{"queues":[{"name":"q"}],"queues":1.5}"#,
        Some(DefsFault::FloatNumber),
    ),
    (r#"{"queues":7}"#, Some(DefsFault::BadValue)),
    (r#"{"queues":[]}"#, Some(DefsFault::BadValue)),
    (SEVENTEEN, Some(DefsFault::BadValue)),
];

/// Lists of queues.
const QUEUES: [(&str, Option<DefsFault>); 36] = [
    ("1.5", Some(DefsFault::BadValue)),
    (r#"{"color":1}"#, Some(DefsFault::UnknownField)),
    (r#"{"name":1.5,"color":1}"#, Some(DefsFault::UnknownField)),
    (
        r#"{"name":"q","priorities":3}"#,
        Some(DefsFault::UnknownField),
    ),
    (
        r#"{"name":"q","type":"priority","sortKey":"k"}"#,
        Some(DefsFault::UnknownField),
    ),
    (
        r#"{"name":"q","type":"sorted","sortKey":"k","lvqKey":"k"}"#,
        Some(DefsFault::UnknownField),
    ),
    (
        r#"{"name":"q","type":"lvq","priorities":3}"#,
        Some(DefsFault::UnknownField),
    ),
    (
        r#"{"name":"q","type":"other","priorities":3}"#,
        Some(DefsFault::UnknownField),
    ),
    (
        r#"{"name":"q","type":1.5,"priorities":3}"#,
        Some(DefsFault::UnknownField),
    ),
    ("{}", Some(DefsFault::MissingField)),
    (r#"{"type":1.5}"#, Some(DefsFault::MissingField)),
    (
        r#"{"name":"","type":"sorted"}"#,
        Some(DefsFault::MissingField),
    ),
    (
        r#"{"name":1.5,"type":"other"}"#,
        Some(DefsFault::FloatNumber),
    ),
    (r#"{"name":"a b","type":1.5}"#, Some(DefsFault::BadValue)),
    (r#"{"name":"q","type":"other"}"#, Some(DefsFault::BadValue)),
    (
        r#"{"name":"q","type":"priority","priorities":11,"maximumQueueDepthMessages":1.5}"#,
        Some(DefsFault::BadValue),
    ),
    (
        r#"{"name":"q","type":"sorted","sortKey":1.5,"maximumQueueDepthMessages":0}"#,
        Some(DefsFault::FloatNumber),
    ),
    (
        r#"{"name":"q","type":"lvq","lvqKey":"","maximumQueueDepthMessages":1.5}"#,
        Some(DefsFault::BadValue),
    ),
    (
        r#"{"name":"q","maximumQueueDepthBytes":0,"maximumQueueDepthMessages":1.5}"#,
        Some(DefsFault::FloatNumber),
    ),
    (
        r#"{"name":"q","maximumQueueDepthBytes":1.5,"maximumQueueDepthMessages":-2}"#,
        Some(DefsFault::BadValue),
    ),
    (
        r#"{"name":"q","overflowPolicy":"ring","maximumQueueDepthBytes":1.5}"#,
        Some(DefsFault::FloatNumber),
    ),
    (
        r#"{"name":"q","overflowPolicy":1.5,"maximumQueueDepthBytes":1099511627777}"#,
        Some(DefsFault::BadValue),
    ),
    (
        r#"{"name":"q","consumers":{},"overflowPolicy":1.5}"#,
        Some(DefsFault::FloatNumber),
    ),
    (
        r#"{"name":"q","consumers":1.5,"overflowPolicy":""}"#,
        Some(DefsFault::BadValue),
    ),
    (
        r#"{"name":"q","consumers":[{}],"overflowPolicy":1.5}"#,
        Some(DefsFault::FloatNumber),
    ),
    (r#"{"name":"q"},{"name":"r"}"#, None),
    (r#"{"name":"q"},{"name":"q"}"#, Some(DefsFault::DoubleName)),
    (
        r#"{"name":"q"},{"name":"r"},{"name":"q"}"#,
        Some(DefsFault::DoubleName),
    ),
    (
        r#"{"name":"q"},{"name":"q","color":1}"#,
        Some(DefsFault::UnknownField),
    ),
    (
        r#"{"name":"q"},{"name":"q","type":"sorted"}"#,
        Some(DefsFault::MissingField),
    ),
    (
        r#"{"name":"q"},{"name":"q","type":1.5}"#,
        Some(DefsFault::DoubleName),
    ),
    (
        r#"{"name":"q"},{"name":"q","consumers":[{}]}"#,
        Some(DefsFault::DoubleName),
    ),
    (
        r#"{"name":"q"},{"name":"q"},{"color":1}"#,
        Some(DefsFault::DoubleName),
    ),
    (
        r#"{"name":"q","consumers":[{}]},1"#,
        Some(DefsFault::MissingField),
    ),
    ("{},1", Some(DefsFault::MissingField)),
    ("1,{}", Some(DefsFault::BadValue)),
];

/// Lists of consumers of the queue `q`.
const CONSUMERS: [(&str, Option<DefsFault>); 20] = [
    ("", None),
    (r#"{"name":"q","actor":"q"}"#, None),
    (r#"{"name":"c","actor":"a"},{"name":"d","actor":"a"}"#, None),
    ("1.5", Some(DefsFault::BadValue)),
    (r#"{"more":1}"#, Some(DefsFault::UnknownField)),
    (
        r#"{"name":1.5,"actor":"a","more":1}"#,
        Some(DefsFault::UnknownField),
    ),
    (r#"{"name":"c"}"#, Some(DefsFault::MissingField)),
    (r#"{"actor":1.5}"#, Some(DefsFault::MissingField)),
    (r#"{"name":1.5,"actor":""}"#, Some(DefsFault::FloatNumber)),
    (r#"{"name":"","actor":1.5}"#, Some(DefsFault::BadValue)),
    (r#"{"name":"c","actor":1.5}"#, Some(DefsFault::FloatNumber)),
    (r##"{"name":"c","actor":"#"}"##, Some(DefsFault::BadValue)),
    (
        r#"{"name":"c","actor":"a"},{"name":"c","actor":"b"}"#,
        Some(DefsFault::DoubleName),
    ),
    (
        r#"{"name":"c","actor":"a"},{"name":"d","actor":"a"},{"name":"c","actor":"a"}"#,
        Some(DefsFault::DoubleName),
    ),
    (
        r#"{"name":"c","actor":"a"}]},{"name":"r","consumers":[{"name":"c","actor":"a"}"#,
        Some(DefsFault::DoubleName),
    ),
    (
        r#"{"name":"c","actor":"a"},{"name":"c","actor":"a","more":1}"#,
        Some(DefsFault::UnknownField),
    ),
    (
        r#"{"name":"c","actor":"a"},{"name":"c"}"#,
        Some(DefsFault::MissingField),
    ),
    (
        r#"{"name":"c","actor":"a"},{"name":"c","actor":1.5}"#,
        Some(DefsFault::DoubleName),
    ),
    ("{},1.5", Some(DefsFault::MissingField)),
    ("1.5,{}", Some(DefsFault::BadValue)),
];

/// So many consumers of the queue `q`, named by numbers from 0, and what stands behind them.
const CROWDS: [(u32, &str, Option<DefsFault>); 8] = [
    (63, r#"{"name":"c","actor":"a"}"#, None),
    (
        64,
        r#"{"name":"c","actor":"a"}"#,
        Some(DefsFault::TooManyConsumers),
    ),
    (64, r#"{"name":"c"}"#, Some(DefsFault::MissingField)),
    (
        64,
        r#"{"name":"c","actor":1.5}"#,
        Some(DefsFault::FloatNumber),
    ),
    (
        64,
        r#"{"name":"0","actor":"a"}"#,
        Some(DefsFault::DoubleName),
    ),
    (
        64,
        r#"{"name":"c","actor":"a"},{}"#,
        Some(DefsFault::TooManyConsumers),
    ),
    (
        64,
        r#"{"name":"c","actor":"a"}]},{"name":"q","consumers":["#,
        Some(DefsFault::TooManyConsumers),
    ),
    (
        63,
        r#"{"name":"c","actor":"a"}]},{"name":"r","consumers":[{"name":"d","actor":"a"}"#,
        Some(DefsFault::TooManyConsumers),
    ),
];

/// Texts, so many bytes that a line has with spaces behind the text, and its first cause.
const LONG: [(&str, usize, Option<DefsFault>); 4] = [
    (ONE, 1_048_576, None),
    (ONE, 1_048_577, Some(DefsFault::LineTooLong)),
    ("{", 1_048_576, Some(DefsFault::NotJson)),
    ("{", 1_048_577, Some(DefsFault::LineTooLong)),
];

/// The name is no UTF-8.
const NO_TEXT: &[u8] = b"{\"queues\":[{\"name\":\"\xff\"}]}";

fn is_kind(kind: &QueueKind, wanted: &WantedKind) -> bool {
    match (kind, wanted) {
        (QueueKind::Standard, WantedKind::Standard) => true,
        (QueueKind::Priority(number), WantedKind::Priority(want)) => number == want,
        (QueueKind::Sorted(key), WantedKind::Sorted(want)) => key.as_slice() == want.as_bytes(),
        (QueueKind::LastValue(key), WantedKind::LastValue(want)) => key.as_slice()
            == want.as_bytes(),
        _ => false,
    }
}

fn check_queue(rt: &impl Abort, queue: &QueueDef, wanted: &Wanted) {
    assert_eq!(rt; queue.name.as_slice(), wanted.name.as_bytes());
    assert!(rt;
        is_kind(&queue.kind, &wanted.kind),
        "the kind of {}",
        wanted.name
    );
    assert_eq!(rt; queue.limits, wanted.limits);
    assert_eq!(rt; queue.consumers.len(), wanted.consumers.len());
    for (consumer, (name, actor, number)) in queue.consumers.iter().zip(wanted.consumers) {
        assert_eq!(rt; consumer.name.as_slice(), name.as_bytes());
        assert_eq!(rt; consumer.actor.as_slice(), actor.as_bytes());
        assert_eq!(rt; consumer.number, *number);
    }
}

fn check_fault(rt: &(impl Abort + AllocGlobal), text: &str, want: Option<DefsFault>) {
    assert_eq!(rt;
        read_defs(rt.alloc(), text.as_bytes()).err(),
        want,
        "at {text}"
    );
}

/// Definitions of the queue `q` with so many consumers, named by numbers from 0, and with what stands behind them.
pub(crate) fn crowd(alloc: Global, count: u32, last: &str) -> Result<String, AllocError> {
    let mut text = String::from_str(alloc, r#"{"queues":[{"name":"q","consumers":["#)?;
    for number in 0..count {
        text.push_str(&format!(in alloc; r#"{{"name":"{number}","actor":"a"}},"#)?)?;
    }
    text.push_str(last)?;
    text.push_str("]}]}")?;
    Ok(text)
}

#[test]
fn ample(rt: HostRuntime) -> Result<(), Fail> {
    let alloc = rt.alloc();
    let defs = read_defs(alloc, AMPLE.as_bytes())?;
    assert_eq!(rt; defs.queues.len(), WANTED.len());
    for (queue, wanted) in defs.queues.iter().zip(&WANTED) {
        check_queue(&rt, queue, wanted);
    }
    let bare = QueueDef::bare(
        Bytes::of(alloc, b"q")?,
        QueueKind::Standard,
        Vec::new(alloc),
    );
    check_queue(&rt, &bare, &BARE);
    Ok(())
}

#[test]
fn first_causes(rt: HostRuntime) -> Result<(), Fail> {
    let alloc = rt.alloc();
    for (text, want) in LINES {
        check_fault(&rt, text, want);
    }
    for (queues, want) in QUEUES {
        check_fault(&rt, &format!(in alloc; r#"{{"queues":[{queues}]}}"#)?, want);
    }
    for (consumers, want) in CONSUMERS {
        check_fault(
            &rt,
            &format!(in alloc; r#"{{"queues":[{{"name":"q","consumers":[{consumers}]}}]}}"#)?,
            want,
        );
    }
    assert_eq!(rt; read_defs(alloc, NO_TEXT).err(), Some(DefsFault::NotJson));
    Ok(())
}

#[test]
fn large_lines(rt: HostRuntime) -> Result<(), Fail> {
    let alloc = rt.alloc();
    for (count, last, want) in CROWDS {
        check_fault(&rt, &crowd(alloc, count, last)?, want);
    }
    for (text, length, want) in LONG {
        let mut line = Vec::from_slice(alloc, text.as_bytes())?;
        line.resize(length, b' ')?;
        assert_eq!(rt; read_defs(alloc, &line).err(), want, "at {length}");
    }
    Ok(())
}
