ghost use Rattle.std.specs.Prelude.{◌≤◌, length};
ghost use Rattle.defs_read.specs.Allowed.{AreAllowed, most_queues};
ghost use Rattle.defs_read.specs.Defined.{queues_in};

use super::*;
use acts_core::{Cargo, RestEntry};
use byte_lists::Bytes;
use defs_read::{Defs, read_defs};
use message_core::Message;
use queue_model::{MOST_ENTRIES, RowState};
use recover_core::Kept;
use script_read::{Script, read_message, read_script};
use sqlite_items::Items;
use std::alloc::Global;
use std::process::Abort;
use std::test::Fail;
use txn_core::Parcel;

/// Four queues, the last of which keeps the last message of each value of the header `k`.
const DEFS: &str = r#"{"queues":[{"name":"q"},{"name":"r","type":"priority"},
    {"name":"s","type":"sorted","sortKey":"k"},{"name":"l","type":"lvq","lvqKey":"k"}]}"#;

const REST: &str = "{\"do\":\"rest\"}\n";

const Q_1: &str = "{\"do\":\"put\",\"actor\":\"a\",\"queue\":\"q\",\"id\":1}\n";

const Q_2: &str = "{\"do\":\"put\",\"actor\":\"a\",\"queue\":\"q\",\"id\":2}\n";

const Q_3: &str = "{\"do\":\"put\",\"actor\":\"b\",\"queue\":\"q\",\"id\":3}\n";

const R_1: &str = "{\"do\":\"put\",\"actor\":\"b\",\"queue\":\"r\",\"id\":1}\n";

const ACK_1: &str = "{\"do\":\"ack\",\"actor\":\"a\",\"queue\":\"q\",\"id\":1}\n";

/// The queues and ids of live entries, the lines of a script, of which the first is line 2, and the first line that doesn't
/// go with them, with its cause.
const CASES: &[(&[(&str, u64)], &[&str], Option<(u64, LiveCause)>)] = &[
    (&[], &[], None),
    (&[], &[Q_1, R_1], None),
    // A queue that isn't defined, wherever the entry stands, and before all other causes.
    (&[("x", 1)], &[], Some((1, LiveCause::JournalQueue))),
    (
        &[("q", 1), ("q", 1), ("Q", 2)],
        &[Q_1],
        Some((1, LiveCause::JournalQueue)),
    ),
    // One queue and one id, twice: next to each other, and apart.
    (&[("q", 1), ("q", 1)], &[], Some((1, LiveCause::DoubleLive))),
    (
        &[("r", 7), ("q", 1), ("l", 2), ("r", 7)],
        &[Q_1],
        Some((1, LiveCause::DoubleLive)),
    ),
    (&[("q", 1), ("r", 1), ("q", 2), ("l", 1)], &[], None),
    // A put of what is live: the first by its line, in whatever phase and by whatever actor.
    (&[("q", 1)], &[Q_1], Some((2, LiveCause::DoubleId))),
    (&[("q", 1)], &[R_1, Q_2, Q_3], None),
    (
        &[("q", 1)],
        &[R_1, REST, Q_2, Q_1],
        Some((5, LiveCause::DoubleId)),
    ),
    (
        &[("q", 1), ("q", 3)],
        &[R_1, Q_2, Q_3, Q_1],
        Some((4, LiveCause::DoubleId)),
    ),
    (
        &[("q", 1), ("q", 3)],
        &[Q_2, Q_1, Q_3],
        Some((3, LiveCause::DoubleId)),
    ),
    // Another line than a put may name what is live.
    (&[("q", 1)], &[ACK_1], None),
];

fn definitions(rt: &impl Abort, alloc: Global) -> Defs
    ensures few { length (queues_in result) ≤ most_queues }
    ensures allowed { AreAllowed (queues_in result) }
{
    match read_defs(alloc, DEFS.as_bytes()) {
        Ok(defs) => defs,
        Err(_) => panic!(rt; "no definitions"),
    }
}

/// The script of these lines, the first of which is line 2.
fn script(rt: &impl Abort, alloc: Global, defs: &Defs, lines: &[&str]) -> Script
    requires { length (queues_in defs.now) ≤ most_queues }
{
    let mut text = Vec::new(alloc);
    for line in lines {
        text.extend_from_slice(line.as_bytes())
            .ok()
            .expect(rt, "memory");
    }
    assert!(rt; text.len() < 1_000_000);
    match read_script(alloc, text.as_slice(), defs, true, 2) {
        Ok(script) => script,
        Err(_) => panic!(rt; "no script"),
    }
}

/// A live entry of this queue, with no headers and no body.
fn entry(rt: &impl Abort, alloc: Global, queue: &str, id: u64) -> Kept {
    let queue = Bytes::of(alloc, queue.as_bytes()).ok().expect(rt, "memory");
    let none = Bytes::from_vec(Vec::new(alloc));
    let message = Message::make(alloc, id, true, 4, Vec::new(alloc), none)
        .ok()
        .expect(rt, "a message");
    Kept {
        queue,
        message,
        at: 29,
        body_at: id,
    }
}

/// So many live entries of the queue `r`, with ids from 100 on.
fn many(rt: &impl Abort, alloc: Global, count: u64) -> Vec<Kept> {
    let mut live = Vec::new(alloc);
    for id in 0..count {
        live.push(entry(rt, alloc, "r", 100 + id % 1_000_000))
            .ok()
            .expect(rt, "memory");
    }
    live
}

/// The first line of these that doesn't go with the live entries, with its cause.
fn fault(
    rt: &impl Abort,
    alloc: Global,
    defs: &Defs,
    live: &[Kept],
    lines: &[&str],
) -> Option<(u64, LiveCause)>
    requires { length (queues_in defs.now) ≤ most_queues }
{
    let script = script(rt, alloc, defs, lines);
    match check_live(alloc, defs, live, &script) {
        Ok(Some(LiveFault { line, cause })) => Some((line, cause)),
        Ok(None) => None,
        Err(_) => panic!(rt; "memory"),
    }
}

#[test]
fn first_causes(rt: HostRuntime) {
    let alloc = rt.alloc();
    let defs = definitions(&rt, alloc);
    for (entries, lines, cause) in CASES {
        let mut live = Vec::new(alloc);
        for (queue, id) in *entries {
            live.push(entry(&rt, alloc, queue, *id))
                .ok()
                .expect(&rt, "memory");
        }
        assert_eq!(rt; fault(&rt, alloc, &defs, &live, lines), *cause);
    }
}

/// With the most entries a run goes on, and above them the put is told that passes it, also where it is of what is live;
/// of live entries alone line 1 is told.
#[test]
fn most_entries_of_a_run(rt: HostRuntime) {
    let alloc = rt.alloc();
    let defs = definitions(&rt, alloc);
    let mut live = many(&rt, alloc, MOST_ENTRIES - 2);
    assert_eq!(rt; fault(&rt, alloc, &defs, &live, &[Q_3, Q_2]), None);
    let passed = fault(&rt, alloc, &defs, &live, &[R_1, REST, Q_3, ACK_1, Q_2]);
    assert_eq!(rt; passed, Some((6, LiveCause::TooManyEntries)));
    for id in 1..3 {
        live.push(entry(&rt, alloc, "q", id))
            .ok()
            .expect(&rt, "memory");
    }
    assert_eq!(rt; fault(&rt, alloc, &defs, &live, &[ACK_1]), None);
    let both = fault(&rt, alloc, &defs, &live, &[ACK_1, REST, Q_1]);
    assert_eq!(rt; both, Some((4, LiveCause::TooManyEntries)));
    live.push(entry(&rt, alloc, "q", 3))
        .ok()
        .expect(&rt, "memory");
    let alone = fault(&rt, alloc, &defs, &live, &[Q_1]);
    assert_eq!(rt; alone, Some((1, LiveCause::TooManyEntries)));
}

/// Messages by id and the value of `k`, if any, each of which is live in each queue; and those of the queue `l` that stay.
const VALUES: &[(u64, &str)] = &[(1, "x"), (2, "y"), (3, ""), (4, "x"), (5, ""), (6, "x")];

/// The message with this id and value, and the body `hi`.
fn valued(rt: &impl Abort, alloc: Global, id: u64, value: &str) -> Message {
    let text = match value.is_empty() {
        true => format!(in alloc; r#"{{"id":{id},"persistent":true,"priority":{id},"body":"hi"}}"#),
        false => format!(in alloc;
            r#"{{"id":{id},"persistent":true,"priority":{id},"body":"hi","headers":{{"k":"{value}"}}}}"#
        ),
    };
    let text = text.ok().expect(rt, "memory");
    read_message(alloc, text.as_bytes())
        .ok()
        .expect(rt, "a message")
}

/// The ids of the entries of a queue, each of which is as a recovered entry is.
fn ids(rt: &impl Abort, alloc: Global, left: &[Vec<RestEntry<Parcel>>], queue: usize) -> Vec<u64> {
    let mut ids = Vec::new(alloc);
    for entry in left.get(queue).expect(rt, "a queue") {
        assert!(rt; entry.state == RowState::Available && !entry.outdated);
        assert_eq!(rt; entry.slip.id, entry.cargo.message().id());
        assert_eq!(rt; entry.slip.size, entry.cargo.size());
        assert!(rt; entry.cargo.is_here());
        assert_eq!(rt; entry.cargo.delivered(), 0);
        assert_eq!(rt; entry.cargo.receipt(), None);
        ids.push(entry.slip.id).ok().expect(rt, "memory");
    }
    ids
}

/// The ids of the entries of a queue that give way.
fn gone(rt: &impl Abort, alloc: Global, outdated: &[Vec<Kept>], queue: usize) -> Vec<u64> {
    let mut ids = Vec::new(alloc);
    for entry in outdated.get(queue).expect(rt, "a queue") {
        ids.push(entry.message.id()).ok().expect(rt, "memory");
    }
    ids
}

/// Live entries of the queues, one after the other, each with the messages of `VALUES`.
fn valued_entries(rt: &impl Abort, alloc: Global) -> Items<Kept> {
    let mut live = Vec::new(alloc);
    for queue in ["l", "q", "s", "r"] {
        for (id, value) in VALUES {
            let name = Bytes::of(alloc, queue.as_bytes()).ok().expect(rt, "memory");
            let kept = Kept {
                queue: name,
                message: valued(rt, alloc, *id, value),
                at: 29,
                body_at: 100 + *id,
            };
            live.push(kept).ok().expect(rt, "memory");
        }
    }
    Items::from_vec(live)
}

/// The ids of the entries that stay in each queue, and of those that give way: on a last-value queue the last entry of each
/// key stays, and each without a key.
const STAYING: &[(&[u64], &[u64])] = &[
    (&[1, 2, 3, 4, 5, 6], &[]),
    (&[1, 2, 3, 4, 5, 6], &[]),
    (&[1, 2, 3, 4, 5, 6], &[]),
    (&[2, 3, 5, 6], &[1, 4]),
];

#[test]
fn entries_that_stay(rt: HostRuntime) {
    let alloc = rt.alloc();
    let defs = definitions(&rt, alloc);
    let live = valued_entries(&rt, alloc);
    let resumed = open_live(alloc, &defs, live).ok().expect(&rt, "memory");
    for (queue, (stay, way)) in STAYING.iter().enumerate() {
        assert_eq!(rt; ids(&rt, alloc, &resumed.left, queue).as_slice(), *stay);
        assert_eq!(rt; gone(&rt, alloc, &resumed.outdated, queue).as_slice(), *way);
    }
}

/// The list and the key of the first entry of a queue; no bytes where it has no key.
fn first_slip(
    rt: &impl Abort,
    alloc: Global,
    left: &[Vec<RestEntry<Parcel>>],
    queue: usize,
) -> (u32, Vec<u8>) {
    let entries = left.get(queue).expect(rt, "a queue");
    let slip = &entries.first().expect(rt, "an entry").slip;
    let key = match &slip.key {
        Some(key) => Vec::from_slice(alloc, key.as_slice())
            .ok()
            .expect(rt, "memory"),
        None => Vec::new(alloc),
    };
    (slip.list, key)
}

/// A queue's slips are by its own definition: the priority 1 is in the lowest but one of ten lists, and the sorted queue goes
/// by the header.
#[test]
fn slips_of_the_queue(rt: HostRuntime) {
    let alloc = rt.alloc();
    let defs = definitions(&rt, alloc);
    let live = valued_entries(&rt, alloc);
    let resumed = open_live(alloc, &defs, live).ok().expect(&rt, "memory");
    let (list, key) = first_slip(&rt, alloc, &resumed.left, 1);
    assert_eq!(rt; (list, key.len()), (1, 0));
    let (list, key) = first_slip(&rt, alloc, &resumed.left, 2);
    assert_eq!(rt; list, 0);
    assert_eq!(rt; key.as_slice(), b"x".as_slice());
}

/// Makes the calls that may want memory, with ample memory.
#[test]
fn ample(rt: HostRuntime) {
    let alloc = rt.alloc();
    let defs = definitions(&rt, alloc);
    let live = many(&rt, alloc, 2);
    assert_eq!(rt; fault(&rt, alloc, &defs, &live, &[R_1, REST, Q_1]), None);
    let resumed = open_live(alloc, &defs, Items::from_vec(live))
        .ok()
        .expect(&rt, "memory");
    let entries = resumed.left.get(1).expect(&rt, "a queue");
    assert_eq!(rt; entries.len(), 2);
}
