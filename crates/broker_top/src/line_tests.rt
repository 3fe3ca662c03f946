//! Each line of a script with each answer that one actor can get over one queue, and four actors over two queues.
ghost use Rattle.std.specs.Prelude.{◌≤◌};

use crate::phase_tests::{TURNS, check, targets};
use outside_io::{FreeGate, LineGate};
use std::process::Abort;
use std::sync::Wait;
use std::test::Fail;
use std::thread::Threads;
use target_core::CONSUMERS;

// A script of one actor, and what is written of it.
struct Case {
    lines: &'static [&'static str],
    text: &'static str,
}

const Q: &str =
    "{\"queues\":[{\"name\":\"q\",\"consumers\":[{\"name\":\"c\",\"actor\":\"a\"}]}]}\n";

const PUT: &str = "{\"do\":\"put\",\"actor\":\"a\",\"queue\":\"q\",\"id\":7}\n";

const TAKE: &str = "{\"do\":\"take\",\"actor\":\"a\",\"consumer\":\"c\"}\n";

const CLOSE: &str = "{\"do\":\"close\",\"actor\":\"a\",\"consumer\":\"c\"}\n";

const ACK: &str = "{\"do\":\"ack\",\"actor\":\"a\",\"queue\":\"q\"}\n";

const ACK_7: &str = "{\"do\":\"ack\",\"actor\":\"a\",\"queue\":\"q\",\"id\":7}\n";

const RELEASE: &str = "{\"do\":\"release\",\"actor\":\"a\",\"queue\":\"q\"}\n";

const RELEASE_7: &str = "{\"do\":\"release\",\"actor\":\"a\",\"queue\":\"q\",\"id\":7}\n";

const LOCK: &str = "{\"do\":\"lock\",\"actor\":\"a\",\"queue\":\"q\"}\n";

const LOCK_7: &str = "{\"do\":\"lock\",\"actor\":\"a\",\"queue\":\"q\",\"id\":7}\n";

const UNLOCK: &str = "{\"do\":\"unlock\",\"actor\":\"a\",\"queue\":\"q\"}\n";

const UNLOCK_7: &str = "{\"do\":\"unlock\",\"actor\":\"a\",\"queue\":\"q\",\"id\":7}\n";

const STEAL_7: &str = "{\"do\":\"steal\",\"actor\":\"a\",\"queue\":\"q\",\"id\":7}\n";

// Of a consumer whose target takes one delivery.
const TAKES: Case = Case {
    lines: &[Q, TAKE, PUT, TAKE, TAKE, CLOSE, TAKE, CLOSE],
    text: "a 2 empty\na 3 ok 7\na 4 got 7 1\na 5 no-credit\na 6 closed\na 7 closed\na 8 closed\n\
           queue q 1 16\nentry 7 held a\n",
};

const ACKS: Case = Case {
    lines: &[Q, ACK, PUT, ACK_7, TAKE, ACK_7, ACK_7, ACK],
    text: "a 2 not-held\na 3 ok 7\na 4 not-held\na 5 got 7 1\na 6 acked 7\na 7 not-held\na 8 not-held\n\
           queue q 0 0\n",
};

const RELEASES: Case = Case {
    lines: &[Q, RELEASE, PUT, TAKE, RELEASE, RELEASE_7, TAKE, RELEASE_7],
    text: "a 2 not-held\na 3 ok 7\na 4 got 7 1\na 5 released 7\na 6 not-held\na 7 got 7 2\na 8 released 7\n\
           queue q 1 16\nentry 7\n",
};

const LOCKS: Case = Case {
    lines: &[
        Q, UNLOCK, LOCK, PUT, TAKE, LOCK_7, UNLOCK, UNLOCK_7, LOCK, LOCK_7, UNLOCK_7,
    ],
    text: "a 2 not-held\na 3 not-held\na 4 ok 7\na 5 got 7 1\na 6 not-held\na 7 unlocked 7\na 8 not-held\n\
           a 9 locked 7\na 10 not-held\na 11 unlocked 7\nqueue q 1 16\nentry 7 held a\n",
};

// An entry that was left unlocked is locked first where it is released or acknowledged.
const UNLOCKED: Case = Case {
    lines: &[Q, PUT, TAKE, UNLOCK, RELEASE, TAKE, UNLOCK, ACK],
    text: "a 2 ok 7\na 3 got 7 1\na 4 unlocked 7\na 5 released 7\na 6 got 7 2\na 7 unlocked 7\na 8 acked 7\n\
           queue q 0 0\n",
};

const STEALS: Case = Case {
    lines: &[
        Q, STEAL_7, PUT, STEAL_7, TAKE, STEAL_7, UNLOCK, STEAL_7, ACK, STEAL_7,
    ],
    text: "a 2 absent\na 3 ok 7\na 4 not-stealable available\na 5 got 7 1\na 6 not-stealable locked a\n\
           a 7 unlocked 7\na 8 stole 7\na 9 acked 7\na 10 absent\nqueue q 0 0\n",
};

// Runs the script, of whose consumers so many are closed.
fn run<R: Abort + AllocGlobal + Threads + Wait + Clone + Send + Sync + Drop>(
    rt: &R,
    case: &Case,
    limit: Option<u64>,
    closed: usize,
) -> Result<(), Fail>
    requires { closed ≤ CONSUMERS }
{
    let targets = targets(rt.alloc(), limit)?;
    check(
        rt,
        &FreeGate,
        case.lines,
        targets,
        case.text,
        CONSUMERS - closed,
    )
}

#[test]
fn takes(rt: HostRuntime) -> Result<(), Fail> {
    run(&rt, &TAKES, Some(1), 1)
}

#[test]
fn acks(rt: HostRuntime) -> Result<(), Fail> {
    run(&rt, &ACKS, None, 0)
}

#[test]
fn releases(rt: HostRuntime) -> Result<(), Fail> {
    run(&rt, &RELEASES, None, 0)
}

#[test]
fn locks(rt: HostRuntime) -> Result<(), Fail> {
    run(&rt, &LOCKS, None, 0)
}

#[test]
fn unlocked_entries(rt: HostRuntime) -> Result<(), Fail> {
    run(&rt, &UNLOCKED, None, 0)
}

#[test]
fn steals(rt: HostRuntime) -> Result<(), Fail> {
    run(&rt, &STEALS, None, 0)
}

// The lines of four actors, in order.
const FOUR_ACTORS: Case = Case {
    lines: &[
        "{\"queues\":[{\"name\":\"p\",\"consumers\":[{\"name\":\"x\",\"actor\":\"b\"},{\"name\":\"y\",\"actor\":\"c\"}]},",
        "{\"name\":\"r\",\"consumers\":[{\"name\":\"z\",\"actor\":\"d\"},{\"name\":\"w\",\"actor\":\"b\"}]}]}\n",
        "{\"do\":\"put\",\"actor\":\"a\",\"queue\":\"p\",\"id\":1}\n",
        "{\"do\":\"put\",\"actor\":\"c\",\"queue\":\"r\",\"id\":1}\n",
        "{\"do\":\"put\",\"actor\":\"a\",\"queue\":\"r\",\"id\":2}\n",
        "{\"do\":\"take\",\"actor\":\"b\",\"consumer\":\"x\"}\n",
        "{\"do\":\"take\",\"actor\":\"d\",\"consumer\":\"z\"}\n",
        "{\"do\":\"take\",\"actor\":\"c\",\"consumer\":\"y\"}\n",
        "{\"do\":\"unlock\",\"actor\":\"b\",\"queue\":\"p\"}\n",
        "{\"do\":\"steal\",\"actor\":\"c\",\"queue\":\"p\",\"id\":1}\n",
        "{\"do\":\"ack\",\"actor\":\"b\",\"queue\":\"p\",\"id\":1}\n",
        "{\"do\":\"ack\",\"actor\":\"c\",\"queue\":\"p\"}\n",
        "{\"do\":\"release\",\"actor\":\"d\",\"queue\":\"r\",\"id\":1}\n",
        "{\"do\":\"take\",\"actor\":\"b\",\"consumer\":\"w\"}\n",
        "{\"do\":\"take\",\"actor\":\"d\",\"consumer\":\"z\"}\n",
        "{\"do\":\"ack\",\"actor\":\"b\",\"queue\":\"r\"}\n",
        "{\"do\":\"steal\",\"actor\":\"a\",\"queue\":\"r\",\"id\":2}\n",
        "{\"do\":\"ack\",\"actor\":\"c\",\"queue\":\"r\"}\n",
        "{\"do\":\"take\",\"actor\":\"d\",\"consumer\":\"z\"}\n",
    ],
    text: "a 2 ok 1\na 4 ok 2\na 16 not-stealable locked d\nc 3 ok 1\nc 7 empty\nc 9 stole 1\n\
           c 11 acked 1\nc 17 not-held\nb 5 got 1 1\nb 8 unlocked 1\nb 10 stolen locked c\n\
           b 13 got 1 2\nb 15 acked 1\nd 6 got 1 1\nd 12 released 1\nd 14 got 2 1\nd 18 empty\n\
           queue p 0 0\nqueue r 1 16\nentry 2 held d\n",
};

#[test]
fn four_actors_over_two_queues(rt: HostRuntime) -> Result<(), Fail> {
    let gate = LineGate::make(2, TURNS);
    let Case { lines, text } = FOUR_ACTORS;
    let targets = targets(rt.alloc(), None)?;
    check(&rt, &gate, lines, targets, text, CONSUMERS)?;
    assert!(rt; !gate.late());
    Ok(())
}
