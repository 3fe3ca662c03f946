//! Runs of several queues, actors and phases.
ghost use Rattle.std.specs.Prelude.{◌≡◌, ◌<◌, ◌≤◌, IfOk, vec_len};

use crate::{Status, run_command};
use byte_lists::Bytes;
use disk_core::MemoryDisk;
use outside_io::{FreeGate, Gate, LineGate, MemorySink, MemorySource};
use std::alloc::Global;
use std::process::Abort;
use std::sync::Wait;
use std::test::Fail;
use std::thread::Threads;
use target_core::{CONSUMERS, MeetTarget, PlainTarget, Target};

// How often a line looks whether it is its turn.
pub(crate) const TURNS: u64 = 10_000_000;

// A script whose lines come in order, and what is written of it.
const SCRIPTS: &[(&[&str], &str)] = &[
    // A consumer goes back to an entry that came back.
    (
        &[
            "{\"queues\":[{\"name\":\"q\",\"type\":\"standard\",\"consumers\":[",
            "{\"name\":\"c\",\"actor\":\"a\"},{\"name\":\"d\",\"actor\":\"b\"}]}]}\n",
            "{\"do\":\"put\",\"actor\":\"a\",\"queue\":\"q\",\"id\":1}\n",
            "{\"do\":\"put\",\"actor\":\"a\",\"queue\":\"q\",\"id\":2}\n",
            "{\"do\":\"put\",\"actor\":\"a\",\"queue\":\"q\",\"id\":3}\n",
            "{\"do\":\"put\",\"actor\":\"a\",\"queue\":\"q\",\"id\":4}\n",
            "{\"do\":\"take\",\"actor\":\"a\",\"consumer\":\"c\"}\n",
            "{\"do\":\"take\",\"actor\":\"a\",\"consumer\":\"c\"}\n",
            "{\"do\":\"take\",\"actor\":\"b\",\"consumer\":\"d\"}\n",
            "{\"do\":\"release\",\"actor\":\"a\",\"queue\":\"q\",\"id\":2}\n",
            "{\"do\":\"take\",\"actor\":\"b\",\"consumer\":\"d\"}\n",
            "{\"do\":\"take\",\"actor\":\"b\",\"consumer\":\"d\"}\n",
        ],
        "a 2 ok 1\na 3 ok 2\na 4 ok 3\na 5 ok 4\na 6 got 1 1\na 7 got 2 1\na 9 released 2\n\
         b 8 got 3 1\nb 10 got 2 2\nb 11 got 4 1\n\
         queue q 4 64\nentry 1 held a\nentry 2 held b\nentry 3 held b\nentry 4 held b\n",
    ),
    // A selector passes over what it doesn't want.
    (
        &[
            "{\"queues\":[{\"name\":\"q\",\"type\":\"standard\",\"consumers\":[",
            "{\"name\":\"c\",\"actor\":\"a\",\"selector\":\"price > 10\"}]}]}\n",
            "{\"do\":\"put\",\"actor\":\"a\",\"queue\":\"q\",\"id\":1,\"headers\":{\"price\":10}}\n",
            "{\"do\":\"put\",\"actor\":\"a\",\"queue\":\"q\",\"id\":2,\"headers\":{\"price\":11}}\n",
            "{\"do\":\"put\",\"actor\":\"a\",\"queue\":\"q\",\"id\":3}\n",
            "{\"do\":\"take\",\"actor\":\"a\",\"consumer\":\"c\"}\n",
            "{\"do\":\"take\",\"actor\":\"a\",\"consumer\":\"c\"}\n",
        ],
        "a 2 ok 1\na 3 ok 2\na 4 ok 3\na 5 got 2 1\na 6 empty\n\
         queue q 3 78\nentry 1\nentry 2 held a\nentry 3\n",
    ),
    // The higher priorities first.
    (
        &[
            "{\"queues\":[{\"name\":\"q\",\"type\":\"priority\",\"priorities\":3,",
            "\"consumers\":[{\"name\":\"c\",\"actor\":\"a\"}]}]}\n",
            "{\"do\":\"put\",\"actor\":\"a\",\"queue\":\"q\",\"id\":1,\"priority\":0}\n",
            "{\"do\":\"put\",\"actor\":\"a\",\"queue\":\"q\",\"id\":2,\"priority\":4}\n",
            "{\"do\":\"put\",\"actor\":\"a\",\"queue\":\"q\",\"id\":3,\"priority\":9}\n",
            "{\"do\":\"take\",\"actor\":\"a\",\"consumer\":\"c\"}\n",
            "{\"do\":\"take\",\"actor\":\"a\",\"consumer\":\"c\"}\n",
            "{\"do\":\"take\",\"actor\":\"a\",\"consumer\":\"c\"}\n",
        ],
        "a 2 ok 1\na 3 ok 2\na 4 ok 3\na 5 got 3 1\na 6 got 2 1\na 7 got 1 1\n\
         queue q 3 48\nentry 3 held a\nentry 2 held a\nentry 1 held a\n",
    ),
    // An entry that its holder left is stolen.
    (
        &[
            Q,
            PUT_7,
            TAKE,
            "{\"do\":\"unlock\",\"actor\":\"a\",\"queue\":\"q\",\"id\":7}\n",
            "{\"do\":\"steal\",\"actor\":\"adm\",\"queue\":\"q\",\"id\":7}\n",
            "{\"do\":\"ack\",\"actor\":\"a\",\"queue\":\"q\",\"id\":7}\n",
            "{\"do\":\"ack\",\"actor\":\"adm\",\"queue\":\"q\",\"id\":7}\n",
        ],
        "a 2 ok 7\na 3 got 7 1\na 4 unlocked 7\na 6 stolen locked adm\n\
         adm 5 stole 7\nadm 7 acked 7\nqueue q 0 0\n",
    ),
    // Two queues: each line is on its own.
    (
        &[
            "{\"queues\":[{\"name\":\"p\",\"consumers\":[{\"name\":\"c\",\"actor\":\"a\"}]},",
            "{\"name\":\"r\",\"consumers\":[{\"name\":\"d\",\"actor\":\"a\"},{\"name\":\"e\",\"actor\":\"b\"}]}]}\n",
            "{\"do\":\"put\",\"actor\":\"b\",\"queue\":\"r\",\"id\":1}\n",
            "{\"do\":\"put\",\"actor\":\"b\",\"queue\":\"p\",\"id\":1,\"body\":\"x\"}\n",
            "{\"do\":\"take\",\"actor\":\"a\",\"consumer\":\"d\"}\n",
            "{\"do\":\"take\",\"actor\":\"b\",\"consumer\":\"e\"}\n",
            "{\"do\":\"take\",\"actor\":\"a\",\"consumer\":\"c\"}\n",
            "{\"do\":\"ack\",\"actor\":\"a\",\"queue\":\"p\"}\n",
        ],
        "b 2 ok 1\nb 3 ok 1\nb 5 empty\na 4 got 1 1\na 6 got 1 1\na 7 acked 1\n\
         queue p 0 0\nqueue r 1 16\nentry 1 held a\n",
    ),
];

const Q: &str =
    "{\"queues\":[{\"name\":\"q\",\"type\":\"standard\",\"consumers\":[{\"name\":\"c\",\"actor\":\"a\"}]}]}\n";

const PUT_7: &str = "{\"do\":\"put\",\"actor\":\"a\",\"queue\":\"q\",\"id\":7}\n";

const PUT_8: &str = "{\"do\":\"put\",\"actor\":\"a\",\"queue\":\"q\",\"id\":8}\n";

const TAKE: &str = "{\"do\":\"take\",\"actor\":\"a\",\"consumer\":\"c\"}\n";

const CLOSE: &str = "{\"do\":\"close\",\"actor\":\"a\",\"consumer\":\"c\"}\n";

const REST: &str = "{\"do\":\"rest\"}\n";

// A target for each consumer, of which consumer 0's takes so many deliveries at most.
pub(crate) fn targets(alloc: Global, limit: Option<u64>) -> Result<Vec<Box<dyn Target>>, Fail>
    ensures { IfOk result (λ targets. vec_len targets ≡ 64) }
{
    let mut targets: Vec<Box<dyn Target>> = Vec::new(alloc);
    targets.push(Box::new(alloc, PlainTarget::make(alloc, limit))?)?;
    for _consumer in 1..CONSUMERS {
        targets.push(Box::new(alloc, PlainTarget::make(alloc, None))?)?;
    }
    Ok(targets)
}

// Runs the texts one after the other; compares what is written and how many targets come back.
pub(crate) fn check<R: Abort + AllocGlobal + Threads + Wait + Clone + Send + Sync + Drop, G: Gate>(
    rt: &R,
    gate: &G,
    parts: &[&str],
    targets: Vec<Box<dyn Target>>,
    text: &str,
    back: usize,
) -> Result<(), Fail>
    requires { vec_len targets ≡ 64 }
{
    let alloc = rt.alloc();
    let mut words = Vec::new(alloc);
    words.push(String::from_str(alloc, "run")?)?;
    let mut input = Vec::new(alloc);
    for part in parts {
        input.extend_from_slice(part.as_bytes())?;
    }
    let mut source = MemorySource::of(Bytes::from_vec(input), Vec::new(alloc));
    let mut sink = MemorySink::of(alloc, 1000, Vec::new(alloc))?;
    let disk = MemoryDisk::of(alloc, Bytes::of(alloc, b"")?, 0, 0, Vec::new(alloc))?;
    let (status, _disk, left) = run_command(
        rt,
        alloc,
        &words,
        &mut source,
        &mut sink,
        disk,
        gate,
        targets,
    );
    assert_eq!(rt; sink.bytes(), text.as_bytes());
    assert_eq!(rt; status, Status::Done);
    assert_eq!(rt; left.len(), back);
    Ok(())
}

#[test]
fn lines_in_order(rt: HostRuntime) -> Result<(), Fail> {
    for &(parts, text) in SCRIPTS {
        let gate = LineGate::make(2, TURNS);
        check(
            &rt,
            &gate,
            parts,
            targets(rt.alloc(), None)?,
            text,
            CONSUMERS,
        )?;
        assert!(rt; !gate.late());
    }
    Ok(())
}

// A rest: each entry is free again, with the number of its deliveries.
#[test]
fn entries_are_carried_over_a_rest(rt: HostRuntime) -> Result<(), Fail> {
    check(
        &rt,
        &FreeGate,
        &[Q, PUT_7, TAKE, REST, TAKE],
        targets(rt.alloc(), None)?,
        "a 2 ok 7\na 3 got 7 1\nqueue q 1 16\nentry 7 held a\n\
         a 5 got 7 2\nqueue q 1 16\nentry 7 held a\n",
        CONSUMERS,
    )
}

// A target at its limit takes no more, and one that a line closed doesn't come back.
#[test]
fn credit_and_closed_consumers(rt: HostRuntime) -> Result<(), Fail> {
    check(
        &rt,
        &FreeGate,
        &[Q, PUT_7, PUT_8, TAKE, TAKE, CLOSE, TAKE, REST, TAKE],
        targets(rt.alloc(), Some(1))?,
        "a 2 ok 7\na 3 ok 8\na 4 got 7 1\na 5 no-credit\na 6 closed\na 7 closed\n\
         queue q 2 32\nentry 7 held a\nentry 8\n\
         a 9 closed\nqueue q 2 32\nentry 7\nentry 8\n",
        CONSUMERS - 1,
    )
}

// Two takes, each of which goes on when the other has begun.
#[test]
fn takes_beside_each_other(rt: HostRuntime) -> Result<(), Fail> {
    let alloc = rt.alloc();
    let (first, second, watch) = MeetTarget::pair(alloc, 1_000_000_000)?;
    let mut both: Vec<Box<dyn Target>> = Vec::new(alloc);
    both.push(Box::new(alloc, first)?)?;
    both.push(Box::new(alloc, second)?)?;
    for _consumer in 2..CONSUMERS {
        both.push(Box::new(alloc, PlainTarget::make(alloc, None))?)?;
    }
    check(
        &rt,
        &FreeGate,
        &[
            "{\"queues\":[{\"name\":\"q\",\"type\":\"standard\",\"consumers\":[",
            "{\"name\":\"c\",\"actor\":\"a\",\"selector\":\"JMSPriority = 1\"},",
            "{\"name\":\"d\",\"actor\":\"b\",\"selector\":\"JMSPriority = 2\"}]}]}\n",
            "{\"do\":\"put\",\"actor\":\"a\",\"queue\":\"q\",\"id\":1,\"priority\":1}\n",
            "{\"do\":\"put\",\"actor\":\"a\",\"queue\":\"q\",\"id\":2,\"priority\":2}\n",
            REST,
            "{\"do\":\"take\",\"actor\":\"a\",\"consumer\":\"c\"}\n",
            "{\"do\":\"take\",\"actor\":\"b\",\"consumer\":\"d\"}\n",
        ],
        both,
        "a 2 ok 1\na 3 ok 2\nqueue q 2 32\nentry 1\nentry 2\n\
         a 5 got 1 1\nb 6 got 2 1\nqueue q 2 32\nentry 1 held a\nentry 2 held b\n",
        CONSUMERS,
    )?;
    assert!(rt; !watch.late());
    Ok(())
}
