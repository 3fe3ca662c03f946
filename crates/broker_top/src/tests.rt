//! Inputs, words and faults, and runs of one actor.
ghost use Rattle.std.specs.Prelude.{◌≡◌, IfOk, vec_len};

use crate::{INPUT_LIMIT, InputFault, Status, run_command, select_command};
use byte_lists::Bytes;
use disk_core::MemoryDisk;
use outside_io::{FreeGate, MemorySink, MemorySource};
use std::alloc::{AllocError, Global};
use std::process::Abort;
use std::sync::Wait;
use std::test::Fail;
use std::thread::Threads;
use target_core::{CONSUMERS, PlainTarget, Target};

const Q: &str =
    "{\"queues\":[{\"name\":\"q\",\"type\":\"standard\",\"consumers\":[{\"name\":\"c\",\"actor\":\"a\"}]}]}\n";

const PUT_7: &str = "{\"do\":\"put\",\"actor\":\"a\",\"queue\":\"q\",\"id\":7,\"body\":\"hi\"}\n";

const PUT_8: &str = "{\"do\":\"put\",\"actor\":\"a\",\"queue\":\"q\",\"id\":8,\"body\":\"\"}\n";

const BARE_7: &str = "{\"do\":\"put\",\"actor\":\"a\",\"queue\":\"q\",\"id\":7}\n";

const TAKE: &str = "{\"do\":\"take\",\"actor\":\"a\",\"consumer\":\"c\"}\n";

const ACK_7: &str = "{\"do\":\"ack\",\"actor\":\"a\",\"queue\":\"q\",\"id\":7}";

const RELEASE_7: &str = "{\"do\":\"release\",\"actor\":\"a\",\"queue\":\"q\",\"id\":7}\n";

const ACK: &str = "{\"do\":\"ack\",\"actor\":\"a\",\"queue\":\"q\"}\n";

const RELEASE: &str = "{\"do\":\"release\",\"actor\":\"a\",\"queue\":\"q\"}\n";

const REST: &str = "{\"do\":\"rest\"}\n";

// Texts one after the other, and what a run of them ends with.
const RUNS: &[(&[&str], Status, &str)] = &[
    (&[Q], Status::Done, "queue q 0 0\n"),
    (
        &[Q, PUT_7, TAKE, ACK_7],
        Status::Done,
        "a 2 ok 7\na 3 got 7 1\na 4 acked 7\nqueue q 0 0\n",
    ),
    (
        &[Q, PUT_7, TAKE, TAKE],
        Status::Done,
        "a 2 ok 7\na 3 got 7 1\na 4 empty\nqueue q 1 18\nentry 7 held a\n",
    ),
    (
        &[Q, BARE_7, TAKE, RELEASE_7, TAKE],
        Status::Done,
        "a 2 ok 7\na 3 got 7 1\na 4 released 7\na 5 got 7 2\nqueue q 1 16\nentry 7 held a\n",
    ),
    // A message that comes back is delivered a second time.
    (
        &[
            "{\"queues\":[{\"name\":\"orders\",\"consumers\":[{\"name\":\"worker\",\"actor\":\"ann\"}]}]}\n",
            "\n",
            "{\"do\":\"put\",\"actor\":\"ann\",\"queue\":\"orders\",\"id\":1,\"priority\":7,\"headers\":{\"kind\":\"book\",\"count\":2},\"body\":\"first\"}\n",
            "{\"do\":\"put\",\"actor\":\"ann\",\"queue\":\"orders\",\"id\":2,\"body\":\"second\"}\n",
            "{\"do\":\"take\",\"actor\":\"ann\",\"consumer\":\"worker\"}\n",
            "{\"do\":\"take\",\"actor\":\"ann\",\"consumer\":\"worker\"}\n",
            "{\"do\":\"release\",\"actor\":\"ann\",\"queue\":\"orders\",\"id\":1}\n",
            "{\"do\":\"ack\",\"actor\":\"ann\",\"queue\":\"orders\"}\n",
            "{\"do\":\"take\",\"actor\":\"ann\",\"consumer\":\"worker\"}\n",
        ],
        Status::Done,
        "ann 3 ok 1\nann 4 ok 2\nann 5 got 1 1\nann 6 got 2 1\nann 7 released 1\nann 8 acked 2\nann 9 got 1 2\nqueue orders 1 50\nentry 1 held ann\n",
    ),
    // Without an id the last message is meant that is held.
    (
        &[Q, PUT_7, PUT_8, TAKE, TAKE, RELEASE, ACK, ACK, TAKE],
        Status::Done,
        "a 2 ok 7\na 3 ok 8\na 4 got 7 1\na 5 got 8 1\na 6 released 8\na 7 acked 7\na 8 not-held\na 9 got 8 2\nqueue q 1 16\nentry 8 held a\n",
    ),
    (
        &[Q, PUT_7, ACK_7],
        Status::Done,
        "a 2 ok 7\na 3 not-held\nqueue q 1 18\nentry 7\n",
    ),
    // Blank lines are counted.
    (
        &["\n", " \t\r\n", Q, "\n", TAKE, " "],
        Status::Done,
        "a 5 empty\nqueue q 0 0\n",
    ),
    // Limits are not looked at under the policy NONE, and consumers of other actors may be defined.
    (
        &[
            "{\"queues\":[{\"name\":\"q\",\"maximumQueueDepthMessages\":1,\"consumers\":[{\"name\":\"d\",\"actor\":\"b\"}]}]}\n",
            PUT_7,
            PUT_8,
        ],
        Status::Done,
        "a 2 ok 7\na 3 ok 8\nqueue q 2 34\nentry 7\nentry 8\n",
    ),
    (&[], Status::InputRefused, "fault: line 1: NotJson\n"),
    (&["\n\n"], Status::InputRefused, "fault: line 1: NotJson\n"),
    (
        &["\n{}"],
        Status::InputRefused,
        "fault: line 2: MissingField\n",
    ),
    (
        &[Q, "{\"do\":\"take\",\"actor\":\"b\",\"consumer\":\"c\"}"],
        Status::InputRefused,
        "fault: line 2: UnknownConsumer\n",
    ),
    (
        &[Q, PUT_7, PUT_7],
        Status::InputRefused,
        "fault: line 3: DoubleId\n",
    ),
    (
        &[
            Q,
            "{\"do\":\"put\",\"actor\":\"a\",\"queue\":\"q\",\"id\":7,\"headers\":{\"price\":1.5}}",
        ],
        Status::InputRefused,
        "fault: line 2: FloatNumber\n",
    ),
    (
        &[
            Q,
            "{\"do\":\"put\",\"actor\":\"a\",\"queue\":\"q\",\"id\":7,\"persistent\":true}",
        ],
        Status::InputRefused,
        "fault: line 2: NoJournal\n",
    ),
    // What isn't built is told of last.
    (
        &[
            "\n{\"queues\":[{\"name\":\"q\",\"overflowPolicy\":\"FLOW_TO_DISK\"}]}\n",
            BARE_7,
        ],
        Status::InputRefused,
        "fault: line 2: NotBuilt\n",
    ),
    (
        &[
            "{\"queues\":[{\"name\":\"q\",\"overflowPolicy\":\"FLOW_TO_DISK\"}]}\n",
            BARE_7,
            "[]",
        ],
        Status::InputRefused,
        "fault: line 3: BadValue\n",
    ),
    (
        &[
            "{\"queues\":[{\"name\":\"p\",\"overflowPolicy\":\"RING\"},{\"name\":\"q\",\"overflowPolicy\":\"FLOW_TO_DISK\"}]}\n",
        ],
        Status::InputRefused,
        "fault: line 1: NotBuilt\n",
    ),
    (
        &[
            "\n{\"queues\":[{\"name\":\"q\",\"consumers\":[{\"name\":\"c\",\"actor\":\"a\",\"selector\":\"a = 1.5\"}]}]}\n",
            TAKE,
        ],
        Status::InputRefused,
        "fault: line 2: BadSelector at 4: FloatLiteral\n",
    ),
    // The first line that isn't built, whoever's it is and whatever phase it stands in.
    (
        &[
            Q,
            TAKE,
            ACK,
            REST,
            "{\"do\":\"ack\",\"actor\":\"b\",\"queue\":\"q\"}\n",
            "{\"do\":\"begin\",\"actor\":\"a\"}\n",
            "{\"do\":\"begin\",\"actor\":\"b\"}\n",
        ],
        Status::InputRefused,
        "fault: line 6: NotBuilt\n",
    ),
    (
        &[
            Q,
            TAKE,
            "{\"do\":\"rollback\",\"actor\":\"b\"}\n",
            "{\"do\":\"begin\",\"actor\":\"a\"}\n",
        ],
        Status::InputRefused,
        "fault: line 3: NotBuilt\n",
    ),
];

// The texts one after the other.
fn joined(alloc: Global, parts: &[&str]) -> Result<Vec<u8>, AllocError> {
    let mut bytes = Vec::new(alloc);
    for part in parts {
        bytes.extend_from_slice(part.as_bytes())?;
    }
    Ok(bytes)
}

// So many times the byte.
fn filled(alloc: Global, byte: u8, count: usize) -> Result<Vec<u8>, AllocError> {
    vec![in alloc; byte; count]
}

// The definitions, and puts of so many ids.
fn puts(alloc: Global, count: u64) -> Result<Vec<u8>, AllocError> {
    let mut bytes = joined(alloc, &[Q])?;
    for id in 0..count {
        let line = format!(in alloc;
            "{{\"do\":\"put\",\"actor\":\"a\",\"queue\":\"q\",\"id\":{id}}}\n"
        )?;
        bytes.extend_from_slice(line.as_bytes())?;
    }
    Ok(bytes)
}

// The definitions, and a put whose body has so many bytes.
fn put_of(alloc: Global, count: usize) -> Result<Vec<u8>, AllocError> {
    let mut bytes = joined(
        alloc,
        &[
            Q,
            "{\"do\":\"put\",\"actor\":\"a\",\"queue\":\"q\",\"id\":7,\"body\":\"",
        ],
    )?;
    let body = filled(alloc, b'x', count)?;
    bytes.extend_from_slice(&body)?;
    bytes.extend_from_slice(b"\"}\n")?;
    Ok(bytes)
}

// A target for each consumer.
fn targets(alloc: Global) -> Result<Vec<Box<dyn Target>>, AllocError>
    ensures { IfOk result (λ targets. vec_len targets ≡ 64) }
{
    let mut targets: Vec<Box<dyn Target>> = Vec::new(alloc);
    for _consumer in 0..CONSUMERS {
        targets.push(Box::new(alloc, PlainTarget::make(alloc, None))?)?;
    }
    Ok(targets)
}

// The call of a test.
#[derive(Clone, Copy)]
pub(crate) enum Call {
    Run,
    Select,
}

// Calls with the words over the input, with calls that fail and room for the output; compares the end.
pub(crate) fn check<R: Abort + AllocGlobal + Threads + Wait + Clone + Send + Sync + Drop>(
    rt: &R,
    call: Call,
    words: &[&str],
    input: Vec<u8>,
    failing: (&[u64], &[u64]),
    room: u64,
    want: (Status, &str),
) -> Result<(), Fail> {
    let alloc = rt.alloc();
    let mut given = Vec::new(alloc);
    for word in words {
        given.push(String::from_str(alloc, word)?)?;
    }
    let reads = failing.0.to_vec(alloc)?;
    let writes = failing.1.to_vec(alloc)?;
    let mut source = MemorySource::of(Bytes::from_vec(input), reads);
    let mut sink = MemorySink::of(alloc, room, writes)?;
    let status = match call {
        Call::Run => {
            let targets = targets(alloc)?;
            let disk = MemoryDisk::of(alloc, Bytes::of(alloc, b"")?, 16, 17, Vec::new(alloc))?;
            let ended = run_command(
                rt,
                alloc,
                &given,
                &mut source,
                &mut sink,
                disk,
                &FreeGate,
                targets,
            );
            ended.0
        }
        Call::Select => select_command(alloc, &given, &mut source, &mut sink),
    };
    assert_eq!(rt; status, want.0);
    assert_eq!(rt; sink.bytes(), want.1.as_bytes());
    Ok(())
}

#[test]
fn runs_and_their_texts(rt: HostRuntime) -> Result<(), Fail> {
    for &(parts, status, text) in RUNS {
        let input = joined(rt.alloc(), parts)?;
        let want = (status, text);
        check(&rt, Call::Run, &["run"], input, (&[], &[]), 1000, want)?;
    }
    Ok(())
}

// A selector, messages one after the other, and what the selection ends with.
const SELECTIONS: &[(&str, &[&str], Status, &str)] = &[
    (
        "a = 1 OR b = 2",
        &[
            "{\"id\":1,\"headers\":{\"a\":1}}\n",
            "{\"id\":2,\"headers\":{\"a\":2}}\n",
        ],
        Status::Done,
        "true\nunknown\n",
    ),
    (
        "region = 'north' AND weight < 20",
        &[
            "{\"id\":1,\"headers\":{\"region\":\"north\",\"weight\":12}}\n",
            "{\"id\":2,\"headers\":{\"region\":\"south\",\"weight\":3}}\n",
            "{\"id\":3,\"headers\":{\"region\":\"north\"}}\n",
            "\n",
            "{\"id\":4,\"priority\":9,\"headers\":{\"region\":\"north\",\"weight\":40}}\n",
        ],
        Status::Done,
        "true\nfalse\nunknown\nfalse\n",
    ),
    (
        "x LIKE 'a!_%' ESCAPE '!'",
        &[
            "{\"id\":1,\"headers\":{\"x\":\"a_b\"}}\n",
            "{\"id\":2,\"headers\":{\"x\":\"axb\"}}",
        ],
        Status::Done,
        "true\nfalse\n",
    ),
    (
        "NOT (a > 1 AND b IS NULL)",
        &[
            "{\"id\":1,\"headers\":{\"a\":2}}\n",
            "{\"id\":2}\n",
            "{\"id\":3,\"headers\":{\"a\":2,\"b\":0}}\n",
        ],
        Status::Done,
        "false\nunknown\ntrue\n",
    ),
    (
        "9223372036854775807 + 1 > 0",
        &["{\"id\":1}"],
        Status::Done,
        "unknown\n",
    ),
    // Each word that is a text may be a selector.
    ("help", &["{\"id\":1}"], Status::Done, "unknown\n"),
    // Blank lines are counted and passed over.
    (
        "TRUE",
        &["\n", " \t\r\n", "{\"id\":1}\n", "\n", "{\"id\":1}\n", " "],
        Status::Done,
        "true\ntrue\n",
    ),
    ("TRUE", &[], Status::Done, ""),
    (
        "TRUE",
        &[
            "\n",
            "\n",
            "{\"id\":1}\n",
            "{\"id\":2,\"queue\":\"q\"}\n",
            "[]",
        ],
        Status::InputRefused,
        "fault: line 4: UnknownField\n",
    ),
    (
        "TRUE",
        &["{\"id\":1}\n", "{\"id\":2,\"headers\":{\"a\":1.5}}\n"],
        Status::InputRefused,
        "fault: line 2: FloatNumber\n",
    ),
    // The selector is tested before the lines.
    (
        "a = 1.5",
        &["[]"],
        Status::InputRefused,
        "fault: selector at 4: FloatLiteral\n",
    ),
    (
        "a > -9223372036854775808",
        &[],
        Status::InputRefused,
        "fault: selector at 5: IntRange\n",
    ),
    (
        "NOT",
        &[],
        Status::InputRefused,
        "fault: selector at 3: Unexpected\n",
    ),
];

#[test]
fn selections_and_their_texts(rt: HostRuntime) -> Result<(), Fail> {
    for &(selector, parts, status, text) in SELECTIONS {
        for call in [Call::Run, Call::Select] {
            let input = joined(rt.alloc(), parts)?;
            let words = ["select", selector];
            let want = (status, text);
            check(&rt, call, &words, input, (&[], &[]), 1000, want)?;
        }
    }
    Ok(())
}

// A call and its words; reads and writes that fail; room for the output; and what the call ends with.
const FAULTS: &[(Call, &[&str], &[u64], &[u64], u64, Status, &str)] = &[
    (
        Call::Run,
        &["run", "a", "b"],
        &[],
        &[],
        1000,
        Status::WordsRefused,
        "fault: words\n",
    ),
    (
        Call::Run,
        &[],
        &[],
        &[],
        1000,
        Status::WordsRefused,
        "fault: words\n",
    ),
    (
        Call::Run,
        &["Run"],
        &[],
        &[],
        1000,
        Status::WordsRefused,
        "fault: words\n",
    ),
    (
        Call::Run,
        &["init", "a"],
        &[0],
        &[],
        1000,
        Status::Done,
        "created\n",
    ),
    (
        Call::Run,
        &["recover", "a"],
        &[0],
        &[],
        1000,
        Status::JournalRefused,
        "fault: journal at 0\n",
    ),
    (
        Call::Run,
        &["run", ""],
        &[],
        &[],
        1000,
        Status::WordsRefused,
        "fault: words\n",
    ),
    (
        Call::Run,
        &["run"],
        &[0],
        &[],
        1000,
        Status::ReadFault,
        "fault: read\n",
    ),
    (
        Call::Run,
        &["run"],
        &[1],
        &[],
        1000,
        Status::ReadFault,
        "fault: read\n",
    ),
    (Call::Run, &["run"], &[], &[0], 1000, Status::WriteFault, ""),
    (
        Call::Run,
        &["run"],
        &[],
        &[],
        10,
        Status::WriteFault,
        "a 2 ok 7\na",
    ),
    (Call::Run, &["no"], &[], &[0], 1000, Status::WriteFault, ""),
    (
        Call::Run,
        &["select"],
        &[],
        &[],
        1000,
        Status::WordsRefused,
        "fault: words\n",
    ),
    (
        Call::Run,
        &["select", ""],
        &[],
        &[],
        1000,
        Status::WordsRefused,
        "fault: words\n",
    ),
    (
        Call::Run,
        &["select", "-1 < a"],
        &[],
        &[],
        1000,
        Status::WordsRefused,
        "fault: words\n",
    ),
    (
        Call::Run,
        &["sel", "TRUE"],
        &[],
        &[],
        1000,
        Status::WordsRefused,
        "fault: words\n",
    ),
    (
        Call::Select,
        &["select", "TRUE", "b"],
        &[],
        &[],
        1000,
        Status::WordsRefused,
        "fault: words\n",
    ),
    (
        Call::Select,
        &["run"],
        &[],
        &[],
        1000,
        Status::WordsRefused,
        "fault: words\n",
    ),
    (
        Call::Select,
        &["select", "TRUE"],
        &[0],
        &[],
        1000,
        Status::ReadFault,
        "fault: read\n",
    ),
    // A selector that is refused is told of though the source would fail.
    (
        Call::Select,
        &["select", "NOT"],
        &[0],
        &[],
        1000,
        Status::InputRefused,
        "fault: selector at 3: Unexpected\n",
    ),
    (
        Call::Select,
        &["select", "NOT"],
        &[],
        &[0],
        1000,
        Status::WriteFault,
        "",
    ),
    // The first line of the input is no message.
    (
        Call::Select,
        &["select", "TRUE"],
        &[],
        &[],
        10,
        Status::WriteFault,
        "fault: lin",
    ),
];

#[test]
fn refusals_and_faults(rt: HostRuntime) -> Result<(), Fail> {
    for &(call, words, reads, writes, room, status, text) in FAULTS {
        let input = joined(rt.alloc(), &[Q, PUT_7, TAKE, ACK_7])?;
        let want = (status, text);
        check(&rt, call, words, input, (reads, writes), room, want)?;
    }
    Ok(())
}

#[test]
fn greatest_inputs(rt: HostRuntime) -> Result<(), Fail> {
    let alloc = rt.alloc();

    // The greatest input, and one byte more.
    let input = filled(alloc, b'x', INPUT_LIMIT)?;
    let want = (Status::InputRefused, "fault: line 1: LineTooLong\n");
    check(&rt, Call::Run, &["run"], input, (&[], &[]), 1000, want)?;
    let input = filled(alloc, b'x', INPUT_LIMIT + 1)?;
    let want = (Status::InputRefused, "fault: input too large\n");
    check(&rt, Call::Run, &["run"], input, (&[], &[]), 1000, want)?;

    // The longest line, and one byte more.
    let want = (Status::Done, "a 2 ok 7\nqueue q 1 1048539\nentry 7\n");
    check(
        &rt,
        Call::Run,
        &["run"],
        put_of(alloc, 1_048_523)?,
        (&[], &[]),
        1000,
        want,
    )?;
    let want = (Status::InputRefused, "fault: line 2: LineTooLong\n");
    check(
        &rt,
        Call::Run,
        &["run"],
        put_of(alloc, 1_048_524)?,
        (&[], &[]),
        1000,
        want,
    )?;

    // One put too many.
    let want = (Status::InputRefused, "fault: line 524290: TooManyEntries\n");
    check(
        &rt,
        Call::Run,
        &["run"],
        puts(alloc, 524_289)?,
        (&[], &[]),
        1000,
        want,
    )
}

#[test]
fn ample(rt: HostRuntime) -> Result<(), Fail> {
    let fault = InputFault::NotBuilt { line: 3 };
    assert_eq!(rt; fault.line(), 3);
    assert_eq!(rt; fault.cause(), "NotBuilt");
    assert_eq!(rt; Status::NoMemory.code(), 6);
    let input = joined(rt.alloc(), &[Q])?;
    let want = (Status::Done, "queue q 0 0\n");
    check(&rt, Call::Run, &["run"], input, (&[], &[]), 100, want)?;
    let input = joined(rt.alloc(), &["{\"id\":1}"])?;
    let want = (Status::Done, "true\n");
    check(
        &rt,
        Call::Select,
        &["select", "1 = 1"],
        input,
        (&[], &[]),
        100,
        want,
    )
}
