use super::*;
use byte_lists::Bytes;
use defs_read::{Defs, QueueDef, QueueKind};
use std::alloc::{AllocError, Global};
use std::process::Abort;
use std::test::Fail;

const REST: &str = "{\"do\":\"rest\"}\n";

const BEGIN_A: &str = "{\"do\":\"begin\",\"actor\":\"a\"}\n";

const BEGIN_B: &str = "{\"do\":\"begin\",\"actor\":\"b\"}\n";

/// Without a line feed.
const COMMIT_A: &str = "{\"do\":\"commit\",\"actor\":\"a\"}";

const PUT_7: &str = "{\"do\":\"put\",\"actor\":\"a\",\"queue\":\"q\",\"id\":7}\n";

const PUT_8: &str = "{\"do\":\"put\",\"actor\":\"a\",\"queue\":\"q\",\"id\":8}\n";

/// The id 7 to the queue `q` by another actor.
const PUT_7_B: &str = "{\"do\":\"put\",\"actor\":\"b\",\"queue\":\"q\",\"id\":7}\n";

/// The id 7 to another queue.
const PUT_7_R: &str = "{\"do\":\"put\",\"actor\":\"a\",\"queue\":\"r\",\"id\":7}\n";

/// The id 7 to the queue `q`, persistent.
const KEEP_7: &str =
    "{\"do\":\"put\",\"actor\":\"a\",\"queue\":\"q\",\"id\":7,\"persistent\":true}\n";

/// The parts of each script, whether the run has a journal, and the answer. Line 2 is the first.
const CASES: &[(&[&str], bool, &str)] = &[
    // The phases with each actor's lines.
    (&[], false, "[]"),
    (&["\n", " \t\r\n", " "], false, "[]"),
    (&[BEGIN_A, COMMIT_A], false, "[a 2 3]"),
    (
        &[
            BEGIN_A, BEGIN_B, "\n", BEGIN_A, REST, " \t\r\n", BEGIN_B, BEGIN_A, BEGIN_B,
        ],
        false,
        "[a 2 5, b 3][b 8 10, a 9]",
    ),
    (&[REST, BEGIN_A, REST], false, "[][a 3][]"),
    (&[COMMIT_A, "\r\n", BEGIN_A], false, "[a 2 3]"),
    // Only spaces, tabs and carriage returns are blank.
    (&[BEGIN_A, "\n", "\x0c\n"], false, "line 4: NotJson"),
    // Ids that are put twice.
    (&[PUT_7, PUT_7], false, "line 3: DoubleId"),
    (
        &[PUT_7, PUT_8, "\n", BEGIN_B, PUT_7_B],
        false,
        "line 6: DoubleId",
    ),
    (&[PUT_7, REST, PUT_7_B], false, "line 4: DoubleId"),
    (&[PUT_7_R, PUT_7, PUT_7_R], false, "line 4: DoubleId"),
    (&[PUT_7, PUT_7_R, PUT_8], false, "[a 2 3 4]"),
    // Persistent messages.
    (&[KEEP_7], false, "line 2: NoJournal"),
    (&[KEEP_7], true, "[a 2]"),
    (&[PUT_8, PUT_7], false, "[a 2 3]"),
    (&[PUT_7, KEEP_7], false, "line 3: NoJournal"),
    (&[PUT_7, KEEP_7], true, "line 3: DoubleId"),
    (&[KEEP_7, PUT_7], true, "line 3: DoubleId"),
    // The first line with a cause.
    (&[BEGIN_A, "x\n", PUT_7, PUT_7], false, "line 3: NotJson"),
    (&[PUT_7, "\n", PUT_7, "x\n"], false, "line 4: DoubleId"),
    (
        &[BEGIN_A, REST, "[]", "\n", KEEP_7],
        false,
        "line 4: BadValue",
    ),
    (
        &["{\"do\":\"begin\"}\n", KEEP_7],
        false,
        "line 2: MissingField",
    ),
];

// The texts one after the other.
fn joined(alloc: Global, parts: &[&str]) -> Result<Vec<u8>, AllocError> {
    let mut bytes = Vec::new(alloc);
    for part in parts {
        bytes.extend_from_slice(part.as_bytes())?;
    }
    Ok(bytes)
}

// Two standard queues without consumers, `q` and `r`.
fn two_queues(rt: &(impl Abort + AllocGlobal)) -> Result<Defs, Fail> {
    let alloc = rt.alloc();
    let mut queues = Vec::new(alloc);
    for name in [b"q", b"r"] {
        let name = Bytes::of(alloc, name)?;
        queues.push(QueueDef::bare(name, QueueKind::Standard, Vec::new(alloc)))?;
    }
    Ok(Defs { queues })
}

// The actors of a phase, each with the numbers of its lines.
fn show(phase: &Phase, alloc: Global, into: &mut Vec<u8>) -> Result<(), AllocError> {
    into.push(b'[')?;
    for (index, (name, ops)) in phase.actors.iter().enumerate() {
        if index > 0 {
            into.extend_from_slice(b", ")?;
        }
        into.extend_from_slice(name.as_slice())?;
        for op in ops {
            let number = format!(in alloc; " {}", op.line)?;
            into.extend_from_slice(number.as_bytes())?;
        }
    }
    into.push(b']')?;
    Ok(())
}

fn read(
    rt: &(impl Abort + AllocGlobal),
    text: &[u8],
    journal: bool,
) -> Result<Result<Script, ScriptFault>, Fail> {
    let defs = two_queues(rt)?;
    assert!(rt; defs.queues.len() <= 16);
    Ok(read_script(rt.alloc(), text, &defs, journal, 2))
}

// What the script is read as: its phases, or its fault.
fn answer(rt: &(impl Abort + AllocGlobal), text: &[u8], journal: bool) -> Result<Vec<u8>, Fail> {
    let alloc = rt.alloc();
    let mut shown = Vec::new(alloc);
    match read(rt, text, journal)? {
        Ok(script) => {
            for phase in &script.phases {
                show(phase, alloc, &mut shown)?;
            }
        }
        Err(fault) => {
            let fault = format!(in alloc; "{fault}")?;
            shown.extend_from_slice(fault.as_bytes())?;
        }
    }
    Ok(shown)
}

#[test]
fn scripts(rt: HostRuntime) -> Result<(), Fail> {
    for &(parts, journal, want) in CASES {
        let text = joined(rt.alloc(), parts)?;
        let got = answer(&rt, &text, journal)?;
        assert_eq!(rt; got.as_slice(), want.as_bytes(), "where {want} is wanted");
    }
    Ok(())
}

// A line each of so many actors.
fn add_actors(alloc: Global, count: u32, into: &mut Vec<u8>) -> Result<(), AllocError> {
    for number in 0..count {
        let line = format!(in alloc; "{{\"do\":\"begin\",\"actor\":\"a{number}\"}}\n")?;
        into.extend_from_slice(line.as_bytes())?;
    }
    Ok(())
}

// 32 actors, the first of them once more, and after a rest 32 again; then a further one.
#[test]
fn actors_of_a_phase(rt: HostRuntime) -> Result<(), Fail> {
    let alloc = rt.alloc();
    let mut text = Vec::new(alloc);
    add_actors(alloc, 32, &mut text)?;
    add_actors(alloc, 1, &mut text)?;
    text.extend_from_slice(REST.as_bytes())?;
    add_actors(alloc, 32, &mut text)?;
    let script = read(&rt, &text, false)??;
    assert_eq!(rt; script.phases.len(), 2);
    for phase in &script.phases {
        assert_eq!(rt; phase.actors.len(), 32);
    }
    text.extend_from_slice(BEGIN_B.as_bytes())?;
    let got = answer(&rt, &text, false)?;
    assert_eq!(rt; got.as_slice(), b"line 68: TooManyActors".as_slice());
    Ok(())
}

#[test]
fn phase_of_actors(rt: HostRuntime) -> Result<(), Fail> {
    let alloc = rt.alloc();
    let mut ops = Vec::new(alloc);
    ops.push(Op {
        line: 5,
        actor: Bytes::of(alloc, b"a")?,
        what: What::Begin,
    })?;
    let mut actors = Vec::new(alloc);
    actors.push((Bytes::of(alloc, b"a")?, ops))?;
    let phase = Phase::of(actors);
    let mut shown = Vec::new(alloc);
    show(&phase, alloc, &mut shown)?;
    assert_eq!(rt; shown.as_slice(), b"[a 5]".as_slice());
    Ok(())
}

/// Each call that may want memory, with enough of it.
#[test]
fn ample(rt: HostRuntime) -> Result<(), Fail> {
    let alloc = rt.alloc();
    let defs = two_queues(&rt)?;
    assert!(rt; defs.queues.len() <= 16);
    let line = read_line(alloc, PUT_7.as_bytes(), 2, &defs)?;
    assert!(rt; matches!(line, Line::Doing(Op { line: 2, .. })));
    let message = read_message(alloc, b"{\"id\":7}")?;
    assert_eq!(rt; message.id(), 7);
    let script = read_script(alloc, PUT_7.as_bytes(), &defs, false, 2)?;
    assert_eq!(rt; script.phases.len(), 1);
    Ok(())
}
