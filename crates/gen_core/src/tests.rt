use super::*;
use defs_read::QueueKind;
use script_read::{Phase, Script, What};
use std::alloc::{AllocError, Global};
use std::test::Fail;

/// Numbers, how many messages, and the sums of their priorities and of the bytes of their bodies. The sums of the first
/// row are those of the one message of 1, the others are by a program of ten lines in Python.
const SUMS: &[(u64, u64, u64, u64)] = &[
    (1, 1, 4, 21),
    (1, 3, 13, 75),
    (0, 8, 39, 222),
    (9_999_999_999_999_999_999, 10, 52, 291),
    (1, 2_000, 9_158, 62_209),
    (1, 20_000, 89_629, 628_239),
    (1, 100_000, 450_313, 3_139_010),
];

/// How many messages, and the phases of their script: each actor with the numbers of its lines.
const LINES: &[(u64, &str)] = &[
    (1, "[p0, p1 2, p2, p3, a0, a1, a2, a3][d 4 5]"),
    (
        17,
        "[p0 5 9 13 17, p1 2 6 10 14 18, p2 3 7 11 15, p3 4 8 12 16, \
         a0 19 20 27 28, a1 21 22 29 30, a2 23 24 31 32, a3 25 26 33 34]\
         [d 36 37 38 39 40 41 42 43 44 45 46 47 48 49 50 51 52 \
         53 54 55 56 57 58 59 60 61 62 63 64 65 66 67 68 69]",
    ),
];

// The sums of the priorities, and of the bytes of the bodies, of what is put.
fn sums(script: &Script) -> (u64, u64) {
    let mut priorities: u64 = 0;
    let mut bytes: u64 = 0;
    for phase in &script.phases {
        for (_, ops) in &phase.actors {
            for op in ops {
                if let What::Put { message, .. } = &op.what {
                    priorities = priorities.wrapping_add(u64::from(message.priority()));
                    bytes = bytes.wrapping_add(message.body().len() as u64);
                }
            }
        }
    }
    (priorities, bytes)
}

// The actors of a phase, each with the numbers of its lines.
fn show(phase: &Phase, alloc: Global, into: &mut Vec<u8>) -> Result<(), AllocError> {
    into.push(b'[')?;
    for (index, (name, ops)) in phase.actors.iter().enumerate() {
        if index > 0 {
            into.extend_from_slice(b", ")?;
        }
        into.extend_from_slice(name.as_slice())?;
        for op in ops {
            let number = format!(in alloc; " {}", op.line)?;
            into.extend_from_slice(number.as_bytes())?;
        }
    }
    into.push(b']')?;
    Ok(())
}

#[test]
fn messages(rt: HostRuntime) -> Result<(), Fail> {
    for &(number, count, priorities, bytes) in SUMS {
        assert!(rt; 1 <= count && count <= MOST_MESSAGES);
        let (_, script) = generate(rt.alloc(), number, count)?;
        assert_eq!(rt;
            body_bytes(number, count),
            bytes,
            "{count} messages of {number}"
        );
        assert_eq!(rt;
            sums(&script),
            (priorities, bytes),
            "{count} messages of {number}"
        );
    }
    Ok(())
}

#[test]
fn lines(rt: HostRuntime) -> Result<(), Fail> {
    let alloc = rt.alloc();
    for &(count, want) in LINES {
        assert!(rt; 1 <= count && count <= MOST_MESSAGES);
        let (_, script) = generate(alloc, 1, count)?;
        let mut shown = Vec::new(alloc);
        for phase in &script.phases {
            show(phase, alloc, &mut shown)?;
        }
        assert_eq!(rt; shown.as_slice(), want.as_bytes(), "{count} messages");
    }
    Ok(())
}

/// The call that may want memory, with enough of it: the queue, and its consumers with their actors.
#[test]
fn ample(rt: HostRuntime) -> Result<(), Fail> {
    let alloc = rt.alloc();
    let (defs, _) = generate(alloc, 1, 8)?;
    let mut shown = Vec::new(alloc);
    for queue in &defs.queues {
        shown.extend_from_slice(queue.name.as_slice())?;
        assert!(rt; matches!(queue.kind, QueueKind::Priority(10)));
        for consumer in &queue.consumers {
            shown.push(b' ')?;
            shown.extend_from_slice(consumer.name.as_slice())?;
            shown.push(b'/')?;
            shown.extend_from_slice(consumer.actor.as_slice())?;
        }
    }
    assert_eq!(rt;
        shown.as_slice(),
        b"q c0/a0 c1/a1 c2/a2 c3/a3 c4/d".as_slice()
    );
    Ok(())
}
