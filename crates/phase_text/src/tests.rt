use crate::{Log, Rest, write_phase};
use byte_lists::Bytes;
use outside_io::MemorySink;
use queue_model::RowState;
use report_core::{Answer, Dropped, Resting, Span};
use std::test::Fail;

#[test]
fn ample(rt: HostRuntime) -> Result<(), Fail> {
    let alloc = rt.alloc();
    let first = Log {
        name: Bytes::of(alloc, b"a")?,
        lines: Vec::from_slice(
            alloc,
            &[
                (2, Answer::Acked { id: 7 }),
                (
                    4,
                    Answer::Accepted {
                        id: 8,
                        flowed: false,
                        acquired: Span { from: 1, to: 3 },
                    },
                ),
                (5, Answer::Empty),
            ],
        )?,
        drops: Vec::from_slice(
            alloc,
            &[
                Dropped {
                    queue: 0,
                    id: 4,
                    kept: false,
                },
                Dropped {
                    queue: 1,
                    id: 6,
                    kept: false,
                },
                Dropped {
                    queue: 1,
                    id: 5,
                    kept: false,
                },
            ],
        )?,
    };
    let second = Log {
        name: Bytes::of(alloc, b"adm")?,
        lines: Vec::from_slice(
            alloc,
            &[(
                3,
                Answer::NotStealable {
                    state: RowState::Locked(1),
                },
            )],
        )?,
        drops: Vec::new(alloc),
    };
    let rest = Rest {
        name: Bytes::of(alloc, b"q")?,
        entries: Vec::from_slice(
            alloc,
            &[Resting {
                id: 8,
                size: 18,
                holder: Some(2),
            }],
        )?,
    };
    let actors = [Bytes::of(alloc, b"a")?, Bytes::of(alloc, b"adm")?];
    let queues = [Bytes::of(alloc, b"q")?, Bytes::of(alloc, b"r")?];
    let mut out = MemorySink::of(alloc, 140, Vec::new(alloc))?;
    write_phase(&mut out, &[first, second], &[rest], &queues, &actors)?;
    let text = b"a 2 acked 7\na 4 ok 8 dropped r#6 dropped r#5\na 5 empty\n\
        adm 3 not-stealable locked a\nqueue q 1 18\nentry 8 held adm\n";
    assert_eq!(rt; out.bytes(), text.as_slice());
    Ok(())
}
