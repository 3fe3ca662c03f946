ghost use Rattle.report_core.specs.Words.{Fits};

use crate::{Answer, Dropped, Resting, Span, write_answer, write_queue};
use byte_lists::Bytes;
use outside_io::MemorySink;
use queue_model::{Depth, RowState};
use std::alloc::Global;
use std::process::Abort;
use std::test::Fail;

// Writes the answer of line 4 of actor adm; compares the line.
fn check(
    rt: &(impl Abort + AllocGlobal),
    names: &[Bytes],
    drops: &[Dropped],
    answer: Answer,
    want: &str,
) -> Result<(), Fail>
    requires { Fits names.now names.now drops.now answer }
{
    let alloc = rt.alloc();
    let mut sink = MemorySink::of(alloc, 64, Vec::new(alloc))?;
    let actor = Bytes::of(alloc, b"adm")?;
    let result = write_answer(&mut sink, &actor, 4, &answer, drops, names, names);
    assert_eq!(rt; result.is_ok(), true);
    assert_eq!(rt; sink.bytes(), want.as_bytes());
    Ok(())
}

const DROPS: [Dropped; 3] = [
    Dropped {
        queue: 0,
        id: 5,
        kept: false,
    },
    Dropped {
        queue: 1,
        id: 6,
        kept: true,
    },
    Dropped {
        queue: 0,
        id: 18446744073709551615,
        kept: false,
    },
];

#[test]
fn puts_and_commits(rt: HostRuntime) -> Result<(), Fail> {
    let alloc = rt.alloc();
    let names = [Bytes::of(alloc, b"q")?, Bytes::of(alloc, b"adm")?];
    let none = Span { from: 2, to: 2 };
    let depth = Depth {
        entries: 2,
        bytes: 32,
    };
    check(
        &rt,
        &names,
        &DROPS,
        Answer::Accepted {
            id: 3,
            flowed: false,
            acquired: none,
        },
        "adm 4 ok 3\n",
    )?;
    check(
        &rt,
        &names,
        &DROPS,
        Answer::Accepted {
            id: 3,
            flowed: true,
            acquired: none,
        },
        "adm 4 ok 3 flowed\n",
    )?;
    check(
        &rt,
        &names,
        &DROPS,
        Answer::Accepted {
            id: 3,
            flowed: true,
            acquired: Span { from: 0, to: 2 },
        },
        "adm 4 ok 3 flowed dropped q#5 held adm#6\n",
    )?;
    check(
        &rt,
        &names,
        &DROPS,
        Answer::Committed {
            acquired: Span { from: 1, to: 3 },
        },
        "adm 4 committed held adm#6 dropped q#18446744073709551615\n",
    )?;
    check(
        &rt,
        &names,
        &DROPS,
        Answer::Committed { acquired: none },
        "adm 4 committed\n",
    )?;
    check(
        &rt,
        &names,
        &DROPS,
        Answer::Staged {
            id: 9,
            flowed: false,
        },
        "adm 4 staged 9\n",
    )?;
    check(
        &rt,
        &names,
        &DROPS,
        Answer::Staged {
            id: 9,
            flowed: true,
        },
        "adm 4 staged 9 flowed\n",
    )?;
    check(
        &rt,
        &names,
        &DROPS,
        Answer::Rejected { depth },
        "adm 4 rejected 2 32\n",
    )?;
    check(
        &rt,
        &names,
        &DROPS,
        Answer::Blocked { depth },
        "adm 4 blocked 2 32\n",
    )
}

#[test]
fn takes_and_entries(rt: HostRuntime) -> Result<(), Fail> {
    let alloc = rt.alloc();
    let names = [Bytes::of(alloc, b"q")?, Bytes::of(alloc, b"adm")?];
    check(
        &rt,
        &names,
        &DROPS,
        Answer::Got {
            id: 7,
            number: 4294967295,
        },
        "adm 4 got 7 4294967295\n",
    )?;
    check(
        &rt,
        &names,
        &DROPS,
        Answer::FailedId { id: 2, held: false },
        "adm 4 failed 2\n",
    )?;
    check(
        &rt,
        &names,
        &DROPS,
        Answer::FailedId { id: 2, held: true },
        "adm 4 failed 2 held\n",
    )?;
    check(
        &rt,
        &names,
        &DROPS,
        Answer::Acked { id: 7 },
        "adm 4 acked 7\n",
    )?;
    check(
        &rt,
        &names,
        &DROPS,
        Answer::Released { id: 7 },
        "adm 4 released 7\n",
    )?;
    check(
        &rt,
        &names,
        &DROPS,
        Answer::Outdated { id: 1 },
        "adm 4 outdated 1\n",
    )?;
    check(
        &rt,
        &names,
        &DROPS,
        Answer::Unlocked { id: 7 },
        "adm 4 unlocked 7\n",
    )?;
    check(
        &rt,
        &names,
        &DROPS,
        Answer::Locked { id: 7 },
        "adm 4 locked 7\n",
    )?;
    check(
        &rt,
        &names,
        &DROPS,
        Answer::Stole { id: 0 },
        "adm 4 stole 0\n",
    )?;
    check(
        &rt,
        &names,
        &DROPS,
        Answer::Stolen {
            state: RowState::Locked(2),
        },
        "adm 4 stolen locked adm\n",
    )?;
    check(
        &rt,
        &names,
        &DROPS,
        Answer::NotStealable {
            state: RowState::Available,
        },
        "adm 4 not-stealable available\n",
    )?;
    check(
        &rt,
        &names,
        &DROPS,
        Answer::Moved {
            state: RowState::Unlocked(1),
        },
        "adm 4 moved unlocked q\n",
    )?;
    check(
        &rt,
        &names,
        &DROPS,
        Answer::Moved {
            state: RowState::Dequeued,
        },
        "adm 4 moved dequeued\n",
    )?;
    check(
        &rt,
        &names,
        &DROPS,
        Answer::Stolen {
            state: RowState::Deleted,
        },
        "adm 4 stolen deleted\n",
    )
}

#[test]
fn plain_words(rt: HostRuntime) -> Result<(), Fail> {
    let names: [Bytes; 0] = [];
    check(&rt, &names, &[], Answer::Failed, "adm 4 failed\n")?;
    check(&rt, &names, &[], Answer::TooLong, "adm 4 too-long\n")?;
    check(&rt, &names, &[], Answer::Empty, "adm 4 empty\n")?;
    check(&rt, &names, &[], Answer::NoCredit, "adm 4 no-credit\n")?;
    check(&rt, &names, &[], Answer::Closed, "adm 4 closed\n")?;
    check(&rt, &names, &[], Answer::NotHeld, "adm 4 not-held\n")?;
    check(&rt, &names, &[], Answer::Absent, "adm 4 absent\n")?;
    check(&rt, &names, &[], Answer::Begun, "adm 4 begun\n")?;
    check(&rt, &names, &[], Answer::Already, "adm 4 already\n")?;
    check(
        &rt,
        &names,
        &[],
        Answer::NoTransaction,
        "adm 4 no-transaction\n",
    )?;
    check(&rt, &names, &[], Answer::RolledBack, "adm 4 rolled-back\n")
}

#[test]
fn what_a_queue_holds(rt: HostRuntime) -> Result<(), Fail> {
    let alloc = rt.alloc();
    let actors = [Bytes::of(alloc, b"a")?, Bytes::of(alloc, b"b")?];
    let name = Bytes::of(alloc, b"orders.eu")?;
    let entries = [
        Resting {
            id: 1002,
            size: 46,
            holder: None,
        },
        Resting {
            id: 2,
            size: 49,
            holder: Some(2),
        },
    ];
    let mut sink = MemorySink::of(alloc, 64, Vec::new(alloc))?;
    let result = write_queue(&mut sink, &name, &entries, &actors);
    assert_eq!(rt; result.is_ok(), true);
    assert_eq!(rt;
        sink.bytes(),
        b"queue orders.eu 2 95\nentry 1002\nentry 2 held b\n".as_slice()
    );
    let mut full = MemorySink::of(alloc, 24, Vec::new(alloc))?;
    let cut = write_queue(&mut full, &name, &entries, &actors);
    assert_eq!(rt; cut.is_ok(), false);
    assert_eq!(rt; full.bytes(), b"queue orders.eu 2 95\nent".as_slice());
    Ok(())
}
