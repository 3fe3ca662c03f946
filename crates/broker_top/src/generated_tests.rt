//! Runs of scripts that numbers make, and the words that ask for them.
use crate::Status;
use crate::tests::{Call, check};
use std::test::Fail;

// The number, the count, and the summary. The bytes are by a program of ten lines in Python; those of the first row by hand.
const SUMMARIES: &[(&str, &str, &str)] = &[
    ("1", "1", "gen 1 1: put 1 got 1 acked 1 left 0 bytes 21\n"),
    ("1", "8", "gen 1 8: put 8 got 8 acked 8 left 0 bytes 247\n"),
    (
        "0000000000000000007",
        "000017",
        "gen 7 17: put 17 got 17 acked 17 left 0 bytes 465\n",
    ),
    (
        "9999999999999999999",
        "10",
        "gen 9999999999999999999 10: put 10 got 10 acked 10 left 0 bytes 291\n",
    ),
    (
        "1",
        "2000",
        "gen 1 2000: put 2000 got 2000 acked 2000 left 0 bytes 62209\n",
    ),
];

// Words that are refused.
const REFUSED: &[&[&str]] = &[
    &["gen"],
    &["gen", "1"],
    &["Gen", "1", "8"],
    &["gen", "", "8"],
    &["gen", "1", ""],
    &["gen", "+1", "8"],
    &["gen", "-1", "8"],
    &["gen", "1", "8 "],
    &["gen", "1a", "8"],
    &["gen", "1", "0"],
    &["gen", "1", "100001"],
    &["gen", "1", "0000008"],
    &["gen", "00000000000000000001", "8"],
    &["gen", "1", "8", "9"],
];

// Nothing is read: a source that fails is not seen to.
#[test]
fn summaries(rt: HostRuntime) -> Result<(), Fail> {
    for &(number, count, text) in SUMMARIES {
        let words = ["gen", number, count];
        let want = (Status::Done, text);
        let input = Vec::new(rt.alloc());
        check(&rt, Call::Run, &words, input, (&[0], &[]), 1000, want)?;
    }
    Ok(())
}

#[test]
fn words_refused(rt: HostRuntime) -> Result<(), Fail> {
    for &words in REFUSED {
        let want = (Status::WordsRefused, "fault: words\n");
        let input = Vec::new(rt.alloc());
        check(&rt, Call::Run, words, input, (&[], &[]), 1000, want)?;
    }
    Ok(())
}

// A sink that fails at once, and one with room for a front of the summary.
#[test]
fn sinks_that_fail(rt: HostRuntime) -> Result<(), Fail> {
    let words = ["gen", "1", "8"];
    let want = (Status::WriteFault, "");
    let input = Vec::new(rt.alloc());
    check(&rt, Call::Run, &words, input, (&[], &[0]), 1000, want)?;
    let want = (Status::WriteFault, "gen 1 8: p");
    let input = Vec::new(rt.alloc());
    check(&rt, Call::Run, &words, input, (&[], &[]), 10, want)
}
