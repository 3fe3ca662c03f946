//! The worked list of steps, and a few more.
use crate::{Unfit, Words};
use queue_model::{Change, DraftWord, Node, RowState, Step, WordName};
use std::test::Fail;

// The step that loads a word.
fn load(word: WordName) -> Step {
    Step::Load { word }
}

// The step that stores a draft word of a row.
fn draft(row: u64, word: DraftWord, value: u64) -> Step {
    Step::Draft { row, word, value }
}

// The step that changes a row's state.
fn change(row: u64, change: Change, from: RowState) -> Step {
    Step::State { row, change, from }
}

// Whether the steps of a caller show these words.
fn shows(words: &mut Words, caller: u64, steps: &[(Step, u64)]) -> bool {
    for (step, word) in steps {
        match words.advance(caller, *step) {
            Ok(shown) => {
                if shown != *word {
                    return false;
                }
            }
            Err(Unfit) => return false,
        }
    }
    true
}

// Whether the step of a caller does not fit.
fn refuses(words: &mut Words, caller: u64, step: Step) -> bool {
    match words.advance(caller, step) {
        Ok(_) => false,
        Err(Unfit) => true,
    }
}

// Whether a caller's draft words of a row are stored.
fn drafts(words: &mut Words, caller: u64, row: u64, place: u64, ident: u64, size: u64) -> bool {
    shows(
        words,
        caller,
        &[
            (draft(row, DraftWord::Mask, 0), 0),
            (draft(row, DraftWord::Place, place), 0),
            (draft(row, DraftWord::Ident, ident), 0),
            (draft(row, DraftWord::Size, size), 0),
            (draft(row, DraftWord::List, 0), 0),
        ],
    )
}

#[test]
fn a_row_is_linked_and_acquired(rt: HostRuntime) -> Result<(), Fail> {
    let mut words = Words::fresh(rt.alloc(), 1, 2, 0, 1)?;
    assert!(rt;
        shows(
            &mut words,
            0,
            &[(Step::Reserve { size: 16 }, 0), (Step::Draw, 0)]
        )
    );
    assert!(rt; drafts(&mut words, 0, 0, 0, 5, 16));
    let link = Step::Link {
        row: 0,
        after: Node::Head(0),
    };
    let help = Step::HelpTail {
        list: 0,
        from: Node::Head(0),
        to: Node::Row(0),
    };
    let loads = [
        (link, 0),
        (help, 0),
        (load(WordName::Link(Node::Head(0))), 1),
        (load(WordName::Depth), 1_099_511_627_792),
        (load(WordName::State(0)), 1),
    ];
    assert!(rt; shows(&mut words, 0, &loads));
    assert!(rt; refuses(&mut words, 0, link));
    let acquires = [
        (change(0, Change::Acq, RowState::Available), 1),
        (load(WordName::State(0)), 4),
    ];
    assert!(rt; shows(&mut words, 0, &acquires));
    Ok(())
}

// A table of 1 list, 2 rows, 1 consumer and 2 callers. Caller 1 has linked row 0, of 16 bytes, and caller
// 0 has drawn row 1, of 20 bytes, and not linked it.
fn one_linked(rt: &HostRuntime) -> Result<Words, Fail> {
    let mut words = Words::fresh(rt.alloc(), 1, 2, 1, 2)?;
    shows(
        &mut words,
        1,
        &[(Step::Reserve { size: 16 }, 0), (Step::Draw, 0)],
    );
    drafts(&mut words, 1, 0, 0, 5, 16);
    words.advance(
        1,
        Step::Link {
            row: 0,
            after: Node::Head(0),
        },
    )?;
    words.advance(0, Step::Reserve { size: 20 })?;
    words.advance(0, Step::Draw)?;
    drafts(&mut words, 0, 1, 0, 6, 20);
    Ok(words)
}

#[test]
fn a_link_that_is_taken_is_read(rt: HostRuntime) -> Result<(), Fail> {
    let mut words = one_linked(&rt)?;
    let steps = [
        (
            Step::Link {
                row: 1,
                after: Node::Head(0),
            },
            1,
        ),
        (load(WordName::Link(Node::Head(0))), 1),
        (draft(1, DraftWord::Place, 1), 0),
        (
            Step::Link {
                row: 1,
                after: Node::Row(0),
            },
            0,
        ),
        (load(WordName::Link(Node::Row(0))), 2),
        (Step::Draw, 2),
        (load(WordName::Top), 2),
        (load(WordName::Depth), 2_199_023_255_588),
    ];
    assert!(rt; shows(&mut words, 0, &steps));
    Ok(())
}

#[test]
fn a_row_is_left_stolen_and_deleted(rt: HostRuntime) -> Result<(), Fail> {
    let mut words = one_linked(&rt)?;
    let leaves = [
        (change(0, Change::Acq, RowState::Available), 1),
        (change(0, Change::Unlock, RowState::Locked(1)), 12),
    ];
    assert!(rt; shows(&mut words, 1, &leaves));
    let steals = [
        (change(0, Change::Acq, RowState::Available), 13),
        (change(0, Change::Steal, RowState::Unlocked(1)), 13),
        (change(0, Change::Deq, RowState::Locked(0)), 4),
        (load(WordName::Depth), 2_199_023_255_588),
        (Step::GiveBack { size: 16 }, 2_199_023_255_588),
        (change(0, Change::Del, RowState::Dequeued), 2),
        (load(WordName::State(0)), 3),
        (load(WordName::Depth), 1_099_511_627_796),
    ];
    assert!(rt; shows(&mut words, 0, &steals));
    Ok(())
}

#[test]
fn what_does_not_fit(rt: HostRuntime) -> Result<(), Fail> {
    let mut words = one_linked(&rt)?;
    assert!(rt; refuses(&mut words, 2, Step::Draw));
    assert!(rt; refuses(&mut words, 1, draft(1, DraftWord::Mask, 1)));
    assert!(rt; refuses(&mut words, 0, load(WordName::Tail(1))));
    assert!(rt; refuses(&mut words, 0, load(WordName::State(2))));
    assert!(rt; refuses(&mut words, 0, Step::Reserve { size: 1_048_577 }));
    assert!(rt; refuses(&mut words, 1, Step::GiveBack { size: 16 }));
    assert!(rt;
        refuses(
            &mut words,
            1,
            change(0, Change::Lock, RowState::Unlocked(0))
        )
    );
    assert!(rt; refuses(&mut words, 1, change(1, Change::Acq, RowState::Available)));
    Ok(())
}

#[test]
fn ample(rt: HostRuntime) -> Result<(), Fail> {
    let mut words = Words::fresh(rt.alloc(), 12, 4, 64, 3)?;
    let loads = [
        (load(WordName::Top), 0),
        (load(WordName::Callers), 3),
        (load(WordName::Depth), 0),
        (load(WordName::Mark(11)), 0),
        (load(WordName::Count(11)), 0),
        (
            load(WordName::Bell {
                consumer: 63,
                list: 11,
            }),
            18_446_744_073_709_551_615,
        ),
        (load(WordName::State(3)), 1),
        (load(WordName::Link(Node::Row(3))), 0),
    ];
    assert!(rt; shows(&mut words, 2, &loads));
    Ok(())
}
