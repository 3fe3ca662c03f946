//! Lists of steps, each from a table that is named, with the words that they show.
use crate::Words;
use queue_model::{Change, DraftWord, Node, RowState, Step, WordName};
use std::test::Fail;

const TOP: Step = Step::Load {
    word: WordName::Top,
};

const CALLERS: Step = Step::Load {
    word: WordName::Callers,
};

const DEPTH: Step = Step::Load {
    word: WordName::Depth,
};

const HEAD_0: Step = Step::Load {
    word: WordName::Link(Node::Head(0)),
};

const HEAD_1: Step = Step::Load {
    word: WordName::Link(Node::Head(1)),
};

const LINK_0: Step = Step::Load {
    word: WordName::Link(Node::Row(0)),
};

const LINK_1: Step = Step::Load {
    word: WordName::Link(Node::Row(1)),
};

const TAIL_0: Step = Step::Load {
    word: WordName::Tail(0),
};

const TAIL_2: Step = Step::Load {
    word: WordName::Tail(2),
};

const MARK_1: Step = Step::Load {
    word: WordName::Mark(1),
};

const COUNT_1: Step = Step::Load {
    word: WordName::Count(1),
};

const BELL_OF_0: Step = Step::Load {
    word: WordName::Bell {
        consumer: 0,
        list: 1,
    },
};

const BELL_OF_1: Step = Step::Load {
    word: WordName::Bell {
        consumer: 1,
        list: 0,
    },
};

const STATE_0: Step = Step::Load {
    word: WordName::State(0),
};

const STATE_1: Step = Step::Load {
    word: WordName::State(1),
};

const STATE_2: Step = Step::Load {
    word: WordName::State(2),
};

const MASK_1: Step = Step::Load {
    word: WordName::Draft {
        row: 1,
        word: DraftWord::Mask,
    },
};

const IDENT_1: Step = Step::Load {
    word: WordName::Draft {
        row: 1,
        word: DraftWord::Ident,
    },
};

const SIZE_0: Step = Step::Load {
    word: WordName::Draft {
        row: 0,
        word: DraftWord::Size,
    },
};

const LIST_0: Step = Step::Load {
    word: WordName::Draft {
        row: 0,
        word: DraftWord::List,
    },
};

const PLACE_0: Step = Step::Load {
    word: WordName::Draft {
        row: 0,
        word: DraftWord::Place,
    },
};

const DRAW: Step = Step::Draw;

const RESERVE_0: Step = Step::Reserve { size: 0 };

const RESERVE_16: Step = Step::Reserve { size: 16 };

const RESERVE_20: Step = Step::Reserve { size: 20 };

const RESERVE_MOST: Step = Step::Reserve { size: 1_048_576 };

const RESERVE_MORE: Step = Step::Reserve { size: 1_048_577 };

const GIVE_0: Step = Step::GiveBack { size: 0 };

const GIVE_16: Step = Step::GiveBack { size: 16 };

const GIVE_20: Step = Step::GiveBack { size: 20 };

const SIZED_16: Step = Step::Draft {
    row: 0,
    word: DraftWord::Size,
    value: 16,
};

const SIZED_20: Step = Step::Draft {
    row: 0,
    word: DraftWord::Size,
    value: 20,
};

const LISTED_1: Step = Step::Draft {
    row: 0,
    word: DraftWord::List,
    value: 1,
};

const MASKED_1: Step = Step::Draft {
    row: 0,
    word: DraftWord::Mask,
    value: 1,
};

const MASKED_2: Step = Step::Draft {
    row: 0,
    word: DraftWord::Mask,
    value: 2,
};

const PLACED_0: Step = Step::Draft {
    row: 0,
    word: DraftWord::Place,
    value: 0,
};

const PLACED_1: Step = Step::Draft {
    row: 0,
    word: DraftWord::Place,
    value: 1,
};

const SECOND_PLACED_1: Step = Step::Draft {
    row: 1,
    word: DraftWord::Place,
    value: 1,
};

const SECOND_LISTED_1: Step = Step::Draft {
    row: 1,
    word: DraftWord::List,
    value: 1,
};

const LINK_FIRST: Step = Step::Link {
    row: 0,
    after: Node::Head(0),
};

const LINK_FIRST_IN_1: Step = Step::Link {
    row: 0,
    after: Node::Head(1),
};

const LINK_SECOND: Step = Step::Link {
    row: 1,
    after: Node::Head(0),
};

const LINK_SECOND_IN_1: Step = Step::Link {
    row: 1,
    after: Node::Head(1),
};

const LINK_BEHIND: Step = Step::Link {
    row: 1,
    after: Node::Row(0),
};

const HELP_FIRST: Step = Step::HelpTail {
    list: 0,
    from: Node::Head(0),
    to: Node::Row(0),
};

const HELP_SECOND: Step = Step::HelpTail {
    list: 0,
    from: Node::Head(0),
    to: Node::Row(1),
};

const HELP_ON: Step = Step::HelpTail {
    list: 0,
    from: Node::Row(0),
    to: Node::Row(1),
};

const ACQ_0: Step = Step::State {
    row: 0,
    change: Change::Acq,
    from: RowState::Available,
};

const ACQ_1: Step = Step::State {
    row: 1,
    change: Change::Acq,
    from: RowState::Available,
};

const ACQ_2: Step = Step::State {
    row: 2,
    change: Change::Acq,
    from: RowState::Available,
};

const UNLOCK_FROM_0: Step = Step::State {
    row: 0,
    change: Change::Unlock,
    from: RowState::Locked(0),
};

const REL_FROM_0: Step = Step::State {
    row: 0,
    change: Change::Rel,
    from: RowState::Locked(0),
};

const DEQ_FROM_1: Step = Step::State {
    row: 0,
    change: Change::Deq,
    from: RowState::Locked(1),
};

const LOCK_FROM_0: Step = Step::State {
    row: 0,
    change: Change::Lock,
    from: RowState::Unlocked(0),
};

const LOCK_FROM_1: Step = Step::State {
    row: 0,
    change: Change::Lock,
    from: RowState::Unlocked(1),
};

const STEAL_FROM_0: Step = Step::State {
    row: 0,
    change: Change::Steal,
    from: RowState::Unlocked(0),
};

const DEL: Step = Step::State {
    row: 0,
    change: Change::Del,
    from: RowState::Dequeued,
};

const STEAL_FROM_HIGHEST: Step = Step::State {
    row: 0,
    change: Change::Steal,
    from: RowState::Unlocked(2_305_843_009_213_693_951),
};

const STEAL_FROM_TOO_HIGH: Step = Step::State {
    row: 0,
    change: Change::Steal,
    from: RowState::Unlocked(2_305_843_009_213_693_952),
};

const COUNT_UP: Step = Step::Count { list: 0 };

const COUNT_UP_2: Step = Step::Count { list: 2 };

const COUNT_BACK: Step = Step::Reset { list: 0 };

const COUNT_0: Step = Step::Load {
    word: WordName::Count(0),
};

const MARK_0: Step = Step::Load {
    word: WordName::Mark(0),
};

const RAISE_TO_0: Step = Step::Mark { list: 0, place: 0 };

const RAISE_TO_1: Step = Step::Mark { list: 0, place: 1 };

const RING_FOR_0: Step = Step::Ring {
    consumer: 0,
    row: 0,
};

const RING_FOR_1: Step = Step::Ring {
    consumer: 0,
    row: 1,
};

const RING_OF_1: Step = Step::Ring {
    consumer: 1,
    row: 0,
};

const TAKE_BELL: Step = Step::TakeBell {
    consumer: 0,
    list: 0,
};

const TAKE_BELL_OF_1: Step = Step::TakeBell {
    consumer: 1,
    list: 0,
};

const TAKE_BELL_IN_1: Step = Step::TakeBell {
    consumer: 0,
    list: 1,
};

const BELL: Step = Step::Load {
    word: WordName::Bell {
        consumer: 0,
        list: 0,
    },
};

// The word of a bell that is not rung.
const SILENT: Option<u64> = Some(18_446_744_073_709_551_615);

const UNLINK_FIRST: Step = Step::Unlink {
    at: Node::Head(0),
    from: 0,
    to: 1,
};

// A caller, its step, and the word that it shows; None where it does not fit.
type Shown = (u64, Step, Option<u64>);

// From a fresh table of 2 lists, 2 rows, 1 consumer and 2 callers.
const FROM_FRESH: [&[Shown]; 23] = [
    &[
        (0, RING_FOR_0, None),
        (0, TAKE_BELL, SILENT),
        (0, TAKE_BELL_OF_1, None),
        (1, TAKE_BELL_IN_1, SILENT),
    ],
    &[
        (0, COUNT_UP, Some(0)),
        (1, COUNT_UP, Some(1)),
        (0, COUNT_UP_2, None),
        (0, COUNT_0, Some(2)),
        (1, COUNT_BACK, Some(2)),
        (0, COUNT_0, Some(0)),
    ],
    &[(0, RAISE_TO_0, None), (0, UNLINK_FIRST, None)],
    &[
        (0, DRAW, Some(0)),
        (1, DRAW, Some(1)),
        (0, DRAW, Some(2)),
        (1, TOP, Some(2)),
    ],
    &[
        (0, RESERVE_16, Some(0)),
        (1, RESERVE_20, Some(1_099_511_627_792)),
        (0, DEPTH, Some(2_199_023_255_588)),
    ],
    &[
        (0, RESERVE_16, Some(0)),
        (0, GIVE_16, Some(1_099_511_627_792)),
        (0, DEPTH, Some(0)),
    ],
    &[
        (0, RESERVE_16, Some(0)),
        (1, GIVE_16, None),
        (0, DEPTH, Some(1_099_511_627_792)),
    ],
    &[
        (0, RESERVE_16, Some(0)),
        (0, GIVE_20, None),
        (0, GIVE_0, None),
        (0, DEPTH, Some(1_099_511_627_792)),
    ],
    &[
        (0, RESERVE_MORE, None),
        (0, RESERVE_MOST, Some(0)),
        (0, DEPTH, Some(1_099_512_676_352)),
    ],
    &[
        (0, DRAW, Some(0)),
        (0, SIZED_16, Some(0)),
        (0, SIZED_20, Some(16)),
        (0, SIZE_0, Some(20)),
    ],
    &[
        (0, DRAW, Some(0)),
        (1, SIZED_16, None),
        (1, SIZE_0, Some(0)),
    ],
    &[
        (0, SIZED_16, None),
        (0, SIZE_0, Some(0)),
        (0, STATE_0, Some(1)),
    ],
    &[
        (0, DRAW, Some(0)),
        (0, LINK_FIRST, None),
        (0, HEAD_0, Some(0)),
    ],
    &[
        (0, RESERVE_16, Some(0)),
        (0, DRAW, Some(0)),
        (0, SIZED_16, Some(0)),
        (0, LINK_FIRST, Some(0)),
        (0, HEAD_0, Some(1)),
        (0, DEPTH, Some(1_099_511_627_792)),
    ],
    &[
        (0, RESERVE_16, Some(0)),
        (0, DRAW, Some(0)),
        (0, SIZED_20, Some(0)),
        (0, LINK_FIRST, None),
        (0, HEAD_0, Some(0)),
    ],
    &[
        (0, RESERVE_0, Some(0)),
        (0, DRAW, Some(0)),
        (0, LISTED_1, Some(0)),
        (0, LINK_FIRST, None),
        (0, LINK_FIRST_IN_1, Some(0)),
        (0, HEAD_1, Some(1)),
        (0, HEAD_0, Some(0)),
    ],
    &[
        (0, RESERVE_0, Some(0)),
        (0, DRAW, Some(0)),
        (0, MASKED_2, Some(0)),
        (0, LINK_FIRST, None),
        (0, MASKED_1, Some(2)),
        (0, LINK_FIRST, Some(0)),
        (0, HEAD_0, Some(1)),
    ],
    &[
        (0, RESERVE_0, Some(0)),
        (0, DRAW, Some(0)),
        (0, PLACED_1, Some(0)),
        (0, LINK_FIRST, None),
        (0, PLACED_0, Some(1)),
        (0, LINK_FIRST, Some(0)),
        (0, PLACE_0, Some(0)),
    ],
    &[(2, DRAW, None), (2, TOP, None), (1, TOP, Some(0))],
    &[
        (0, TAIL_2, None),
        (0, STATE_2, None),
        (0, BELL_OF_1, None),
        (0, BELL_OF_0, Some(18_446_744_073_709_551_615)),
    ],
    &[
        (0, CALLERS, Some(2)),
        (1, MARK_1, Some(0)),
        (1, COUNT_1, Some(0)),
        (0, LINK_1, Some(0)),
    ],
    &[(0, DRAW, Some(0)), (0, ACQ_0, None), (0, STATE_0, Some(1))],
    &[
        (0, RESERVE_0, Some(0)),
        (1, RESERVE_0, Some(1_099_511_627_776)),
        (0, DRAW, Some(0)),
        (1, DRAW, Some(1)),
        (1, SECOND_LISTED_1, Some(0)),
        (0, LINK_FIRST, Some(0)),
        (1, LINK_SECOND_IN_1, Some(0)),
        (0, HEAD_0, Some(1)),
        (0, HEAD_1, Some(2)),
        (0, DEPTH, Some(2_199_023_255_552)),
    ],
];

// From a table of 1 list, where caller 1 has linked row 0, of 16 bytes, and caller 0 has reserved 20 bytes,
// and has drawn row 1 and written it down behind the head, with id 6.
const FROM_LINKED: [&[Shown]; 24] = [
    &[
        (0, RING_FOR_1, None),
        (0, RING_OF_1, None),
        (0, TAKE_BELL_IN_1, None),
        (0, SECOND_PLACED_1, Some(0)),
        (0, LINK_BEHIND, Some(0)),
        (1, RING_FOR_1, SILENT),
        (0, BELL, Some(1_048_577)),
        (0, RING_FOR_0, Some(1_048_577)),
        (1, RING_FOR_1, Some(0)),
        (0, TAKE_BELL, Some(0)),
        (1, BELL, SILENT),
    ],
    &[
        (1, ACQ_0, Some(1)),
        (1, DEQ_FROM_1, Some(12)),
        (0, SECOND_PLACED_1, Some(0)),
        (0, LINK_BEHIND, Some(0)),
        (0, UNLINK_FIRST, None),
        (0, DEL, Some(2)),
        (0, UNLINK_FIRST, Some(1)),
        (0, HEAD_0, Some(2)),
        (0, UNLINK_FIRST, Some(2)),
        (0, HEAD_0, Some(2)),
    ],
    &[
        (0, RAISE_TO_0, Some(0)),
        (0, RAISE_TO_1, None),
        (0, SECOND_PLACED_1, Some(0)),
        (0, LINK_BEHIND, Some(0)),
        (0, RAISE_TO_1, Some(0)),
        (0, RAISE_TO_0, Some(1)),
        (0, MARK_0, Some(1)),
    ],
    &[(1, ACQ_0, Some(1)), (1, STATE_0, Some(12))],
    &[
        (0, ACQ_0, Some(1)),
        (1, ACQ_0, Some(4)),
        (1, STATE_0, Some(4)),
    ],
    &[
        (0, ACQ_0, Some(1)),
        (0, UNLOCK_FROM_0, Some(4)),
        (0, STATE_0, Some(5)),
    ],
    &[
        (0, ACQ_0, Some(1)),
        (0, REL_FROM_0, Some(4)),
        (0, STATE_0, Some(1)),
    ],
    &[
        (0, ACQ_0, Some(1)),
        (1, REL_FROM_0, None),
        (1, STATE_0, Some(4)),
    ],
    &[
        (0, ACQ_0, Some(1)),
        (0, UNLOCK_FROM_0, Some(4)),
        (1, STEAL_FROM_0, Some(5)),
        (1, STATE_0, Some(12)),
    ],
    &[
        (0, ACQ_0, Some(1)),
        (0, UNLOCK_FROM_0, Some(4)),
        (1, STEAL_FROM_0, Some(5)),
        (0, LOCK_FROM_0, Some(12)),
        (0, STATE_0, Some(12)),
    ],
    &[
        (0, ACQ_0, Some(1)),
        (0, UNLOCK_FROM_0, Some(4)),
        (0, LOCK_FROM_0, Some(5)),
        (0, STATE_0, Some(4)),
    ],
    &[
        (1, ACQ_0, Some(1)),
        (1, DEQ_FROM_1, Some(12)),
        (1, STATE_0, Some(2)),
        (1, GIVE_16, Some(2_199_023_255_588)),
        (1, DEPTH, Some(1_099_511_627_796)),
    ],
    &[
        (1, ACQ_0, Some(1)),
        (1, DEQ_FROM_1, Some(12)),
        (0, GIVE_16, None),
        (0, DEPTH, Some(2_199_023_255_588)),
    ],
    &[
        (1, ACQ_0, Some(1)),
        (1, DEQ_FROM_1, Some(12)),
        (0, DEL, Some(2)),
        (0, STATE_0, Some(3)),
        (0, DEL, Some(3)),
        (0, STATE_0, Some(3)),
    ],
    &[(0, DEL, Some(1)), (0, STATE_0, Some(1))],
    &[
        (0, HELP_FIRST, Some(0)),
        (0, TAIL_0, Some(1)),
        (1, HELP_FIRST, Some(1)),
        (1, TAIL_0, Some(1)),
    ],
    &[(0, HELP_SECOND, None), (0, TAIL_0, Some(0))],
    &[
        (0, LINK_SECOND, Some(1)),
        (0, LINK_BEHIND, None),
        (0, HEAD_0, Some(1)),
        (0, LINK_0, Some(0)),
    ],
    &[
        (0, SECOND_PLACED_1, Some(0)),
        (0, LINK_BEHIND, Some(0)),
        (0, LINK_0, Some(2)),
        (0, HELP_ON, Some(0)),
        (0, TAIL_0, Some(0)),
        (0, HELP_SECOND, Some(0)),
        (0, TAIL_0, Some(2)),
    ],
    &[
        (0, SECOND_PLACED_1, Some(0)),
        (0, LINK_BEHIND, Some(0)),
        (0, SECOND_PLACED_1, None),
        (1, ACQ_1, Some(1)),
        (1, STATE_1, Some(12)),
    ],
    &[
        (0, SECOND_PLACED_1, Some(0)),
        (1, LINK_BEHIND, None),
        (0, LINK_BEHIND, Some(0)),
        (0, GIVE_20, None),
        (0, DEPTH, Some(2_199_023_255_588)),
    ],
    &[
        (0, GIVE_20, Some(2_199_023_255_588)),
        (0, SECOND_PLACED_1, Some(0)),
        (0, LINK_BEHIND, None),
        (0, DEPTH, Some(1_099_511_627_792)),
    ],
    &[
        (0, ACQ_2, None),
        (0, DRAW, Some(2)),
        (0, LOCK_FROM_1, None),
        (0, STEAL_FROM_TOO_HIGH, None),
        (0, STEAL_FROM_HIGHEST, Some(1)),
        (0, STATE_0, Some(1)),
    ],
    &[
        (0, MASK_1, Some(0)),
        (0, IDENT_1, Some(6)),
        (0, SIZE_0, Some(16)),
        (0, LIST_0, Some(0)),
        (0, HEAD_1, None),
    ],
];

// Whether the steps show these words.
fn shows(words: &mut Words, steps: &[Shown]) -> bool {
    for (caller, step, want) in steps {
        if words.advance(*caller, *step).ok() != *want {
            return false;
        }
    }
    true
}

// What caller 1 and then caller 0 did to a table of 1 list.
const LINKED: [Shown; 8] = [
    (1, RESERVE_16, Some(0)),
    (1, DRAW, Some(0)),
    (1, SIZED_16, Some(0)),
    (1, LINK_FIRST, Some(0)),
    (0, RESERVE_20, Some(1_099_511_627_792)),
    (0, DRAW, Some(1)),
    (
        0,
        Step::Draft {
            row: 1,
            word: DraftWord::Ident,
            value: 6,
        },
        Some(0),
    ),
    (
        0,
        Step::Draft {
            row: 1,
            word: DraftWord::Size,
            value: 20,
        },
        Some(0),
    ),
];

#[test]
fn from_a_fresh_table(rt: HostRuntime) -> Result<(), Fail> {
    for steps in FROM_FRESH {
        let mut words = Words::fresh(rt.alloc(), 2, 2, 1, 2)?;
        assert!(rt; shows(&mut words, steps));
    }
    Ok(())
}

#[test]
fn from_a_linked_row(rt: HostRuntime) -> Result<(), Fail> {
    for steps in FROM_LINKED {
        let mut words = Words::fresh(rt.alloc(), 1, 2, 1, 2)?;
        assert!(rt; shows(&mut words, &LINKED));
        assert!(rt; shows(&mut words, steps));
    }
    Ok(())
}
