//! Where words stand among all words, and how what they stand for is packed.
//!
//! Three words of the whole table come first, then the words of each row, and behind the last row the words of
//! each list.
ghost use Rattle.std.specs.Prelude.{◌≡◌, ◌<◌, ◌^◌, ℕ, Option, IfSome};
ghost use Rattle.link_core.specs.Layout.{bell_of, count_of, draft_of, head_of, link_of, mark_of, place_of_word, row_link_of, state_of, tail_of, words_of};
ghost use Rattle.queue_model.specs.Packing.{pack_bell, pack_node, pack_state};
ghost use Rattle.queue_model.specs.Table.{most_entries};
ghost use Rattle.queue_model.specs.declared.queues.Bell.{Bell};
ghost use Rattle.link_core.specs.Steps.{row_rung};
ghost use Rattle.queue_model.specs.declared.rows.RowState.{RowState};

use queue_model::{DraftWord, NO_BELL, Node, PLACE_WORTH, RowState, WordName};

/// The word of how many rows were drawn.
pub const TOP: usize = 0;

/// The word of how many callers were made.
pub const CALLERS: usize = 1;

/// The word of the depth.
pub const DEPTH: usize = 2;

/// Where the words of the first row begin. The link of a row is the first of its words.
pub const ROWS_FROM: usize = 3;

/// How many words each row has.
pub const ROW_WORDS: usize = 7;

/// Where the state word stands among the words of its row.
pub const STATE_AT: usize = 1;

/// Where the mask stands among the words of its row.
pub const MASK_AT: usize = 2;

/// Where the place in its list stands among the words of a row.
pub const PLACE_AT: usize = 3;

/// Where the identity stands among the words of its row.
pub const IDENT_AT: usize = 4;

/// Where the size stands among the words of its row.
pub const SIZE_AT: usize = 5;

/// Where the number of its list stands among the words of a row.
pub const LIST_AT: usize = 6;

/// How many words each list has: link, tail, mark, count, and 64 bells. The link of the head is the first.
pub const LIST_WORDS: usize = 68;

/// Where the tail stands among the words of its list.
pub const TAIL_AT: usize = 1;

/// Where the mark stands among the words of its list.
pub const MARK_AT: usize = 2;

/// Where the count stands among the words of its list.
pub const COUNT_AT: usize = 3;

/// How many bells each list has, one for each consumer that a table may have.
pub const LIST_BELLS: u32 = 64;

/// Where the first of the bells stands among the words of a list.
pub const BELLS_AT: usize = 4;

/// How many words a table of so many rows and lists has.
pub fn words_of(rows: u64, lists: u32) -> usize
    requires { words_of rows lists < 2 ^ 63 }
    ensures { result ≡ words_of rows lists }
{
    ROWS_FROM + ROW_WORDS * rows as usize + LIST_WORDS * lists as usize
}

/// Where the words of a row begin: the place of its link.
pub fn row_place(row: u64) -> usize
    requires { row_link_of row < 2 ^ 63 }
    ensures { result ≡ row_link_of row }
{
    ROWS_FROM + ROW_WORDS * row as usize
}

/// Where the words of a list begin, behind so many rows: the place of its head's link.
pub fn list_place(rows: u64, list: u32) -> usize
    requires { head_of rows list < 2 ^ 63 }
    ensures { result ≡ head_of rows list }
{
    ROWS_FROM + ROW_WORDS * rows as usize + LIST_WORDS * list as usize
}

/// Where the state word of a row stands.
pub fn state_place(row: u64) -> usize
    requires { state_of row < 2 ^ 63 }
    ensures { result ≡ state_of row }
{
    row_place(row) + STATE_AT
}

/// Where the tail of a list stands, behind so many rows.
pub fn tail_place(rows: u64, list: u32) -> usize
    requires { tail_of rows list < 2 ^ 63 }
    ensures { result ≡ tail_of rows list }
{
    list_place(rows, list) + TAIL_AT
}

/// Where the mark of a list stands, behind so many rows.
pub fn mark_place(rows: u64, list: u32) -> usize
    requires { mark_of rows list < 2 ^ 63 }
    ensures { result ≡ mark_of rows list }
{
    list_place(rows, list) + MARK_AT
}

/// Where the count of a list stands, behind so many rows.
pub fn count_place(rows: u64, list: u32) -> usize
    requires { count_of rows list < 2 ^ 63 }
    ensures { result ≡ count_of rows list }
{
    list_place(rows, list) + COUNT_AT
}

/// Where the bell of a consumer at a list stands, behind so many rows.
pub fn bell_place(rows: u64, list: u32, consumer: u32) -> usize
    requires { bell_of rows consumer list < 2 ^ 63 }
    ensures { result ≡ bell_of rows consumer list }
{
    list_place(rows, list) + BELLS_AT + consumer as usize
}

/// Where the link of a node stands, in a table of so many rows.
pub fn link_place(rows: u64, node: Node) -> usize
    requires { link_of rows node < 2 ^ 63 }
    ensures { result ≡ link_of rows node }
{
    match node {
        Node::Head(list) => list_place(rows, list),
        Node::Row(row) => row_place(row),
    }
}

/// Where a draft word of a row stands.
pub fn draft_place(row: u64, word: DraftWord) -> usize
    requires { draft_of row word < 2 ^ 63 }
    ensures { result ≡ draft_of row word }
{
    match word {
        DraftWord::Mask => row_place(row) + MASK_AT,
        DraftWord::Place => row_place(row) + PLACE_AT,
        DraftWord::Ident => row_place(row) + IDENT_AT,
        DraftWord::Size => row_place(row) + SIZE_AT,
        DraftWord::List => row_place(row) + LIST_AT,
    }
}

/// Where the word of a name stands, in a table of so many rows.
#[inline(always)]
pub fn word_place(rows: u64, name: WordName) -> usize
    requires { place_of_word rows name < 2 ^ 63 }
    ensures { result ≡ place_of_word rows name }
{
    match name {
        WordName::Top => TOP,
        WordName::Callers => CALLERS,
        WordName::Depth => DEPTH,
        WordName::Link(node) => link_place(rows, node),
        WordName::Tail(list) => tail_place(rows, list),
        WordName::Mark(list) => mark_place(rows, list),
        WordName::Count(list) => count_place(rows, list),
        WordName::Bell { consumer, list } => bell_place(rows, list, consumer),
        WordName::State(row) => state_place(row),
        WordName::Draft { row, word } => draft_place(row, word),
    }
}

/// The word of a state.
pub fn state_word(state: RowState) -> u64
    requires { pack_state state < 2 ^ 64 }
    ensures { result ≡ pack_state state }
{
    match state {
        RowState::Available => 1,
        RowState::Dequeued => 2,
        RowState::Deleted => 3,
        RowState::Locked(holder) => 8 * holder + 4,
        RowState::Unlocked(holder) => 8 * holder + 5,
    }
}

/// The state that a word is of. A word of no state is taken for one of them.
pub fn state_of(word: u64) -> RowState
    ensures { (s : RowState) → word ≡ pack_state s → result ≡ s }
{
    if word == 1 {
        RowState::Available
    } else if word == 2 {
        RowState::Dequeued
    } else if word == 3 {
        RowState::Deleted
    } else if word % 8 == 4 {
        RowState::Locked(word / 8)
    } else {
        RowState::Unlocked(word / 8)
    }
}

/// The row that the bell of this word was rung for; none where it was not rung.
pub fn bell_row(word: u64) -> Option<u64>
    ensures { (bell : Option Bell) → IfSome bell (λ b. b.row < most_entries) → word ≡ pack_bell bell
        → result ≡ row_rung bell }
{
    if word == NO_BELL {
        None
    } else {
        Some(word % PLACE_WORTH)
    }
}

/// The word of a tail that is this node.
pub fn node_word(node: Node) -> u64
    requires { pack_node node < 2 ^ 64 }
    ensures { result ≡ pack_node node }
{
    match node {
        Node::Head(_) => 0,
        Node::Row(row) => row + 1,
    }
}
