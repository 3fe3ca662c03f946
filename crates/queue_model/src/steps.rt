//! Single steps on the words of a queue that is kept as lists of linked rows. Each step reads or changes
//! one word. docs/QUEUE-MODEL.md, "The words of a linked queue", says what each word stands for.
use crate::rows::RowState;

/// Where a link stands: at the head of a list, or at a row.
#[derive(Clone, Copy, Debug)]
pub enum Node {
    /// The head of this list.
    Head(u32),
    /// This row.
    Row(u64),
}

/// What a row's drawer writes down before the row is linked.
#[derive(Clone, Copy, Debug)]
pub enum DraftWord {
    /// The mask of the row's slip.
    Mask,
    /// The place that the row will have in its list.
    Place,
    /// The id of the row's slip.
    Ident,
    /// The size of the row's slip.
    Size,
    /// The list of the row's slip.
    List,
}

/// A change of a row's state. Each is the act of the same name.
#[derive(Clone, Copy, Debug)]
pub enum Change {
    /// From Available to Locked.
    Acq,
    /// From the caller's own Unlocked to Locked.
    Lock,
    /// From Locked to Unlocked.
    Unlock,
    /// From anyone's Unlocked to Locked.
    Steal,
    /// From Locked to Available.
    Rel,
    /// From Locked to Dequeued.
    Deq,
    /// From Dequeued to Deleted.
    Del,
}

/// The name of a word.
#[derive(Clone, Copy, Debug)]
pub enum WordName {
    /// How many rows were drawn.
    Top,
    /// How many callers were made.
    Callers,
    /// The entries and the bytes of the depth.
    Depth,
    /// The row that comes behind this node.
    Link(Node),
    /// A node of this list from which a search for its end may begin.
    Tail(u32),
    /// A place of this list up to which links were put right.
    Mark(u32),
    /// How many rows of this list were deleted since it was last put right.
    Count(u32),
    /// The bell of a consumer at a list.
    Bell { consumer: u32, list: u32 },
    /// The state of this row.
    State(u64),
    /// What the row's drawer wrote down.
    Draft { row: u64, word: DraftWord },
}

/// One step on one word.
#[derive(Clone, Copy, Debug)]
pub enum Step {
    /// Draws the next row that nobody drew, if one is left.
    Draw,
    /// Stores a word of a row that the caller drew.
    Draft {
        row: u64,
        word: DraftWord,
        value: u64,
    },
    /// Links a row that the caller drew behind a node whose link is empty.
    Link {
        row: u64,
        after: Node,
    },
    /// Moves the tail of a list on to a later row, where it is still the node `from`.
    HelpTail {
        list: u32,
        from: Node,
        to: Node,
    },
    /// Reads a word.
    Load {
        word: WordName,
    },
    /// Changes the state of a row, where it is still `from`.
    State {
        row: u64,
        change: Change,
        from: RowState,
    },
    /// Moves the link of a node from a deleted row on to a later row of its list, where it still names the
    /// deleted one. Each row between the two is deleted.
    Unlink {
        at: Node,
        from: u64,
        to: u64,
    },
    /// Rings the bell of a consumer for a row, at the row's list. Of the bell that was rung before and this one
    /// the earlier stands.
    Ring {
        consumer: u32,
        row: u64,
    },
    /// Takes the bell of a consumer at a list, whether it was rung or not.
    TakeBell {
        consumer: u32,
        list: u32,
    },
    /// Raises the mark of a list to the place of a row, where that is greater.
    Mark {
        list: u32,
        place: u64,
    },
    /// Adds one to the count of a list. Behind the greatest number it begins again at 0.
    Count {
        list: u32,
    },
    /// Sets the count of a list back to 0.
    Reset {
        list: u32,
    },
    /// Adds an entry of this size to the depth.
    Reserve {
        size: u64,
    },
    /// Takes an entry of this size out of the depth.
    GiveBack {
        size: u64,
    },
}

/// A step that a caller tried, and what it was shown.
#[derive(Clone, Copy, Debug)]
pub struct Tried {
    /// The step.
    pub step: Step,
    /// What the word held before the step.
    pub before: u64,
    /// What the word held after the step; the same where the step changed nothing.
    pub later: u64,
    /// How many deeds of the queue's history the caller knew just after the step, its own among them.
    pub length: u64,
}
