//! Whether a step fits the words.
ghost use Rattle.std.specs.Prelude.{◌≡◌, ◌/◌, ◌<◌, ◌≤◌, ◌^◌, ◌↔◌, ℕ, IsTrue, length, slice_index};
ghost use Rattle.queue_model.specs.Table.{most_entries};
ghost use Rattle.link_core.specs.declared.places.TheConstants.{DEPTH};
ghost use Rattle.link_core.specs.Kept.{IsKept, table_in};
ghost use Rattle.link_core.specs.Layout.{draft_of};
ghost use Rattle.queue_model.specs.Packing.{entry_worth};
ghost use Rattle.link_core.specs.Steps.{AreGone, Fits, FitsHelp, FitsHelpTo, FitsBehind, FitsLink, FitsMark, FitsRing, FitsState, FitsUnlink, GoesFrom, IsBetween, IsGone, IsGoneBetween, IsLinkedAt, HasWord, IsBehind, IsDrawnBy, IsPackable, place_behind, place_in};
ghost use Rattle.link_core.specs.Table.{IsLinked, IsNode, list_of_node};

use crate::places::{DEPTH, TOP, draft_place, state_place, state_word};
use crate::store::Store;
use byte_lists::MOST_BYTES;
use queue_model::{
    Change, DraftWord, ENTRY_WORTH, MOST_ENTRIES, Node, RowState, Step, WordName, fits_mask,
};

/// Whether a change goes on from this state, for this caller.
fn goes_from(caller: u64, change: Change, from: RowState) -> bool
    ensures { IsTrue result ↔ GoesFrom caller change from }
{
    match change {
        Change::Acq => from == RowState::Available,
        Change::Lock => from == RowState::Unlocked(caller),
        Change::Unlock => from == RowState::Locked(caller),
        Change::Steal => matches!(from, RowState::Unlocked(_)),
        Change::Rel => from == RowState::Locked(caller),
        Change::Deq => from == RowState::Locked(caller),
        Change::Del => from == RowState::Dequeued,
    }
}

/// Whether a caller that the state names is low enough for the state to be packed.
fn is_packable(state: RowState) -> bool
    ensures { IsTrue result ↔ IsPackable state }
{
    match state {
        RowState::Available => true,
        RowState::Locked(holder) => holder < 2_305_843_009_213_693_952,
        RowState::Unlocked(holder) => holder < 2_305_843_009_213_693_952,
        RowState::Dequeued => true,
        RowState::Deleted => true,
    }
}

impl Store {
    /// A draft word of a row.
    pub(crate) fn draft(&self, row: u64, word: DraftWord) -> u64
        requires kept { IsKept self.now }
        requires row { row < self.now.rows }
        ensures { result ≡ slice_index self.now.words.items (draft_of row word) }
    {
        self.word(draft_place(row, word))
    }

    /// Whether a row was drawn and is linked.
    fn is_linked(&self, row: u64) -> bool
        requires { IsKept self.now }
        ensures { IsTrue result ↔ IsLinked (table_in self.now) row }
    {
        row < self.word(TOP) && self.drawer(row).is_none()
    }

    /// Whether the caller drew this row, and has not linked it.
    fn is_drawn_by(&self, caller: u64, row: u64) -> bool
        requires { IsKept self.now }
        ensures { IsTrue result ↔ IsDrawnBy (table_in self.now) caller row }
    {
        row < self.rows && self.drawer(row) == Some(caller)
    }

    /// Whether a node is a head of a list that the table has, or a linked row.
    fn is_node(&self, node: Node) -> bool
        requires { IsKept self.now }
        ensures { IsTrue result ↔ IsNode (table_in self.now) node }
    {
        match node {
            Node::Head(list) => list < self.lists,
            Node::Row(row) => self.is_linked(row),
        }
    }

    /// Whether a node is in this list.
    fn is_of(&self, node: Node, list: u64) -> bool
        requires kept { IsKept self.now }
        requires node { IsNode (table_in self.now) node }
        ensures { IsTrue result ↔ (list_of_node (table_in self.now) node ≡ list) }
    {
        match node {
            Node::Head(own) => u64::from(own) == list,
            Node::Row(row) => self.draft(row, DraftWord::List) == list,
        }
    }

    /// Whether a place is right behind a node.
    fn is_next(&self, node: Node, place: u64) -> bool
        requires kept { IsKept self.now }
        requires node { IsNode (table_in self.now) node }
        ensures { IsTrue result ↔ (place ≡ place_behind (table_in self.now) node) }
    {
        match node {
            Node::Head(_) => place == 0,
            Node::Row(row) => place > 0 && place - 1 == self.draft(row, DraftWord::Place),
        }
    }

    /// Whether a place is behind a node.
    fn is_later(&self, node: Node, place: u64) -> bool
        requires kept { IsKept self.now }
        requires node { IsNode (table_in self.now) node }
        ensures { IsTrue result ↔ (place_behind (table_in self.now) node ≤ place) }
    {
        match node {
            Node::Head(_) => true,
            Node::Row(row) => self.draft(row, DraftWord::Place) < place,
        }
    }

    /// Whether the table has a word of this name.
    fn has_word(&self, name: WordName) -> bool
        ensures { IsTrue result ↔ HasWord (table_in self.now) name }
    {
        match name {
            WordName::Top => true,
            WordName::Callers => true,
            WordName::Depth => true,
            WordName::Link(Node::Head(list)) => list < self.lists,
            WordName::Link(Node::Row(row)) => row < self.rows,
            WordName::Tail(list) => list < self.lists,
            WordName::Mark(list) => list < self.lists,
            WordName::Count(list) => list < self.lists,
            WordName::Bell { consumer, list } => consumer < self.consumers && list < self.lists,
            WordName::State(row) => row < self.rows,
            WordName::Draft { row, .. } => row < self.rows,
        }
    }

    /// Whether the row is the caller's to link behind this node.
    fn fits_link(&self, caller: u64, row: u64, after: Node) -> bool
        requires kept { IsKept self.now }
        requires caller { caller < self.now.callers }
        ensures { IsTrue result ↔ FitsLink (table_in self.now) caller row after }
    {
        self.is_drawn_by(caller, row) && self.is_node(after) && self.fits_behind(caller, row, after)
    }

    /// Whether the draft words of a row fit a node and the queue, and an entry of its size is reserved.
    fn fits_behind(&self, caller: u64, row: u64, after: Node) -> bool
        requires kept { IsKept self.now }
        requires caller { caller < self.now.callers }
        requires row { row < self.now.rows }
        requires node { IsNode (table_in self.now) after }
        ensures { IsTrue result ↔ FitsBehind (table_in self.now) caller row after }
    {
        let size = self.draft(row, DraftWord::Size);
        self.is_of(after, self.draft(row, DraftWord::List))
            && self.is_next(after, self.draft(row, DraftWord::Place))
            && fits_mask(self.draft(row, DraftWord::Mask), self.consumers)
            && size <= MOST_BYTES
            && self.reserved(caller).can_give(size)
    }

    /// Whether a tail may move from one node of its list to a later row.
    fn fits_help(&self, list: u32, from: Node, row: u64) -> bool
        requires { IsKept self.now }
        ensures { IsTrue result ↔ FitsHelp (table_in self.now) list from row }
    {
        list < self.lists
            && self.is_node(from)
            && self.is_linked(row)
            && self.is_of(from, u64::from(list))
            && self.draft(row, DraftWord::List) == u64::from(list)
            && self.is_later(from, self.draft(row, DraftWord::Place))
    }

    /// Whether a linked row is deleted.
    fn is_gone(&self, row: u64) -> bool
        requires kept { IsKept self.now }
        requires row { row < self.now.rows }
        ensures { IsTrue result ↔ IsGone (table_in self.now) row }
    {
        self.word(state_place(row)) == state_word(RowState::Deleted)
    }

    /// Whether a row comes between two rows, in the list of the first.
    fn is_between(&self, from: u64, to: u64, row: u64) -> bool
        requires kept { IsKept self.now }
        requires from { from < self.now.rows }
        requires to { to < self.now.rows }
        requires row { row < self.now.rows }
        ensures { IsTrue result ↔ IsBetween (table_in self.now) from to row }
    {
        let place = self.draft(row, DraftWord::Place);
        self.draft(row, DraftWord::List) == self.draft(from, DraftWord::List)
            && self.draft(from, DraftWord::Place) < place
            && place < self.draft(to, DraftWord::Place)
    }

    /// Whether a row is deleted, if it is linked and comes between the two.
    fn is_gone_if_between(&self, from: u64, to: u64, row: u64) -> bool
        requires kept { IsKept self.now }
        requires from { from < self.now.rows }
        requires to { to < self.now.rows }
        requires row { row < self.now.rows }
        ensures { IsTrue result ↔ IsGoneBetween (table_in self.now) from to row }
    {
        if self.is_linked(row) && self.is_between(from, to, row) {
            self.is_gone(row)
        } else {
            true
        }
    }

    /// Whether each linked row between the two is deleted.
    fn are_gone(&self, from: u64, to: u64) -> bool
        requires kept { IsKept self.now }
        requires from { from < self.now.rows }
        requires to { to < self.now.rows }
        ensures { IsTrue result ↔ AreGone (table_in self.now) from to }
    {
        for row in 0..self.word(TOP) {
            if !self.is_gone_if_between(from, to, row) {
                return false;
            }
        }
        true
    }

    /// Whether the link of a node may move from one row to another.
    fn fits_unlink(&self, at: Node, from: u64, to: u64) -> bool
        requires { IsKept self.now }
        ensures { IsTrue result ↔ FitsUnlink (table_in self.now) at from to }
    {
        self.is_node(at)
            && self.is_linked(from)
            && self.is_linked(to)
            && self.is_gone(from)
            && self.draft(to, DraftWord::List) == self.draft(from, DraftWord::List)
            && self.draft(from, DraftWord::Place) < self.draft(to, DraftWord::Place)
            && self.are_gone(from, to)
    }

    /// Whether the bell of a consumer may be rung for a row.
    fn fits_ring(&self, consumer: u32, row: u64) -> bool
        requires { IsKept self.now }
        ensures { IsTrue result ↔ FitsRing (table_in self.now) consumer row }
    {
        consumer < self.consumers && self.is_linked(row)
    }

    /// Whether a row is linked, in this list at this place.
    fn is_linked_at(&self, list: u64, place: u64, row: u64) -> bool
        requires { IsKept self.now }
        ensures { IsTrue result ↔ IsLinkedAt (table_in self.now) list place row }
    {
        self.is_linked(row)
            && self.draft(row, DraftWord::List) == list
            && self.draft(row, DraftWord::Place) == place
    }

    /// Whether a row is linked in this list at this place.
    fn has_place(&self, list: u64, place: u64) -> bool
        requires { IsKept self.now }
        ensures { IsTrue result ↔ ((r : ℕ) × IsLinkedAt (table_in self.now) list place r) }
    {
        for row in 0..self.word(TOP) {
            if self.is_linked_at(list, place, row) {
                return true;
            }
        }
        false
    }

    /// Whether the mark of a list may move to a place.
    fn fits_mark(&self, list: u32, place: u64) -> bool
        requires { IsKept self.now }
        ensures { IsTrue result ↔ FitsMark (table_in self.now) list place }
    {
        list < self.lists && self.has_place(u64::from(list), place)
    }

    /// Whether the depth has fewer entries than a queue may have.
    fn has_room(&self) -> bool
        requires { IsKept self.now }
        ensures { IsTrue result ↔ (slice_index self.now.words.items DEPTH / entry_worth < most_entries) }
    {
        self.word(DEPTH) / ENTRY_WORTH < MOST_ENTRIES
    }

    /// Whether the step of a caller fits the words.
    pub(crate) fn fits(&self, caller: u64, step: Step) -> bool
        requires kept { IsKept self.now }
        requires caller { caller < self.now.callers }
        ensures { IsTrue result ↔ Fits (table_in self.now) caller step }
    {
        match step {
            Step::Draw => true,
            Step::Draft { row, .. } => self.is_drawn_by(caller, row),
            Step::Link { row, after } => self.fits_link(caller, row, after),
            Step::HelpTail {
                to: Node::Head(_),
                ..
            } => false,
            Step::HelpTail {
                list,
                from,
                to: Node::Row(row),
            } => self.fits_help(list, from, row),
            Step::Load { word } => self.has_word(word),
            Step::State { row, change, from } => {
                self.is_linked(row) && goes_from(caller, change, from) && is_packable(from)
            }
            Step::Unlink { at, from, to } => self.fits_unlink(at, from, to),
            Step::Ring { consumer, row } => self.fits_ring(consumer, row),
            Step::TakeBell { consumer, list } => consumer < self.consumers && list < self.lists,
            Step::Mark { list, place } => self.fits_mark(list, place),
            Step::Count { list } => list < self.lists,
            Step::Reset { list } => list < self.lists,
            Step::Reserve { size } => size <= MOST_BYTES && self.has_room(),
            Step::GiveBack { size } => self.reserved(caller).can_give(size),
        }
    }
}
