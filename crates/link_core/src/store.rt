//! The vectors that keep the words, and what a step that fits does to them.
ghost use Rattle.std.specs.Prelude.{◌≡◌, ◌+◌, ◌-◌, ◌<◌, ◌≤◌, ◌^◌, ℕ, true, length, slice_index, slice_index_or, OnErr};
ghost use Rattle.link_core.specs.Advanced.{Advances};
ghost use Rattle.link_core.specs.Kept.{drawers_of, IsKept, IsLong, SetsBelow, table_in};
ghost use Rattle.link_core.specs.Steps.{bell_word, changed_by, drawer_after, Fits, goes_to, hits, list_in, place_of_step, reserves_after, shown, size_in, word_after};
ghost use Rattle.link_core.specs.Table.{IsLinked};
ghost use Rattle.queue_model.specs.declared.queues.Reservation.{Reservation};
ghost use Rattle.queue_model.specs.Table.{with_less, with_more};

use crate::places::{
    DEPTH, TOP, bell_place, count_place, draft_place, link_place, mark_place, node_word, state_place,
    state_word, tail_place, word_place,
};
use crate::stepping::Unfit;
use queue_model::{
    Change, DraftWord, ENTRY_WORTH, NO_BELL, PLACE_WORTH, Reservation, RowState, Step,
};

/// The words in their order, the drawer of each row that is not linked, and what each caller has reserved.
#[derive(Debug, Drop)]
pub(crate) struct Store {
    pub(crate) rows: u64,
    pub(crate) lists: u32,
    pub(crate) consumers: u32,
    pub(crate) callers: u64,
    pub(crate) words: Vec<u64>,
    pub(crate) drawers: Vec<Option<u64>>,
    pub(crate) entries: Vec<u64>,
    pub(crate) bytes: Vec<u64>,
}

/// With one entry of this size more.
fn with_more(held: Reservation, size: u64) -> Reservation
    requires entries { held.entries + 1 < 2 ^ 64 }
    requires bytes { held.bytes + size < 2 ^ 64 }
    ensures { result ≡ with_more held size }
{
    Reservation {
        holder: held.holder,
        entries: held.entries + 1,
        bytes: held.bytes + size,
    }
}

/// With one entry of this size less.
fn with_less(held: Reservation, size: u64) -> Reservation
    requires entries { 0 < held.entries }
    requires bytes { size ≤ held.bytes }
    ensures { result ≡ with_less held size }
{
    Reservation {
        holder: held.holder,
        entries: held.entries - 1,
        bytes: held.bytes - size,
    }
}

/// The state that a change leads to.
fn goes_to(caller: u64, change: Change) -> RowState
    ensures { result ≡ goes_to caller change }
{
    match change {
        Change::Acq => RowState::Locked(caller),
        Change::Lock => RowState::Locked(caller),
        Change::Unlock => RowState::Unlocked(caller),
        Change::Steal => RowState::Locked(caller),
        Change::Rel => RowState::Available,
        Change::Deq => RowState::Dequeued,
        Change::Del => RowState::Deleted,
    }
}

impl Store {
    /// The word at a place.
    pub(crate) fn word(&self, at: usize) -> u64
        requires { at < length self.now.words.items }
        ensures { result ≡ slice_index self.now.words.items at }
    {
        self.words[at]
    }

    /// Who drew the row, where it is not linked.
    pub(crate) fn drawer(&self, row: u64) -> Option<u64>
        requires { row < length self.now.drawers.items }
        ensures { result ≡ (table_in self.now).drawer row }
    {
        self.drawers[row as usize]
    }

    /// What a caller has reserved.
    pub(crate) fn reserved(&self, caller: u64) -> Reservation
        requires entries { caller < length self.now.entries.items }
        requires bytes { caller < length self.now.bytes.items }
        ensures { result ≡ (table_in self.now).reserved caller }
    {
        Reservation {
            holder: caller,
            entries: self.entries[caller as usize],
            bytes: self.bytes[caller as usize],
        }
    }

    /// The list that the drawer of a linked row wrote down.
    fn list(&self, row: u64) -> u32
        requires kept { IsKept self.now }
        requires row { IsLinked (table_in self.now) row }
        ensures { result ≡ list_in (table_in self.now) row }
    {
        let _lists = self.lists;
        self.draft(row, DraftWord::List) as u32
    }

    /// Where the word of a step stands.
    fn step_place(&self, caller: u64, step: Step) -> usize
        requires kept { IsKept self.now }
        requires fits { Fits (table_in self.now) caller step }
        ensures place { result ≡ place_of_step self.now.rows self.now.words.items step }
        ensures low { result < length self.now.words.items }
    {
        let _ = caller;
        let rows = self.rows;
        match step {
            Step::Draw => TOP,
            Step::Draft { row, word, .. } => draft_place(row, word),
            Step::Link { after, .. } => link_place(rows, after),
            Step::HelpTail { list, .. } => tail_place(rows, list),
            Step::Load { word } => word_place(rows, word),
            Step::State { row, .. } => state_place(row),
            Step::Unlink { at, .. } => link_place(rows, at),
            Step::Ring { consumer, row } => bell_place(rows, self.list(row), consumer),
            Step::TakeBell { consumer, list } => bell_place(rows, list, consumer),
            Step::Mark { list, .. } => mark_place(rows, list),
            Step::Count { list } => count_place(rows, list),
            Step::Reset { list } => count_place(rows, list),
            Step::Reserve { .. } => DEPTH,
            Step::GiveBack { .. } => DEPTH,
        }
    }

    /// The word that a step shows.
    pub(crate) fn shown(&self, caller: u64, step: Step) -> u64
        requires kept { IsKept self.now }
        requires fits { Fits (table_in self.now) caller step }
        ensures { result ≡ shown (table_in self.now) step }
    {
        self.word(self.step_place(caller, step))
    }

    /// Whether a step is done, or only shows a word.
    pub(crate) fn hits(&self, caller: u64, step: Step) -> bool
        requires kept { IsKept self.now }
        requires fits { Fits (table_in self.now) caller step }
        ensures { result ≡ hits (table_in self.now) step }
    {
        let found = self.shown(caller, step);
        match step {
            Step::Draw => found < self.rows,
            Step::Draft { .. } => true,
            Step::Link { .. } => found == 0,
            Step::HelpTail { from, .. } => found == node_word(from),
            Step::Load { .. } => false,
            Step::State { from, .. } => found == state_word(from),
            Step::Unlink { from, .. } => found == from + 1,
            Step::Ring { .. } => true,
            Step::TakeBell { .. } => true,
            Step::Mark { place, .. } => found < place,
            Step::Count { .. } => true,
            Step::Reset { .. } => true,
            Step::Reserve { .. } => true,
            Step::GiveBack { .. } => true,
        }
    }

    /// The size that the drawer of a row wrote down.
    fn size(&self, row: u64) -> u64
        requires kept { IsKept self.now }
        requires row { row < self.now.rows }
        ensures { result ≡ size_in (table_in self.now) row }
    {
        self.draft(row, DraftWord::Size)
    }

    /// The word of a bell that rings for a linked row.
    fn bell_word(&self, row: u64) -> u64
        requires kept { IsKept self.now }
        requires row { IsLinked (table_in self.now) row }
        ensures { result ≡ bell_word (table_in self.now) row }
    {
        self.draft(row, DraftWord::Place) * PLACE_WORTH + row
    }

    /// The word that a step leaves where it is done.
    fn word_after(&self, caller: u64, step: Step) -> u64
        requires kept { IsKept self.now }
        requires caller { caller < self.now.callers }
        requires fits { Fits (table_in self.now) caller step }
        ensures { result ≡ word_after (table_in self.now) caller step }
    {
        let found = self.shown(caller, step);
        match step {
            Step::Draw => found + 1,
            Step::Draft { value, .. } => value,
            Step::Link { row, .. } => row + 1,
            Step::HelpTail { to, .. } => node_word(to),
            Step::Load { .. } => found,
            Step::State { change, .. } => state_word(goes_to(caller, change)),
            Step::Unlink { to, .. } => to + 1,
            Step::Ring { row, .. } => found.min(self.bell_word(row)),
            Step::TakeBell { .. } => NO_BELL,
            Step::Mark { place, .. } => place,
            Step::Count { .. } => found.wrapping_add(1),
            Step::Reset { .. } => 0,
            Step::Reserve { size } => found + (ENTRY_WORTH + size),
            Step::GiveBack { size } => found - (ENTRY_WORTH + size),
        }
    }

    /// What the caller has reserved after a step that is done.
    fn reserves_after(&self, caller: u64, step: Step) -> Reservation
        requires kept { IsKept self.now }
        requires caller { caller < self.now.callers }
        requires fits { Fits (table_in self.now) caller step }
        ensures { result ≡ reserves_after (table_in self.now) caller step }
    {
        let held = self.reserved(caller);
        match step {
            Step::Link { row, .. } => with_less(held, self.size(row)),
            Step::State {
                row,
                change: Change::Deq,
                ..
            } => with_more(held, self.size(row)),
            Step::Reserve { size } => with_more(held, size),
            Step::GiveBack { size } => with_less(held, size),
            _ => held,
        }
    }

    /// Does a step that fits and is more than a load.
    pub(crate) fn change(&mut self, caller: u64, step: Step)
        requires kept { IsKept self.old }
        requires caller { caller < self.old.callers }
        requires fits { Fits (table_in self.old) caller step }
        requires hits { hits (table_in self.old) step ≡ true }
        ensures table { table_in self.new ≡ changed_by (table_in self.old) caller step }
        ensures long { IsLong self.new }
    {
        let reserved = self.reserves_after(caller, step);
        let word = self.word_after(caller, step);
        let place = self.step_place(caller, step);
        let next = self.word(TOP);
        set_drawer(&mut self.drawers, next, caller, step);
        self.words[place] = word;
        self.entries[caller as usize] = reserved.entries;
        self.bytes[caller as usize] = reserved.bytes;
    }
}

impl Store {
    /// Does one step of a caller, where it fits.
    pub(crate) fn advance(&mut self, caller: u64, step: Step) -> Result<u64, Unfit>
        requires { IsKept self.old }
        ensures advances { Advances result (table_in self.old) (table_in self.new) caller step }
        ensures err { OnErr result (self.new ≡ self.old) }
        ensures long { IsLong self.new }
    {
        if caller >= self.callers || !self.fits(caller, step) {
            return Err(Unfit);
        }
        let shown = self.shown(caller, step);
        if self.hits(caller, step) {
            self.change(caller, step);
        }
        Ok(shown)
    }
}

/// Sets the drawer that a step sets, if any. The next row to be drawn is given.
fn set_drawer(drawers: &mut Vec<Option<u64>>, next: u64, caller: u64, step: Step)
    requires { SetsBelow (length drawers.old.items) next step }
    ensures drawers { drawers_of drawers.new.items ≡ drawer_after (drawers_of drawers.old.items) next caller step }
    ensures long { length drawers.new.items ≡ length drawers.old.items }
{
    match step {
        Step::Draw => drawers[next as usize] = Some(caller),
        Step::Link { row, .. } => drawers[row as usize] = None,
        _ => {}
    }
}
