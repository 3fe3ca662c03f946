//! Tables that are made, with the entries that they start with.
ghost use Rattle.std.specs.Prelude.{true, ◌≡◌, ℕ, ◌<◌, ◌≤◌, ◌+◌, ◌-◌, IfOk, [], ◌∷◌, ◌++◌, None, vec_len, length};
ghost use Rattle.queue_model.specs.Table.{most_entries};
ghost use Rattle.entry_table.specs.Views.{rest_of, drawing_at};
ghost use Rattle.entry_table.specs.Rule.{boss};
ghost use Rattle.entry_table.specs.Plays.{IsDrawnBy, opened_view};
ghost use Rattle.entry_table.specs.Passes.{IsPassOf, view};
ghost use Rattle.entry_table.specs.Starting.{AllMayStart, IsMade, IsLaid, CanLay, DidLay, Wrote, node_of};

use crate::draft::{Draft, Drawn, Linking};
use crate::entries::Entries;
use crate::pass::Pass;
use crate::plays::Opens;
use crate::view::{Shape, View};
use acts_core::Freight;
use atomic_table::{Badge, Seat, Table};
use byte_lists::NoMemory;
use link_core::fresh_words;
use link_core::places::CALLERS;
use queue_model::{DraftWord, Node, Slip};
use std::alloc::{AllocError, Global};
use std::mem;

/// The greatest number of lists.
const MOST_LISTS: usize = 10;

/// The node that a number names: 0 the head of the list, else the row of which it is the number plus 1.
fn node_at(list: u32, stop: u64) -> Node
    ensures { result ≡ node_of list stop }
{
    if stop == 0 {
        Node::Head(list)
    } else {
        Node::Row(stop - 1)
    }
}

impl<C: Freight> Entries<C> {
    /// Makes a table of so many lists, rows and consumers, which starts with these entries, available and in
    /// their order, and the pass of its boss, which has all consumers and may reserve and draw what the
    /// entries leave. Without memory the entries are dropped.
    pub fn make(
        alloc: Global,
        lists: u32,
        rows: u64,
        consumers: u32,
        start: Vec<(Slip, C)>,
    ) -> Result<(Entries<C>, Pass), NoMemory>
        requires lists { (0 < lists) × (lists ≤ 10) }
        requires rows { (0 < rows) × (rows ≤ most_entries) }
        requires consumers { consumers ≤ 64 }
        requires room { vec_len start ≤ rows }
        requires start { AllMayStart C.goods lists consumers start.items }
        ensures { IfOk result (λ r. IsMade C.goods lists rows consumers start.items r.0 r.1) }
    {
        let shape = Shape {
            rows,
            lists,
            consumers,
        };
        match Self::blank(alloc, shape) {
            Ok((entries, pass)) => Ok(entries.opened(pass, start)),
            Err(_) => Err(NoMemory),
        }
    }

    // A table with no row, and the pass of the boss.
    fn blank(alloc: Global, shape: Shape) -> Result<(Entries<C>, Pass), AllocError>
        requires lists { shape.lists ≤ 10 }
        requires rows { shape.rows ≤ most_entries }
        requires consumers { shape.consumers ≤ 64 }
        ensures table { IfOk result (λ r. IsPassOf r.0 r.1) }
        ensures shape { IfOk result (λ r. r.0.shape ≡ shape) }
        ensures view { IfOk result (λ r. view r.1 ≡ boss shape) }
        ensures caller { IfOk result (λ r. r.1.caller ≡ 0) }
    {
        let rest = Vec::with_capacity(alloc, shape.rows as usize)?;
        let words = fresh_words(alloc, 1, shape.rows, shape.lists)?;
        let (table, seat) = Table::vacant(alloc, words.as_slice(), shape.rows as usize, &shape)?;
        let entries = Entries { table, shape, rest };
        let pass = Pass {
            badge: seat.into_badge(),
            caller: 0,
            share: shape.rows,
            top: 0,
        };
        Ok((entries, pass))
    }

    // The table with these entries laid down, as its opening.
    fn opened(self, pass: Pass, start: Vec<(Slip, C)>) -> (Entries<C>, Pass)
        requires table { IsPassOf self pass }
        requires view { view pass ≡ boss self.shape }
        requires caller { pass.caller ≡ 0 }
        requires room { vec_len start ≤ self.shape.rows }
        requires start { AllMayStart C.goods self.shape.lists self.shape.consumers start.items }
        ensures { IsMade C.goods self.shape.lists self.shape.rows self.shape.consumers start.items
            result.0 result.1 }
    {
        let mut pass = pass;
        self.lay_all(&mut pass, start);
        self.open(&mut pass);
        (self, pass)
    }

    // What the pass has seen becomes the opening.
    fn open(&self, pass: &mut Pass)
        requires table { IsPassOf self.now pass.old }
        requires alone { (view pass.old).alone ≡ true }
        ensures table { IsPassOf self.now pass.new }
        ensures caller { pass.new.caller ≡ pass.old.caller }
        ensures view { view pass.new ≡ opened_view (view pass.old) }
    {
        let mut seat = mem::replace(&mut pass.badge, Badge::blank()).into_seat::<Option<C>>();
        self.open_at(&mut seat, pass.caller);
        pass.badge = seat.into_badge();
    }

    fn open_at(&self, seat: &mut Seat<Option<C>, View>, caller: u64)
        requires table { seat.old.table_id ≡ self.now.table.shared.table_id }
        requires caller { seat.old.me.0.callers ≡ caller ∷ rest_of seat.old.me.0.callers }
        requires idle { seat.old.me.0.slot ≡ None }
        requires alone { seat.old.me.0.alone ≡ true }
        ensures table { (seat.new.table_id ≡ seat.old.table_id) × (seat.new.id ≡ seat.old.id) }
        ensures view { seat.new.me ≡ (opened_view seat.old.me.0, seat.old.me.1) }
    {
        let _caller = caller;
        self.table.shared.load::<Opens>(seat, CALLERS);
    }

    // Lays all entries down, in their order.
    fn lay_all(&self, pass: &mut Pass, start: Vec<(Slip, C)>)
        requires table { IsPassOf self.now pass.old }
        requires view { view pass.old ≡ boss self.now.shape }
        requires caller { pass.old.caller ≡ 0 }
        requires room { vec_len start ≤ self.now.shape.rows }
        requires start { AllMayStart C.goods self.now.shape.lists self.now.shape.consumers
            start.items }
        ensures table { IsPassOf self.now pass.new }
        ensures caller { pass.new.caller ≡ 0 }
        ensures laid { IsLaid C.goods start.items (view pass.new) }
    {
        let mut rest = start;
        rest.as_mut_slice().reverse();
        let mut stops = [0u64; MOST_LISTS];
        let mut places = [0u64; MOST_LISTS];
        'entries: while let Some((slip, cargo)) = rest.pop() {
            let list = slip.list as usize;
            let row = self.lay(pass, stops[list], places[list], slip, cargo);
            stops[list] = row + 1;
            places[list] += 1;
        }
    }

    // Lays one entry down behind the last node of its list, which has so many rows, and answers its row.
    fn lay(&self, pass: &mut Pass, stop: u64, place: u64, slip: Slip, cargo: C) -> u64
        requires table { IsPassOf self.now pass.old }
        requires caller { pass.old.caller ≡ 0 }
        requires can { CanLay C.goods (view pass.old) stop place slip cargo }
        ensures table { IsPassOf self.now pass.new }
        ensures caller { pass.new.caller ≡ 0 }
        ensures low { result < most_entries }
        ensures laid { DidLay C.goods (view pass.old) (view pass.new) slip cargo result }
    {
        self.reserve_depth(pass, slip.size);
        let Drawn::Row(mut draft) = self.draw_row(pass, cargo) else {
            unreachable!()
        };
        self.write(pass, &mut draft, place, &slip);
        let row = draft.row;
        match self.try_link(pass, draft, node_at(slip.list, stop)) {
            Linking::Linked => row,
            Linking::Behind(_, _) => unreachable!(),
        }
    }

    // Writes all draft words of a row that the pass drew.
    fn write(&self, pass: &mut Pass, draft: &mut Draft<C>, place: u64, slip: &Slip)
        requires table { IsPassOf self.now pass.old }
        requires draft { IsDrawnBy (view pass.old) draft.old.row }
        ensures table { IsPassOf self.now pass.new }
        ensures caller { pass.new.caller ≡ pass.old.caller }
        ensures same { (draft.new.row ≡ draft.old.row) × (draft.new.cargo ≡ draft.old.cargo) }
        ensures wrote { Wrote (view pass.old) (view pass.new) draft.old.row place slip.now }
    {
        self.store_draft(pass, draft, DraftWord::Mask, slip.mask);
        self.store_draft(pass, draft, DraftWord::Place, place);
        self.store_draft(pass, draft, DraftWord::Ident, slip.id);
        self.store_draft(pass, draft, DraftWord::Size, slip.size);
        self.store_draft(pass, draft, DraftWord::List, slip.list as u64);
    }
}
