//! Calls that only look at the journal, or read it.
ghost use Rattle.std.specs.Prelude.{◌≡◌, ◌+◌, ◌-◌, ◌≤◌, ◌<◌, ℕ, List, [], ◌∷◌, Some, None, true, false, length, OnOk};
ghost use Rattle.history_lock.specs.Plays.{Live, Took, Owes, given};
ghost use Rattle.commit_table.specs.Outcomes.{Outcome, outcome_of};
ghost use Rattle.commit_table.specs.Tale.{commit_tale};
ghost use Rattle.commit_table.specs.Turns.{DidLook, DidRead, IsRead, Told};
ghost use Rattle.commit_table.specs.Passes.{begun_in, rest_of};
ghost use Rattle.commit_table.specs.Tables.{IsPassOf, view, begun, Same};

use crate::begun::Begun;
use crate::desk::Desk;
use crate::pass::CommitPass;
use crate::table::CommitTable;
use atomic_table::{Badge, Seat};
use byte_lists::Buffer;
use disk_core::Disk;
use history_lock::{Adding, View};
use journal_format::{DeviceFault, Event};
use std::marker::Brand;
use std::sync::Wait;
use std::{mem, thread};

/// How often the disk had failed before a call. Its caller picks it.
trait Before {
    ghost faults: { ℕ };
}

impl Before for Brand {
    ghost faults = { 0 };
}

impl<D: Disk + Drop, R: Wait + Send + Sync + Drop> CommitTable<D, R> {
    /// Waits until the ticket has an outcome, which the pass has then seen. Takes the journal and gives it back, as often
    /// as need be. Does nothing where the ticket isn't below the table's number of tickets. Takes no memory.
    pub fn settled(&self, pass: &mut CommitPass, ticket: u64)
        requires table { IsPassOf self.now pass.old }
        ensures same { Same pass.old pass.new }
        ensures share { pass.new.share ≡ pass.old.share }
        ensures nothing { self.now.tickets ≤ ticket → pass.new ≡ pass.old }
        ensures looked { ticket < self.now.tickets →
            DidLook D.seen D.images D.moment D.since D.trail D.faults D.syncs
            (view pass.old) (view pass.new) }
        ensures outcome { ticket < self.now.tickets →
            (o : Outcome) × (outcome_of (begun pass.new).gate (view pass.new).seen ticket ≡ Some o) }
    {
        if ticket >= self.tickets {
            return;
        }
        let mut seat = mem::replace(&mut pass.badge, Badge::blank()).into_seat::<Option<Desk<D>>>();
        self.look_until(&mut seat, ticket, pass.caller);
        pass.badge = seat.into_badge();
    }

    // Looks until more tickets have outcomes than this one's number.
    fn look_until(
        &self,
        seat: &mut Seat<Option<Desk<D>>, View<Begun, Event>>,
        ticket: u64,
        caller: u64,
    )
        requires table { seat.old.table_id ≡ self.now.lock.table.shared.table_id }
        requires live { (seat.old.me.0.opening ≡ Some (begun_in seat.old.me.0))
            × (seat.old.me.0.callers ≡ caller ∷ rest_of seat.old.me.0.callers) }
        requires idle { (seat.old.me.1 ≡ []) × (seat.old.me.0.holding ≡ false) }
        ensures table { (seat.new.table_id ≡ seat.old.table_id) × (seat.new.id ≡ seat.old.id) }
        ensures out { seat.new.me.1 ≡ [] }
        ensures looked { DidLook D.seen D.images D.moment D.since D.trail D.faults D.syncs
            seat.old.me.0 seat.new.me.0 }
        ensures outcome { (o : Outcome) ×
            (outcome_of (begun_in seat.new.me.0).gate seat.new.me.0.seen ticket ≡ Some o) }
    {
        'waiting: for _ in self.rt.forever() {
            if self.look(seat, caller) > ticket {
                return;
            }
            thread::yield_now();
        }
        unreachable!()
    }

    // Takes the journal and gives it back. Answers how many tickets have outcomes.
    fn look(&self, seat: &mut Seat<Option<Desk<D>>, View<Begun, Event>>, caller: u64) -> u64
        requires table { seat.old.table_id ≡ self.now.lock.table.shared.table_id }
        requires live { (seat.old.me.0.opening ≡ Some (begun_in seat.old.me.0))
            × (seat.old.me.0.callers ≡ caller ∷ rest_of seat.old.me.0.callers) }
        requires idle { (seat.old.me.1 ≡ []) × (seat.old.me.0.holding ≡ false) }
        ensures table { (seat.new.table_id ≡ seat.old.table_id) × (seat.new.id ≡ seat.old.id) }
        ensures out { seat.new.me.1 ≡ [] }
        ensures looked { DidLook D.seen D.images D.moment D.since D.trail D.faults D.syncs
            seat.old.me.0 seat.new.me.0 }
        ensures outcomes { (ticket : ℕ) → ticket < result → (o : Outcome) ×
            (outcome_of (begun_in seat.new.me.0).gate seat.new.me.0.seen ticket ≡ Some o) }
    {
        let _caller = caller;
        let desk = self.lock.lock(&self.rt, seat);
        let count = desk.count;
        self.lock.unlock::<Brand>(seat, desk);
        count
    }

    /// Makes `into` hold `len` bytes, for which it has to have room: those that a read gives from `at` on, and zeros for
    /// what is past the end. Waits for the journal. DeviceFault comes only where a call of the disk failed, and then,
    /// and only then, the caller's Lost stands at the end of the history; `into` may hold anything. Takes no memory.
    pub fn read_body(
        &self,
        pass: &mut CommitPass,
        at: u64,
        into: &mut Buffer,
        len: u32,
    ) -> Result<(), DeviceFault>
        requires table { IsPassOf self.now pass.old }
        requires room { len ≤ into.old.room }
        ensures same { Same pass.old pass.new }
        ensures share { pass.new.share ≡ pass.old.share }
        ensures read { DidRead D.seen D.images D.moment D.since D.trail D.faults D.syncs
            (begun pass.old) pass.old.caller at len result into.new.bytes
            (view pass.old) (view pass.new) }
        ensures len { OnOk result (length into.new.bytes ≡ len) }
        ensures room { into.old.room ≤ into.new.room }
    {
        let mut seat = mem::replace(&mut pass.badge, Badge::blank()).into_seat::<Option<Desk<D>>>();
        let answer = self.read_at(&mut seat, at, into, len, pass.caller);
        pass.badge = seat.into_badge();
        answer
    }

    // Takes the journal, and reads.
    fn read_at(
        &self,
        seat: &mut Seat<Option<Desk<D>>, View<Begun, Event>>,
        at: u64,
        into: &mut Buffer,
        len: u32,
        caller: u64,
    ) -> Result<(), DeviceFault>
        requires table { seat.old.table_id ≡ self.now.lock.table.shared.table_id }
        requires live { (seat.old.me.0.opening ≡ Some (begun_in seat.old.me.0))
            × (seat.old.me.0.callers ≡ caller ∷ rest_of seat.old.me.0.callers) }
        requires idle { (seat.old.me.1 ≡ []) × (seat.old.me.0.holding ≡ false) }
        requires room { len ≤ into.old.room }
        ensures table { (seat.new.table_id ≡ seat.old.table_id) × (seat.new.id ≡ seat.old.id) }
        ensures out { seat.new.me.1 ≡ [] }
        ensures read { DidRead D.seen D.images D.moment D.since D.trail D.faults D.syncs
            (begun_in seat.old.me.0) caller at len result into.new.bytes
            seat.old.me.0 seat.new.me.0 }
        ensures len { OnOk result (length into.new.bytes ≡ len) }
        ensures room { into.old.room ≤ into.new.room }
    {
        let desk = self.lock.lock(&self.rt, seat);
        self.read_on::<Brand>(seat, desk, at, into, len, caller)
    }

    // Reads on the desk, and gives it back.
    fn read_on<B: Before>(
        &self,
        seat: &mut Seat<Option<Desk<D>>, View<Begun, Event>>,
        desk: Desk<D>,
        at: u64,
        into: &mut Buffer,
        len: u32,
        caller: u64,
    ) -> Result<(), DeviceFault>
        requires table { seat.old.table_id ≡ self.now.lock.table.shared.table_id }
        requires before { B.faults ≡ D.faults desk.journal.disk }
        requires live { (seat.old.me.0.opening ≡ Some (begun_in seat.old.me.0))
            × (seat.old.me.0.callers ≡ caller ∷ rest_of seat.old.me.0.callers) }
        requires out { seat.old.me.1 ≡ (0, None) ∷ [] }
        requires took { (v : View Begun Event) ×
            Took (commit_tale D.seen D.images D.moment D.since D.trail D.faults D.syncs)
            (begun_in seat.old.me.0) v seat.old.me.0 desk }
        requires room { len ≤ into.old.room }
        ensures table { (seat.new.table_id ≡ seat.old.table_id) × (seat.new.id ≡ seat.old.id) }
        ensures out { seat.new.me.1 ≡ [] }
        ensures told { Told caller result seat.old.me.0 seat.new.me.0 }
        ensures read { OnOk result
            (IsRead D.seen D.images D.moment D.since D.trail D.faults D.syncs
            (begun_in seat.old.me.0) seat.old.me.0.seen at len into.new.bytes) }
        ensures len { OnOk result (length into.new.bytes ≡ len) }
        ensures room { into.old.room ≤ into.new.room }
    {
        let mut desk = desk;
        let answer = desk.read_body(at, into, len);
        self.put_read::<Brand>(seat, desk, caller, &answer);
        answer
    }

    // Gives the desk back with the events of a read.
    fn put_read<I: Adding<Event>>(
        &self,
        seat: &mut Seat<Option<Desk<D>>, View<Begun, Event>>,
        desk: Desk<D>,
        caller: u64,
        answer: &Result<(), DeviceFault>,
    )
        requires table { seat.old.table_id ≡ self.now.lock.table.shared.table_id }
        requires out { (seat.old.me.1 ≡ (0, None) ∷ []) × (seat.old.me.0.holding ≡ true) }
        requires owes { (b : Begun) × (l : Live b seat.old.me.0) ×
            Owes (commit_tale D.seen D.images D.moment D.since D.trail D.faults D.syncs)
            b l.caller seat.old.me.0 desk I.events I.allowance I.share }
        ensures table { (seat.new.table_id ≡ seat.old.table_id) × (seat.new.id ≡ seat.old.id) }
        ensures gave { seat.new.me ≡ (given I.events I.allowance I.share seat.old.me.0, []) }
    {
        let _caller = caller;
        let _answer = answer;
        self.lock.unlock::<I>(seat, desk);
    }
}
