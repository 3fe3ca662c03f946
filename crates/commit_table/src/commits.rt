//! A commit, under the lock.
ghost use Rattle.std.specs.Prelude.{◌≡◌, ◌+◌, ◌-◌, ◌≤◌, ℕ, List, [], ◌∷◌, Some, None, true, false, length};
ghost use Rattle.journal_format.specs.Spelling.{txn_bytes};
ghost use Rattle.history_lock.specs.Plays.{Live, Took, Owes, given};
ghost use Rattle.commit_table.specs.Tale.{commit_tale};
ghost use Rattle.commit_table.specs.Turns.{DidCommit, Wrote};
ghost use Rattle.commit_table.specs.Passes.{begun_in, rest_of};
ghost use Rattle.commit_table.specs.Tables.{IsPassOf, begun, Same, Commits};

use crate::answers::{Committed, Settled};
use crate::begun::Begun;
use crate::desk::Desk;
use crate::pass::CommitPass;
use crate::table::CommitTable;
use atomic_table::{Badge, Seat};
use disk_core::Disk;
use history_lock::{Adding, View};
use journal_format::{Event, Txn};
use std::marker::Brand;
use std::mem;
use std::sync::Wait;

/// The disk's counts before a call. Its caller picks them.
trait Before {
    /// How often its `sync` was called.
    ghost syncs: { ℕ };

    /// How often a call had failed.
    ghost faults: { ℕ };
}

impl Before for Brand {
    ghost syncs = { 0 };

    ghost faults = { 0 };
}

impl<D: Disk + Drop, R: Wait + Send + Sync + Drop> CommitTable<D, R> {
    /// Commits a transaction of at least one item and at most as many bytes as the table was made for. Waits for the
    /// journal, repairs it if it is unclean, appends the transaction as a batch of its own, and gives the journal back:
    /// its Sub and its Settle then stand at the end of the history. Done takes one from the pass's share of tickets,
    /// and hands the emptied transaction back with its room. Stored tells a receipt; Failed comes only where a call of
    /// the disk failed in this repair or append. TicketsSpent comes exactly where the share is 0, and then nothing
    /// happens. Takes no memory.
    pub fn commit(&self, pass: &mut CommitPass, txn: Txn) -> Committed
        requires table { IsPassOf self.now pass.old }
        requires some { 1 ≤ length txn.items }
        requires bytes { length (txn_bytes txn.items) ≤ (begun pass.old).bytes_each }
        ensures same { Same pass.old pass.new }
        ensures commits { Commits D.seen D.images D.moment D.since D.trail D.faults D.syncs
            txn result pass.old pass.new }
    {
        if pass.share == 0 {
            return Committed::TicketsSpent(txn);
        }
        let mut seat = mem::replace(&mut pass.badge, Badge::blank()).into_seat::<Option<Desk<D>>>();
        let settled = self.commit_at(&mut seat, &txn, pass.caller);
        pass.badge = seat.into_badge();
        pass.share -= 1;
        let mut left = txn;
        left.clear();
        Committed::Done(settled, left)
    }

    // Takes the journal, and commits.
    fn commit_at(
        &self,
        seat: &mut Seat<Option<Desk<D>>, View<Begun, Event>>,
        txn: &Txn,
        caller: u64,
    ) -> Settled
        requires table { seat.old.table_id ≡ self.now.lock.table.shared.table_id }
        requires live { (seat.old.me.0.opening ≡ Some (begun_in seat.old.me.0))
            × (seat.old.me.0.callers ≡ caller ∷ rest_of seat.old.me.0.callers) }
        requires idle { (seat.old.me.1 ≡ []) × (seat.old.me.0.holding ≡ false) }
        requires some { 1 ≤ length txn.now.items }
        requires bytes { length (txn_bytes txn.now.items) ≤ (begun_in seat.old.me.0).bytes_each }
        requires share { 1 ≤ seat.old.me.0.share }
        ensures table { (seat.new.table_id ≡ seat.old.table_id) × (seat.new.id ≡ seat.old.id) }
        ensures out { seat.new.me.1 ≡ [] }
        ensures did { DidCommit D.seen D.images D.moment D.since D.trail D.faults D.syncs
            (begun_in seat.old.me.0) caller txn.now.items result seat.old.me.0 seat.new.me.0 }
    {
        let desk = self.lock.lock(&self.rt, seat);
        self.write::<Brand>(seat, desk, txn, caller)
    }

    // Commits on the desk, and gives it back.
    fn write<B: Before>(
        &self,
        seat: &mut Seat<Option<Desk<D>>, View<Begun, Event>>,
        desk: Desk<D>,
        txn: &Txn,
        caller: u64,
    ) -> Settled
        requires table { seat.old.table_id ≡ self.now.lock.table.shared.table_id }
        requires before { (B.syncs ≡ D.syncs desk.journal.disk)
            × (B.faults ≡ D.faults desk.journal.disk) }
        requires live { (seat.old.me.0.opening ≡ Some (begun_in seat.old.me.0))
            × (seat.old.me.0.callers ≡ caller ∷ rest_of seat.old.me.0.callers) }
        requires out { seat.old.me.1 ≡ (0, None) ∷ [] }
        requires took { (v : View Begun Event) ×
            Took (commit_tale D.seen D.images D.moment D.since D.trail D.faults D.syncs)
            (begun_in seat.old.me.0) v seat.old.me.0 desk }
        requires some { 1 ≤ length txn.now.items }
        requires bytes { length (txn_bytes txn.now.items) ≤ (begun_in seat.old.me.0).bytes_each }
        requires share { 1 ≤ seat.old.me.0.share }
        ensures table { (seat.new.table_id ≡ seat.old.table_id) × (seat.new.id ≡ seat.old.id) }
        ensures out { seat.new.me.1 ≡ [] }
        ensures wrote { Wrote (begun_in seat.old.me.0) caller txn.now.items result
            seat.old.me.0 seat.new.me.0 }
    {
        let mut desk = desk;
        let settled = desk.commit(txn);
        self.put_back::<Brand>(seat, desk, txn, caller, &settled);
        settled
    }

    // Gives the desk back with the events of a commit.
    fn put_back<I: Adding<Event>>(
        &self,
        seat: &mut Seat<Option<Desk<D>>, View<Begun, Event>>,
        desk: Desk<D>,
        txn: &Txn,
        caller: u64,
        settled: &Settled,
    )
        requires table { seat.old.table_id ≡ self.now.lock.table.shared.table_id }
        requires out { (seat.old.me.1 ≡ (0, None) ∷ []) × (seat.old.me.0.holding ≡ true) }
        requires owes { (b : Begun) × (l : Live b seat.old.me.0) ×
            Owes (commit_tale D.seen D.images D.moment D.since D.trail D.faults D.syncs)
            b l.caller seat.old.me.0 desk I.events I.allowance I.share }
        ensures table { (seat.new.table_id ≡ seat.old.table_id) × (seat.new.id ≡ seat.old.id) }
        ensures gave { seat.new.me ≡ (given I.events I.allowance I.share seat.old.me.0, []) }
    {
        let _txn = txn;
        let _caller = caller;
        let _settled = settled;
        self.lock.unlock::<I>(seat, desk);
    }
}
