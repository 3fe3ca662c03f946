//! How a table is made and closed, and how passes part and end.
ghost use Rattle.std.specs.Prelude.{◌≡◌, ◌+◌, ◌≤◌, ◌<◌, ◌∷◌, ℕ, List, [], Some, false, IfOk, IfErr, IfSome};
ghost use Rattle.journal_format.specs.Journal.{IsJournal};
ghost use Rattle.journal_core.specs.declared.journal.Trust.TheVariants.{Clean};
ghost use Rattle.history_lock.specs.Views.{first};
ghost use Rattle.history_lock.specs.Plays.{Begins, Cuts, ForAll, opened, merged, cut_left, cut_right};
ghost use Rattle.commit_table.specs.Outcomes.{Legal, own};
ghost use Rattle.commit_table.specs.Tale.{commit_tale, Carries};
ghost use Rattle.commit_table.specs.Passes.{begun_of, begun_in, rest_of, seen_by};
ghost use Rattle.commit_table.specs.Tables.{IsPassOf, view, begun, DidSplit, DidJoin};

use crate::begun::{Begun, Tales};
use crate::desk::Desk;
use crate::pass::CommitPass;
use crate::table::CommitTable;
use atomic_table::{Badge, Seat};
use byte_lists::{Buffer, NoMemory};
use disk_core::Disk;
use history_lock::{Beginning, Locked, Portion, View};
use journal_core::Journal;
use journal_format::Event;
use std::alloc::Global;
use std::marker::Brand;
use std::mem;

/// How many bytes a batch of one transaction has beside the transaction, with the closed gate behind it.
const AROUND_TXN: u64 = 13;

impl<D: Disk + Drop, R: Drop> CommitTable<D, R> {
    /// A table over a clean journal, for at least one caller and so many tickets, and the pass of its boss, who is caller
    /// 0 and has all tickets. A transaction has at most `bytes_each` bytes. Refuses only for want of memory, and hands
    /// the journal back then.
    pub fn make(
        rt: R,
        alloc: Global,
        journal: Journal<D>,
        callers: u32,
        tickets: u64,
        bytes_each: u64,
    ) -> Result<(CommitTable<D, R>, CommitPass), (NoMemory, Journal<D>)>
        requires clean { journal.trust ≡ Clean }
        requires callers { 1 ≤ callers }
        requires tickets { tickets ≤ 4294967295 }
        ensures table { IfOk result (λ t. IsPassOf t.0 t.1 × (t.0.tickets ≡ tickets)) }
        ensures boss { IfOk result (λ t. (t.1.caller ≡ 0) × (view t.1 ≡ opened
            (begun_of D.seen D.moment D.trail D.faults D.syncs journal callers tickets bytes_each)
            0 tickets [])) }
        // Where the disk tells its bytes, they are a journal of the commits that the table begins with.
        ensures commits { IfOk result (λ t. IfSome (D.seen journal.disk)
            (λ x. IsJournal x (begun t.1).commits)) }
        ensures back { IfErr result (λ e. e.1 ≡ journal) }
    {
        let Some(room) = bytes_each.checked_add(AROUND_TXN) else {
            return Err((NoMemory, journal));
        };
        let Ok(scratch) = Buffer::with_room(alloc, room) else {
            return Err((NoMemory, journal));
        };
        let Ok((lock, seat)) = Locked::make(alloc) else {
            return Err((NoMemory, journal));
        };
        let mut seat = seat;
        // It says that each image stands for the journal's commits.
        let _clean = journal.is_clean();
        let desk = Desk {
            journal,
            scratch,
            count: 0,
        };
        begin::<D, Brand>(&lock, &mut seat, desk, callers, tickets, bytes_each);
        let pass = CommitPass {
            badge: seat.into_badge(),
            caller: 0,
            share: tickets,
        };
        Ok((CommitTable { lock, rt, tickets }, pass))
    }

    /// Makes a pass for a new caller, to which so many of the boss's tickets go. It has seen what the boss has. There have
    /// to be fewer passes than the table was made for.
    pub fn split(&self, boss: &mut CommitPass, tickets: u64) -> CommitPass
        requires table { IsPassOf self.now boss.old }
        requires boss { boss.old.caller ≡ 0 }
        requires callers { (view boss.old).made < (begun boss.old).callers }
        requires tickets { tickets ≤ boss.old.share }
        ensures tables { IsPassOf self.now boss.new × IsPassOf self.now result }
        ensures caller { (boss.new.caller ≡ 0) × (result.caller ≡ (view boss.old).made) }
        ensures begun { (begun boss.new ≡ begun boss.old) × (begun result ≡ begun boss.old) }
        ensures split { DidSplit D.seen D.images D.moment D.since D.trail D.faults D.syncs
            (view boss.old) (view boss.new) (view result) tickets }
    {
        let mut seat = mem::replace(&mut boss.badge, Badge::blank()).into_seat::<Option<Desk<D>>>();
        let caller = self.lock.number(&mut seat);
        let badge = self.part::<Brand>(&mut seat, caller, tickets).into_badge();
        boss.badge = seat.into_badge();
        boss.share -= tickets;
        CommitPass {
            badge,
            caller,
            share: tickets,
        }
    }

    // Cuts a pass off the boss's, for the caller that was drawn last.
    fn part<J: Portion>(
        &self,
        seat: &mut Seat<Option<Desk<D>>, View<Begun, Event>>,
        caller: u64,
        tickets: u64,
    ) -> Seat<Option<Desk<D>>, View<Begun, Event>>
        requires table { seat.old.table_id ≡ self.now.lock.table.shared.table_id }
        requires live { ((b : Begun) × (seat.old.me.0.opening ≡ Some b))
            × (seat.old.me.0.holding ≡ false) }
        requires cuts { (ended : List ℕ) ×
            Cuts seat.old.me.0 0 caller J.allowance J.share ended J.kept J.moved J.is_moved }
        ensures table { (seat.new.table_id ≡ seat.old.table_id) × (seat.new.id ≡ seat.old.id)
            × (result.table_id ≡ seat.old.table_id) }
        ensures views { (seat.new.me ≡ (cut_left J.allowance J.share J.kept seat.old.me.0, seat.old.me.1))
            × (result.me ≡ (cut_right J.allowance J.share J.moved seat.old.me.0, [])) }
    {
        let _tickets = tickets;
        self.lock.cut::<J>(seat, 0, caller)
    }

    /// Ends a pass. `into` then speaks for its callers too, has its tickets, and has seen what both had seen.
    pub fn join(&self, into: &mut CommitPass, gone: CommitPass)
        requires into { IsPassOf self.now into.old }
        requires gone { IsPassOf self.now gone }
        requires begun { begun gone ≡ begun into.old }
        ensures table { IsPassOf self.now into.new }
        ensures caller { into.new.caller ≡ into.old.caller }
        ensures begun { begun into.new ≡ begun into.old }
        ensures joined { DidJoin D.seen D.images D.moment D.since D.trail D.faults D.syncs
            (view into.old) (view gone) (view into.new) }
    {
        let mut seat = mem::replace(&mut into.badge, Badge::blank()).into_seat::<Option<Desk<D>>>();
        let CommitPass {
            badge,
            caller: _,
            share,
        } = gone;
        self.merge(&mut seat, badge.into_seat::<Option<Desk<D>>>(), into.caller);
        into.badge = seat.into_badge();
        into.share += share;
    }

    // The two seats are one, and a look tells what that makes of them.
    fn merge(
        &self,
        seat: &mut Seat<Option<Desk<D>>, View<Begun, Event>>,
        gone: Seat<Option<Desk<D>>, View<Begun, Event>>,
        caller: u64,
    )
        requires table { (seat.old.table_id ≡ self.now.lock.table.shared.table_id)
            × (gone.table_id ≡ self.now.lock.table.shared.table_id) }
        requires live { (seat.old.me.0.opening ≡ Some (begun_in seat.old.me.0))
            × (seat.old.me.0.callers ≡ caller ∷ rest_of seat.old.me.0.callers) }
        requires idle { (seat.old.me.1 ≡ []) × (seat.old.me.0.holding ≡ false)
            × (gone.me.1 ≡ []) × (gone.me.0.holding ≡ false) }
        ensures table { (seat.new.table_id ≡ seat.old.table_id) × (seat.new.id ≡ seat.old.id) }
        ensures out { seat.new.me.1 ≡ [] }
        ensures view { seat.new.me.0
            ≡ seen_by (merged seat.old.me.0 gone.me.0) seat.new.me.0.seen }
        ensures joined { DidJoin D.seen D.images D.moment D.since D.trail D.faults D.syncs
            seat.old.me.0 gone.me.0 seat.new.me.0 }
        ensures shared { seat.new.me.0.share ≤ (begun_in seat.old.me.0).tickets }
    {
        let _caller = caller;
        self.lock.join(seat, gone);
        self.lock.look(seat);
    }

    /// The journal at the end, by a boss into whose pass every other was joined. It carries the whole history, which the
    /// boss has seen, and in which each Sub and each Lost is of a caller that was made.
    pub fn close(self, boss: CommitPass) -> Journal<D>
        requires table { IsPassOf self boss }
        requires boss { ForAll (view boss) }
        ensures carries { Carries D.seen D.images D.moment D.since D.trail D.faults D.syncs
            (begun boss) result (view boss).seen }
        ensures legal { Legal (view boss).seen }
        ensures callers { (k : ℕ) → (view boss).made ≤ k → own k (view boss).seen ≡ [] }
    {
        let CommitTable {
            lock,
            rt,
            tickets: _,
        } = self;
        drop(rt);
        let CommitPass {
            badge,
            caller: _,
            share: _,
        } = boss;
        let Some(desk) = lock.close(badge.into_seat::<Option<Desk<D>>>()) else {
            unreachable!()
        };
        let Desk {
            journal,
            scratch: _,
            count: _,
        } = desk;
        journal
    }
}

// Brings the desk into the lock, and begins the history.
fn begin<D: Disk + Drop, J: Beginning<Begun>>(
    lock: &Locked<Desk<D>, Begun, Event, Tales>,
    seat: &mut Seat<Option<Desk<D>>, View<Begun, Event>>,
    desk: Desk<D>,
    callers: u32,
    tickets: u64,
    bytes_each: u64,
)
    requires table { seat.old.table_id ≡ lock.now.table.shared.table_id }
    requires first { seat.old.me ≡ (first, []) }
    requires begins { (b : Begun) × (J.opening ≡ Some b) ×
        Begins (commit_tale D.seen D.images D.moment D.since D.trail D.faults D.syncs)
        b desk J.allowance J.share }
    ensures table { (seat.new.table_id ≡ seat.old.table_id) × (seat.new.id ≡ seat.old.id) }
    ensures me { (b : Begun) → J.opening ≡ Some b →
        seat.new.me ≡ (opened b J.allowance J.share J.consumers, []) }
{
    let _begun = (callers, tickets, bytes_each);
    lock.open::<J>(seat, desk);
}
