//! Turns: the one-thread queue is taken, a call is made, and it is given back with the call's acts.
ghost use Rattle.std.specs.Prelude.{◌≡◌, ℕ, ◌≤◌, Some, None, [], ◌∷◌, true, false};
ghost use Rattle.acts_core.specs.Calls.{Call, CallDepth};
ghost use Rattle.acts_core.specs.Meaning.{Called};
ghost use Rattle.history_lock.specs.Plays.{Live, Owes, given};
ghost use Rattle.held_table.specs.Tales.{core_tale};
ghost use Rattle.held_table.specs.Sights.{Asks, Sits, Serves, build_by, sight, sight_by, view, outset};
ghost use Rattle.held_table.specs.Turns.{Turned, Passed};
ghost use Rattle.held_table.specs.Views.{outset_in, rest_of};

use crate::pass::HeldPass;
use crate::table::Held;
use crate::view::Outset;
use crate::works::Work;
use acts_core::{BareCore, Freight};
use atomic_table::{Badge, Seat};
use history_lock::{Adding, View};
use queue_model::Deed;
use std::marker::Brand;
use std::mem;
use std::sync::Wait;

/// The call of a turn. `turn` picks it.
trait Doing {
    ghost call: { Call };
}

impl Doing for Brand {
    ghost call = { CallDepth };
}

impl<C: Freight, Q: BareCore<C>, R: Wait + Drop> Held<C, Q, R> {
    /// One call: waits for the lock, and does it in the step that gives the lock back.
    pub(crate) fn turn<W: Work<C, Q>>(&self, pass: &mut HeldPass, work: W) -> W::Reply
        requires serves { Serves self.now pass.old }
        requires asks { Asks (sight pass.old) (W.call work) }
        ensures serves { Serves self.now pass.new }
        ensures called { (x : ℕ) × Called (build_by Q.kind_of self.now) (sight pass.old)
            (sight pass.new) (W.call work) (W.said x result) }
    {
        let rows = work.rows();
        let mut seat = mem::replace(&mut pass.badge, Badge::blank()).into_seat::<Option<Q>>();
        let reply = self.turn_as::<W, Brand>(&mut seat, work, pass.caller);
        pass.badge = seat.into_badge();
        pass.share -= rows;
        reply
    }

    fn turn_as<W: Work<C, Q>, J: Doing>(
        &self,
        seat: &mut Seat<Option<Q>, View<Outset, Deed>>,
        work: W,
        caller: u64,
    ) -> W::Reply
        requires table { seat.old.table_id ≡ self.now.lock.table.shared.table_id }
        requires call { J.call ≡ W.call work }
        requires live { (seat.old.me.0.opening ≡ Some (outset_in seat.old.me.0))
            × (seat.old.me.0.callers ≡ caller ∷ rest_of seat.old.me.0.callers) }
        requires idle { (seat.old.me.1 ≡ []) × (seat.old.me.0.holding ≡ false) }
        requires sits { Sits seat.old.me.0 }
        requires asks { Asks (sight_by caller seat.old.me.0) (W.call work) }
        ensures table { (seat.new.table_id ≡ seat.old.table_id) × (seat.new.id ≡ seat.old.id)
            × (seat.new.me.1 ≡ []) }
        ensures turned { (x : ℕ) × Turned Q.keeps Q.kind_of (outset_in seat.old.me.0) caller
            seat.old.me.0 seat.new.me.0 (W.call work) (W.said x result) }
    {
        let mut core = self.lock.lock(&self.rt, seat);
        let reply = work.run(&mut core, caller);
        self.finish::<W, Brand>(seat, core, caller, &reply);
        reply
    }

    // The step that gives the lock back, with what the call did.
    fn finish<W: Work<C, Q>, I: Adding<Deed>>(
        &self,
        seat: &mut Seat<Option<Q>, View<Outset, Deed>>,
        core: Q,
        caller: u64,
        reply: &W::Reply,
    )
        requires table { seat.old.table_id ≡ self.now.lock.table.shared.table_id }
        requires out { (seat.old.me.1 ≡ (0, None) ∷ []) × (seat.old.me.0.holding ≡ true) }
        requires owes { (p : Outset) × (l : Live p seat.old.me.0) × Owes (core_tale Q.keeps) p
            l.caller seat.old.me.0 core I.events I.allowance I.share }
        ensures table { (seat.new.table_id ≡ seat.old.table_id) × (seat.new.id ≡ seat.old.id) }
        ensures gave { seat.new.me ≡ (given I.events I.allowance I.share seat.old.me.0, []) }
    {
        let _caller = caller;
        let _reply = reply;
        self.lock.unlock::<I>(seat, core);
    }

    /// A turn in which nothing is done: waits for the lock, and gives it back.
    pub(crate) fn skip(&self, pass: &mut HeldPass)
        requires serves { Serves self.now pass.old }
        ensures serves { Serves self.now pass.new }
        ensures caller { (pass.new.caller ≡ pass.old.caller) }
        ensures passed { Passed Q.keeps (outset pass.old) (view pass.old) (view pass.new) }
    {
        let mut seat = mem::replace(&mut pass.badge, Badge::blank()).into_seat::<Option<Q>>();
        self.skip_at(&mut seat, pass.caller);
        pass.badge = seat.into_badge();
    }

    fn skip_at(&self, seat: &mut Seat<Option<Q>, View<Outset, Deed>>, caller: u64)
        requires table { seat.old.table_id ≡ self.now.lock.table.shared.table_id }
        requires live { (seat.old.me.0.opening ≡ Some (outset_in seat.old.me.0))
            × (seat.old.me.0.callers ≡ caller ∷ rest_of seat.old.me.0.callers) }
        requires idle { (seat.old.me.1 ≡ []) × (seat.old.me.0.holding ≡ false) }
        ensures table { (seat.new.table_id ≡ seat.old.table_id) × (seat.new.id ≡ seat.old.id)
            × (seat.new.me.1 ≡ []) }
        ensures passed { Passed Q.keeps (outset_in seat.old.me.0) seat.old.me.0 seat.new.me.0 }
    {
        let core = self.lock.lock(&self.rt, seat);
        self.leave::<Brand>(seat, core, caller);
    }

    // The step that gives the lock back, with nothing done.
    fn leave<I: Adding<Deed>>(
        &self,
        seat: &mut Seat<Option<Q>, View<Outset, Deed>>,
        core: Q,
        caller: u64,
    )
        requires table { seat.old.table_id ≡ self.now.lock.table.shared.table_id }
        requires out { (seat.old.me.1 ≡ (0, None) ∷ []) × (seat.old.me.0.holding ≡ true) }
        requires owes { (p : Outset) × (l : Live p seat.old.me.0) × Owes (core_tale Q.keeps) p
            l.caller seat.old.me.0 core I.events I.allowance I.share }
        ensures table { (seat.new.table_id ≡ seat.old.table_id) × (seat.new.id ≡ seat.old.id) }
        ensures gave { seat.new.me ≡ (given I.events I.allowance I.share seat.old.me.0, []) }
    {
        let _caller = caller;
        self.lock.unlock::<I>(seat, core);
    }
}
