//! Held queues that are made and closed.
ghost use Rattle.std.specs.Prelude.{◌≡◌, ◌≤◌, ℕ, Some, [], IfOk};
ghost use Rattle.queue_model.specs.declared.queues.Queue.{Queue};
ghost use Rattle.history_lock.specs.Views.{first};
ghost use Rattle.history_lock.specs.Plays.{Begins, opened};
ghost use Rattle.held_table.specs.Openings.{Opens};
ghost use Rattle.held_table.specs.Parts.{IsFresh, IsLast, IsClosed};
ghost use Rattle.held_table.specs.Sights.{Serves, build_by, sight};
ghost use Rattle.held_table.specs.Tales.{core_tale};

use crate::pass::HeldPass;
use crate::table::Held;
use crate::view::{Outset, Tales};
use acts_core::{BareCore, Freight};
use atomic_table::Seat;
use byte_lists::NoMemory;
use history_lock::{Beginning, Locked, View};
use queue_model::Deed;
use std::alloc::Global;
use std::marker::Brand;
use std::sync::Wait;

impl<C: Freight, Q: BareCore<C>, R: Wait + Drop> Held<C, Q, R> {
    /// Puts one lock round a queue for one thread, whose calls wait by this handle. What the queue keeps is the
    /// opening. The pass of the boss has all consumers, and may reserve what the opening's entries leave of
    /// 524,288, and draw the spare. Without memory the queue is dropped.
    pub fn make(
        rt: R,
        alloc: Global,
        core: Q,
        consumers: u32,
    ) -> Result<(Held<C, Q, R>, HeldPass), NoMemory>
        requires consumers { consumers ≤ 64 }
        requires opening { (o : Queue) × Opens consumers (Q.keeps core) o }
        ensures serves { IfOk result (λ r. Serves r.0 r.1) }
        ensures fresh { IfOk result (λ r. IsFresh Q.kind_of (Q.keeps core) consumers
            (build_by Q.kind_of r.0) (sight r.1)) }
    {
        let mut core = core;
        let spare = core.bare_spare();
        let entries = core.bare_depth(0).entries;
        let Ok((lock, seat)) = Locked::make(alloc) else {
            return Err(NoMemory);
        };
        let mut seat = seat;
        begin::<C, Q, Brand>(&lock, &mut seat, core, consumers);
        let held = Held {
            lock,
            rt,
            entries,
            spare,
        };
        let pass = HeldPass {
            badge: seat.into_badge(),
            caller: 0,
            share: spare,
        };
        Ok((held, pass))
    }

    /// Takes the lock off again. The queue stands for all that the boss has seen, which is the whole history.
    pub fn close(self, boss: HeldPass) -> Q
        requires serves { Serves self boss }
        requires last { IsLast (sight boss) }
        ensures closed { IsClosed (sight boss) (Q.keeps result) }
    {
        let Held {
            lock,
            rt,
            entries: _,
            spare: _,
        } = self;
        drop(rt);
        let HeldPass {
            badge,
            caller: _,
            share: _,
        } = boss;
        let seat = badge.into_seat::<Option<Q>>();
        let Some(core) = lock.close(seat) else {
            unreachable!()
        };
        core
    }
}

// The queue comes into the lock.
fn begin<C: Freight, Q: BareCore<C>, J: Beginning<Outset>>(
    lock: &Locked<Q, Outset, Deed, Tales<C>>,
    seat: &mut Seat<Option<Q>, View<Outset, Deed>>,
    core: Q,
    consumers: u32,
)
    requires table { seat.old.table_id ≡ lock.now.table.shared.table_id }
    requires first { seat.old.me ≡ (first, []) }
    requires begins { (p : Outset) × (J.opening ≡ Some p)
        × Begins (core_tale Q.keeps) p core J.allowance J.share }
    ensures table { (seat.new.table_id ≡ seat.old.table_id) × (seat.new.id ≡ seat.old.id) }
    ensures me { (p : Outset) → J.opening ≡ Some p
        → seat.new.me ≡ (opened p J.allowance J.share J.consumers, []) }
{
    let _consumers = consumers;
    lock.open::<J>(seat, core);
}
