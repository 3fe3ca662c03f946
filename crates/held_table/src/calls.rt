//! The calls that every queue offers.
ghost use Rattle.acts_core.specs.Asked.{Enters};
ghost use Rattle.acts_core.specs.Calls.{CallPut};
ghost use Rattle.acts_core.specs.Meaning.{Called};
ghost use Rattle.acts_core.specs.Replies.{of_put};
ghost use Rattle.acts_core.specs.Sight.{known};
ghost use Rattle.held_table.specs.Sights.{Serves, build_by, sight};

use crate::pass::HeldPass;
use crate::table::Held;
use crate::works::{
    Ageing, Deleting, Finding, Freeing, Giving, Leaving, Putting, Relocking, Removing, Reserving,
    Seizing, Taking, Telling,
};
use acts_core::{
    BareCore, Cargo, Freight, Locking, Next, Placed, QueueCore, Releasing, SharedQueue, Stealing,
};
use queue_model::{Depth, Slip};
use std::sync::Wait;

impl<C: Freight, Q: BareCore<C>, R: Wait + Drop> Held<C, Q, R> {
    // Puts an entry; or nothing, where the pass has no row left to draw. That is a turn too.
    fn put_or_skip(&self, pass: &mut HeldPass, slip: Slip, cargo: C) -> Placed<C>
        requires serves { Serves self.now pass.old }
        requires enters { Enters (known (sight pass.old)) pass.old.caller slip (C.goods cargo) }
        ensures serves { Serves self.now pass.new }
        ensures called { Called (build_by Q.kind_of self.now) (sight pass.old) (sight pass.new)
            (CallPut slip (C.goods cargo)) (of_put C.goods result) }
    {
        if pass.share == 0 {
            self.skip(pass);
            return Placed::Spent(cargo);
        }
        self.turn(pass, Putting { slip, cargo })
    }
}

impl<C: Cargo + Sync, Q: QueueCore<C>, R: Wait + Send + Sync + Drop> SharedQueue<C>
    for Held<C, Q, R> {
    ghost use Rattle.held_table.specs.Sights as held;

    type Pass = HeldPass;

    ghost build = { held.build_by Q.kind };

    ghost sight = { held.sight };

    ghost serves = { held.Serves };

    fn depth(&self, pass: &mut HeldPass) -> Depth {
        self.turn(pass, Telling)
    }

    fn reserve(&self, pass: &mut HeldPass, size: u64) -> Depth {
        self.turn(pass, Reserving { size })
    }

    fn give_back(&self, pass: &mut HeldPass, size: u64) {
        self.turn(pass, Giving { size })
    }

    fn put(&self, pass: &mut HeldPass, slip: Slip, cargo: C) -> Placed<C> {
        self.put_or_skip(pass, slip, cargo)
    }

    fn next(&self, pass: &mut HeldPass, consumer: u32) -> Next<C> {
        self.turn(pass, Taking { consumer })
    }

    fn oldest(&self, pass: &mut HeldPass) -> Next<C> {
        self.turn(pass, Ageing)
    }

    fn find(&self, pass: &mut HeldPass, id: u64) -> Option<u64> {
        self.turn(pass, Finding { id })
    }

    fn lock(&self, pass: &mut HeldPass, row: u64) -> Locking<C> {
        self.turn(pass, Relocking { row })
    }

    fn unlock(&self, pass: &mut HeldPass, row: u64, cargo: C) {
        self.turn(pass, Leaving { row, cargo })
    }

    fn release(&self, pass: &mut HeldPass, row: u64, cargo: C) -> Releasing<C> {
        self.turn(pass, Freeing { row, cargo })
    }

    fn steal(&self, pass: &mut HeldPass, row: u64) -> Stealing<C> {
        self.turn(pass, Seizing { row })
    }

    fn dequeue(&self, pass: &mut HeldPass, row: u64) {
        self.turn(pass, Removing { row })
    }

    fn delete(&self, pass: &mut HeldPass, row: u64) {
        self.turn(pass, Deleting { row })
    }

    ghost opens = { held.held_opens Q.kind };
}
