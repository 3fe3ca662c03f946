//! The calls of a one-thread queue.
ghost use Rattle.std.specs.Prelude.{ℕ, Bool, false, get_or};

use crate::entering::{enter_first, enter_over, enter_unkeyed};
use crate::queue::LastValue;
use crate::search::{Place, key_place};
use acts_core::{Cargo, Locking, Next, Placed, QueueCore, Releasing, RestEntry, Stealing};
use byte_lists::NoMemory;
use kept_rows::Marking;
use queue_model::{Depth, Slip};

impl<C: Cargo> QueueCore<C> for LastValue<C> {
    ghost use Rattle.acts_core.specs.Sight as sight;

    ghost kind = { sight.LastValue };

    ghost kept = { λ q. q };

    fn depth(&mut self, caller: u64) -> Depth {
        self.rows.told_depth(caller)
    }

    fn reserve(&mut self, caller: u64, size: u64) -> Depth {
        self.rows.reserve(caller, size)
    }

    fn give_back(&mut self, caller: u64, size: u64) {
        self.rows.give_back(caller, size)
    }

    fn put(&mut self, caller: u64, slip: Slip, cargo: C) -> Placed<C> {
        match key_place(&self.rows, &self.lasts, &slip.key) {
            None => enter_unkeyed(
                &mut self.rows,
                &self.lasts,
                &mut self.outdated,
                caller,
                slip,
                cargo,
            ),
            Some(Place::Before(index)) => enter_first(
                &mut self.rows,
                &mut self.lasts,
                &mut self.outdated,
                caller,
                slip,
                cargo,
                index,
            ),
            Some(Place::At(index)) => enter_over(
                &mut self.rows,
                &mut self.lasts,
                &mut self.outdated,
                caller,
                slip,
                cargo,
                index,
            ),
        }
    }

    fn next(&mut self, caller: u64, consumer: u32) -> Next<C> {
        self.rows.next(caller, consumer)
    }

    fn oldest(&mut self, caller: u64) -> Next<C> {
        self.rows.oldest(caller)
    }

    fn find(&mut self, caller: u64, id: u64) -> Option<u64> {
        self.rows.find(caller, id)
    }

    fn lock(&mut self, caller: u64, row: u64) -> Locking<C> {
        self.rows.lock(caller, row)
    }

    fn unlock(&mut self, caller: u64, row: u64, cargo: C) {
        self.rows.unlock(caller, row, cargo)
    }

    fn release(&mut self, caller: u64, row: u64, cargo: C) -> Releasing<C> {
        if self.outdated[row as usize] {
            return Releasing::Outdated(cargo);
        }
        self.rows.release(caller, row, cargo);
        Releasing::Released
    }

    fn steal(&mut self, caller: u64, row: u64) -> Stealing<C> {
        self.rows.steal(caller, row)
    }

    fn dequeue(&mut self, caller: u64, row: u64) {
        self.rows.dequeue(caller, row)
    }

    fn delete(&mut self, caller: u64, row: u64) {
        self.rows.delete(caller, row)
    }

    fn reserve_rows(&mut self, rows: u64) -> Result<(), NoMemory> {
        self.make_room(rows)
    }

    fn spare(&self) -> u64 {
        self.rows.spare()
    }

    fn into_rest(self) -> Vec<RestEntry<C>> {
        let LastValue { rows, outdated, .. } = self;
        rows.into_rest(&Marks { outdated })
    }

    ghost held = { tt };
}

// The marks of rows that a later one of their key outdates.
#[derive(Drop)]
struct Marks {
    outdated: Vec<bool>,
}

impl Marking for Marks {
    ghost marks = { λ m r. get_or m.outdated.items r false };

    fn is_outdated(&self, row: u64) -> bool {
        match self.outdated.get(row as usize) {
            Some(mark) => *mark,
            None => false,
        }
    }
}
