//! The calls of a one-thread queue.
ghost use Rattle.std.specs.Prelude.{false};

use crate::queue::Sorted;
use acts_core::{Cargo, Locking, Next, Placed, QueueCore, Releasing, RestEntry, Stealing};
use byte_lists::NoMemory;
use kept_rows::Marking;
use queue_model::{Depth, Slip};

// On a queue that goes by key no row outdates another.
struct Unmarked;

impl Marking for Unmarked {
    ghost marks = { λ m r. false };

    fn is_outdated(&self, row: u64) -> bool {
        let _row = row;
        false
    }
}

impl<C: Cargo> QueueCore<C> for Sorted<C> {
    ghost use Rattle.acts_core.specs.Sight as sight;

    ghost kind = { sight.Sorted };

    ghost kept = { λ q. q };

    fn depth(&mut self, caller: u64) -> Depth {
        self.rows.told_depth(caller)
    }

    fn reserve(&mut self, caller: u64, size: u64) -> Depth {
        self.rows.reserve(caller, size)
    }

    fn give_back(&mut self, caller: u64, size: u64) {
        self.rows.give_back(caller, size)
    }

    fn put(&mut self, caller: u64, slip: Slip, cargo: C) -> Placed<C> {
        Placed::At {
            row: self.rows.put(caller, slip, cargo),
            displaced: None,
        }
    }

    fn next(&mut self, caller: u64, consumer: u32) -> Next<C> {
        self.rows.next(caller, consumer)
    }

    fn oldest(&mut self, caller: u64) -> Next<C> {
        self.rows.oldest(caller)
    }

    fn find(&mut self, caller: u64, id: u64) -> Option<u64> {
        self.rows.find(caller, id)
    }

    fn lock(&mut self, caller: u64, row: u64) -> Locking<C> {
        self.rows.lock(caller, row)
    }

    fn unlock(&mut self, caller: u64, row: u64, cargo: C) {
        self.rows.unlock(caller, row, cargo)
    }

    fn release(&mut self, caller: u64, row: u64, cargo: C) -> Releasing<C> {
        self.rows.release(caller, row, cargo);
        Releasing::Released
    }

    fn steal(&mut self, caller: u64, row: u64) -> Stealing<C> {
        self.rows.steal(caller, row)
    }

    fn dequeue(&mut self, caller: u64, row: u64) {
        self.rows.dequeue(caller, row)
    }

    fn delete(&mut self, caller: u64, row: u64) {
        self.rows.delete(caller, row)
    }

    fn reserve_rows(&mut self, rows: u64) -> Result<(), NoMemory> {
        self.rows.reserve_rows(rows)
    }

    fn spare(&self) -> u64 {
        self.rows.spare()
    }

    fn into_rest(self) -> Vec<RestEntry<C>> {
        let Sorted { rows } = self;
        rows.into_rest(&Unmarked)
    }

    ghost held = { tt };
}
