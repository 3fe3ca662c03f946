//! A queue of any kind, its passes, and the calls that every queue offers.
use acts_core::{Cargo, Locking, Next, Placed, Releasing, SharedQueue, Stealing};
use cursor_core::PassCursors;
use entry_table::{Entries, Pass};
use held_table::{Held, HeldPass};
use lastval_core::LastValue;
use queue_model::{Depth, Slip};
use sorted_core::Sorted;
use std::sync::Wait;

/// A queue of any kind that many callers share. The calls of sorted and last-value queues wait for the lock of their
/// queue, by a handle that it keeps.
#[derive(Drop)]
pub enum AnyQueue<C: Cargo, R: Wait + Drop> {
    /// A standard or a priority queue.
    Listed(Entries<C>),
    /// A sorted queue.
    Sorted(Box<Held<C, Sorted<C>, R>>),
    /// A last-value queue.
    LastValue(Box<Held<C, LastValue<C>, R>>),
}

/// A pass of a standard or a priority queue.
#[derive(Drop)]
pub struct ListedPass {
    /// The pass of its table.
    pub pass: Pass,
    /// The cursors of its consumers.
    pub cursors: PassCursors,
}

/// A pass of a queue of any kind.
#[derive(Drop)]
pub enum AnyPass {
    /// Of a standard or a priority queue.
    Listed(ListedPass),
    /// Of a sorted or a last-value queue.
    Held(HeldPass),
}

impl<C: Cargo + Sync, R: Wait + Send + Sync + Drop> SharedQueue<C> for AnyQueue<C, R> {
    ghost use Rattle.std.specs.Prelude.{ℕ};
    ghost use mathlib.Core.List.{Mem};
    ghost use Rattle.acts_core.specs.Asked.{HasDequeued};
    ghost use Rattle.acts_core.specs.Calls.{CallNext, CallDelete, IsDone};
    ghost use Rattle.acts_core.specs.Meaning.{Called};
    ghost use Rattle.acts_core.specs.Replies.{of_next};
    ghost use Rattle.any_queue.specs.Kinds.{build_in, sight_in, ServesAny, any_opens};
    ghost use Rattle.any_queue.specs.Scavenging.{DeletesAny};
    ghost use Rattle.any_queue.specs.Walked.{WalksAny};

    type Pass = AnyPass;

    ghost build = { build_in };

    ghost sight = { sight_in };

    ghost serves = { ServesAny };

    fn depth(&self, pass: &mut AnyPass) -> Depth {
        match self {
            AnyQueue::Listed(entries) => match pass {
                AnyPass::Listed(listed) => listed.depth(entries),
                AnyPass::Held(_) => unreachable!(),
            },
            AnyQueue::Sorted(held) => match pass {
                AnyPass::Held(pass) => held.depth(pass),
                AnyPass::Listed(_) => unreachable!(),
            },
            AnyQueue::LastValue(held) => match pass {
                AnyPass::Held(pass) => held.depth(pass),
                AnyPass::Listed(_) => unreachable!(),
            },
        }
    }

    fn reserve(&self, pass: &mut AnyPass, size: u64) -> Depth {
        match self {
            AnyQueue::Listed(entries) => match pass {
                AnyPass::Listed(listed) => listed.reserve(entries, size),
                AnyPass::Held(_) => unreachable!(),
            },
            AnyQueue::Sorted(held) => match pass {
                AnyPass::Held(pass) => held.reserve(pass, size),
                AnyPass::Listed(_) => unreachable!(),
            },
            AnyQueue::LastValue(held) => match pass {
                AnyPass::Held(pass) => held.reserve(pass, size),
                AnyPass::Listed(_) => unreachable!(),
            },
        }
    }

    fn give_back(&self, pass: &mut AnyPass, size: u64) {
        match self {
            AnyQueue::Listed(entries) => match pass {
                AnyPass::Listed(listed) => listed.give_back(entries, size),
                AnyPass::Held(_) => unreachable!(),
            },
            AnyQueue::Sorted(held) => match pass {
                AnyPass::Held(pass) => held.give_back(pass, size),
                AnyPass::Listed(_) => unreachable!(),
            },
            AnyQueue::LastValue(held) => match pass {
                AnyPass::Held(pass) => held.give_back(pass, size),
                AnyPass::Listed(_) => unreachable!(),
            },
        }
    }

    fn put(&self, pass: &mut AnyPass, slip: Slip, cargo: C) -> Placed<C> {
        match self {
            AnyQueue::Listed(entries) => match pass {
                AnyPass::Listed(listed) => listed.put(entries, &slip, cargo),
                AnyPass::Held(_) => unreachable!(),
            },
            AnyQueue::Sorted(held) => match pass {
                AnyPass::Held(pass) => held.put(pass, slip, cargo),
                AnyPass::Listed(_) => unreachable!(),
            },
            AnyQueue::LastValue(held) => match pass {
                AnyPass::Held(pass) => held.put(pass, slip, cargo),
                AnyPass::Listed(_) => unreachable!(),
            },
        }
    }

    fn next(&self, pass: &mut AnyPass, consumer: u32) -> Next<C>
        requires serves { ServesAny self.now pass.old }
        requires consumer { Mem consumer (sight_in pass.old).consumers }
        ensures serves { ServesAny self.now pass.new }
        ensures called { (list : ℕ) × Called (build_in self.now) (sight_in pass.old)
            (sight_in pass.new) (CallNext consumer) (of_next C.load list result) }
        ensures walks { WalksAny pass.old pass.new consumer result }
    {
        match self {
            AnyQueue::Listed(entries) => match pass {
                AnyPass::Listed(listed) => listed.next(entries, consumer),
                AnyPass::Held(_) => unreachable!(),
            },
            AnyQueue::Sorted(held) => match pass {
                AnyPass::Held(pass) => held.next(pass, consumer),
                AnyPass::Listed(_) => unreachable!(),
            },
            AnyQueue::LastValue(held) => match pass {
                AnyPass::Held(pass) => held.next(pass, consumer),
                AnyPass::Listed(_) => unreachable!(),
            },
        }
    }

    fn oldest(&self, pass: &mut AnyPass) -> Next<C> {
        match self {
            AnyQueue::Listed(entries) => match pass {
                AnyPass::Listed(listed) => listed.oldest(entries),
                AnyPass::Held(_) => unreachable!(),
            },
            AnyQueue::Sorted(held) => match pass {
                AnyPass::Held(pass) => held.oldest(pass),
                AnyPass::Listed(_) => unreachable!(),
            },
            AnyQueue::LastValue(held) => match pass {
                AnyPass::Held(pass) => held.oldest(pass),
                AnyPass::Listed(_) => unreachable!(),
            },
        }
    }

    fn find(&self, pass: &mut AnyPass, id: u64) -> Option<u64> {
        match self {
            AnyQueue::Listed(entries) => match pass {
                AnyPass::Listed(listed) => listed.find(entries, id),
                AnyPass::Held(_) => unreachable!(),
            },
            AnyQueue::Sorted(held) => match pass {
                AnyPass::Held(pass) => held.find(pass, id),
                AnyPass::Listed(_) => unreachable!(),
            },
            AnyQueue::LastValue(held) => match pass {
                AnyPass::Held(pass) => held.find(pass, id),
                AnyPass::Listed(_) => unreachable!(),
            },
        }
    }

    fn lock(&self, pass: &mut AnyPass, row: u64) -> Locking<C> {
        match self {
            AnyQueue::Listed(entries) => match pass {
                AnyPass::Listed(listed) => listed.lock(entries, row),
                AnyPass::Held(_) => unreachable!(),
            },
            AnyQueue::Sorted(held) => match pass {
                AnyPass::Held(pass) => held.lock(pass, row),
                AnyPass::Listed(_) => unreachable!(),
            },
            AnyQueue::LastValue(held) => match pass {
                AnyPass::Held(pass) => held.lock(pass, row),
                AnyPass::Listed(_) => unreachable!(),
            },
        }
    }

    fn unlock(&self, pass: &mut AnyPass, row: u64, cargo: C) {
        match self {
            AnyQueue::Listed(entries) => match pass {
                AnyPass::Listed(listed) => listed.unlock(entries, row, cargo),
                AnyPass::Held(_) => unreachable!(),
            },
            AnyQueue::Sorted(held) => match pass {
                AnyPass::Held(pass) => held.unlock(pass, row, cargo),
                AnyPass::Listed(_) => unreachable!(),
            },
            AnyQueue::LastValue(held) => match pass {
                AnyPass::Held(pass) => held.unlock(pass, row, cargo),
                AnyPass::Listed(_) => unreachable!(),
            },
        }
    }

    fn release(&self, pass: &mut AnyPass, row: u64, cargo: C) -> Releasing<C> {
        match self {
            AnyQueue::Listed(entries) => match pass {
                AnyPass::Listed(listed) => {
                    listed.release(entries, row, cargo);
                    Releasing::Released
                }
                AnyPass::Held(_) => unreachable!(),
            },
            AnyQueue::Sorted(held) => match pass {
                AnyPass::Held(pass) => held.release(pass, row, cargo),
                AnyPass::Listed(_) => unreachable!(),
            },
            AnyQueue::LastValue(held) => match pass {
                AnyPass::Held(pass) => held.release(pass, row, cargo),
                AnyPass::Listed(_) => unreachable!(),
            },
        }
    }

    fn steal(&self, pass: &mut AnyPass, row: u64) -> Stealing<C> {
        match self {
            AnyQueue::Listed(entries) => match pass {
                AnyPass::Listed(listed) => listed.steal(entries, row),
                AnyPass::Held(_) => unreachable!(),
            },
            AnyQueue::Sorted(held) => match pass {
                AnyPass::Held(pass) => held.steal(pass, row),
                AnyPass::Listed(_) => unreachable!(),
            },
            AnyQueue::LastValue(held) => match pass {
                AnyPass::Held(pass) => held.steal(pass, row),
                AnyPass::Listed(_) => unreachable!(),
            },
        }
    }

    fn dequeue(&self, pass: &mut AnyPass, row: u64) {
        match self {
            AnyQueue::Listed(entries) => match pass {
                AnyPass::Listed(listed) => listed.dequeue(entries, row),
                AnyPass::Held(_) => unreachable!(),
            },
            AnyQueue::Sorted(held) => match pass {
                AnyPass::Held(pass) => held.dequeue(pass, row),
                AnyPass::Listed(_) => unreachable!(),
            },
            AnyQueue::LastValue(held) => match pass {
                AnyPass::Held(pass) => held.dequeue(pass, row),
                AnyPass::Listed(_) => unreachable!(),
            },
        }
    }

    fn delete(&self, pass: &mut AnyPass, row: u64)
        requires serves { ServesAny self.now pass.old }
        requires dequeued { HasDequeued (sight_in pass.old).caller row (sight_in pass.old).seen }
        ensures serves { ServesAny self.now pass.new }
        ensures called { Called (build_in self.now) (sight_in pass.old) (sight_in pass.new)
            (CallDelete row) IsDone }
        ensures scavenges { DeletesAny pass.old pass.new row }
    {
        match self {
            AnyQueue::Listed(entries) => match pass {
                AnyPass::Listed(listed) => listed.delete(entries, row),
                AnyPass::Held(_) => unreachable!(),
            },
            AnyQueue::Sorted(held) => match pass {
                AnyPass::Held(pass) => held.delete(pass, row),
                AnyPass::Listed(_) => unreachable!(),
            },
            AnyQueue::LastValue(held) => match pass {
                AnyPass::Held(pass) => held.delete(pass, row),
                AnyPass::Listed(_) => unreachable!(),
            },
        }
    }

    ghost opens = { any_opens };
}
