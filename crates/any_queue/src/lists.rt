//! Standard and priority queues that are made and closed, and their passes.
ghost use Rattle.std.specs.Prelude.{ℕ, ◌≡◌, ◌<◌, ◌≤◌, IfOk, vec_len, map};
ghost use Rattle.std.specs.List.{AllByRecursion};
ghost use Rattle.acts_core.specs.Asked.{KeyFits};
ghost use Rattle.acts_core.specs.Rest.{left_of};
ghost use Rattle.acts_core.specs.Sight.{Listed};
ghost use Rattle.entry_table.specs.Passes.{opening};
ghost use Rattle.entry_table.specs.Sights.{build_of, sight, Serves};
ghost use Rattle.cursor_core.specs.Holding.{cursor_at, or_other, AreHanded};
ghost use Rattle.any_queue.specs.Kinds.{ServesListed};
ghost use Rattle.any_queue.specs.Parting.{AllMayStart, IsFresh, MayPart, IsSplit, IsJoined, IsLast, IsClosed};

use crate::kinds::ListedPass;
use acts_core::{Freight, RestEntry};
use byte_lists::NoMemory;
use cursor_core::PassCursors;
use entry_table::{Entries, Pass};
use queue_model::Slip;
use std::alloc::Global;

/// A standard or a priority queue of so many lists, rows and consumers that starts with these entries, and the pass of
/// its boss, with a fresh cursor of each consumer.
pub(crate) fn make_listed<C: Freight>(
    alloc: Global,
    lists: u32,
    rows: u64,
    consumers: u32,
    start: Vec<(Slip, C)>,
) -> Result<(Entries<C>, ListedPass), NoMemory>
    requires lists { (0 < lists) × (lists ≤ 10) }
    requires rows { (0 < rows) × (rows ≤ 524288) }
    requires consumers { consumers ≤ 64 }
    requires room { vec_len start ≤ rows }
    requires start { AllMayStart C.goods Listed lists consumers start.items }
    ensures serves { IfOk result (λ r. ServesListed r.0 r.1) }
    ensures fresh { IfOk result (λ r. IsFresh C.goods Listed lists rows consumers start.items
        (build_of r.0) (sight r.1.pass)) }
{
    match Entries::make(alloc, lists, rows, consumers, start) {
        Ok((entries, pass)) => {
            let cursors = PassCursors::fresh(&pass, consumers, entries.lists());
            let boss = ListedPass { pass, cursors };
            Ok((entries, boss))
        }
        Err(_) => Err(NoMemory),
    }
}

/// A split of a standard or priority queue's pass: the cursors of the consumers go with them.
pub(crate) fn split_listed<C: Freight>(
    entries: &Entries<C>,
    boss: &mut ListedPass,
    consumers: &[u32],
    allowance: u64,
) -> ListedPass
    requires serves { ServesListed entries.now boss.old }
    requires may { MayPart (sight boss.old.pass) consumers.now allowance }
    ensures serves { ServesListed entries.now boss.new × ServesListed entries.now result }
    ensures split { IsSplit (sight boss.old.pass) (sight boss.new.pass) (sight result.pass)
        consumers.now allowance }
    ensures cursors { AreHanded consumers.now boss.old.cursors.slots boss.new.cursors.slots
        result.cursors.slots }
{
    let pass = entries.split(&mut boss.pass, consumers, allowance);
    let cursors = boss.cursors.hand(consumers);
    ListedPass { pass, cursors }
}

/// Passes of a standard or priority queue as one, which has the cursors of both.
pub(crate) fn join_listed<C: Freight>(entries: &Entries<C>, into: &mut ListedPass, gone: ListedPass)
    requires into { ServesListed entries.now into.old }
    requires gone { ServesListed entries.now gone }
    requires history { opening gone.pass ≡ opening into.old.pass }
    ensures serves { ServesListed entries.now into.new }
    ensures joined { IsJoined (sight into.old.pass) (sight gone.pass) (sight into.new.pass) }
    ensures cursors { (c : ℕ) → cursor_at into.new.cursors.slots c
        ≡ or_other (cursor_at gone.cursors.slots c) (cursor_at into.old.cursors.slots c) }
{
    let ListedPass { pass, cursors } = gone;
    entries.join(&mut into.pass, pass);
    into.cursors.take_in(cursors);
}

/// What is left of a standard or priority queue.
pub(crate) fn close_listed<C: Freight>(entries: Entries<C>, boss: Pass) -> Vec<RestEntry<C>>
    requires serves { Serves entries boss }
    requires last { IsLast (sight boss) }
    ensures closed { IsClosed Listed (sight boss) (map (left_of C.goods) result.items) }
    ensures keys { AllByRecursion (λ e. KeyFits Listed e.slip.key) result.items }
{
    entries.close(boss)
}
