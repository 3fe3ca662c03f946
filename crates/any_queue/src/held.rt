//! Sorted and last-value queues that are made and closed, and their passes.
ghost use Rattle.std.specs.Prelude.{◌≡◌, ◌<◌, ◌≤◌, IfOk, vec_len, map};
ghost use Rattle.std.specs.List.{AllByRecursion};
ghost use Rattle.acts_core.specs.Asked.{KeyFits};
ghost use Rattle.acts_core.specs.Rest.{left_of};
ghost use Rattle.acts_core.specs.Sight as kinds;
ghost use Rattle.held_table.specs.Sights.{Serves, build_by, sight};
ghost use Rattle.lastval_core.specs.Fronts.{KeysApart};
ghost use Rattle.any_queue.specs.Parting.{AllMayStart, IsFresh, MayPart, IsSplit, IsJoined, IsLast, IsClosed};

use acts_core::{BareCore, Cargo, Freight, RestEntry};
use byte_lists::NoMemory;
use held_table::{Held, HeldPass};
use lastval_core::LastValue;
use queue_model::Slip;
use sorted_core::Sorted;
use std::alloc::Global;
use std::sync::Wait;

// The value, on the heap.
fn boxed<T: Drop>(alloc: Global, value: T) -> Result<Box<T>, NoMemory>
    ensures { IfOk result (λ b. b.value ≡ value) }
{
    match Box::new(alloc, value) {
        Ok(boxed) => Ok(boxed),
        Err(_) => Err(NoMemory),
    }
}

/// A sorted queue of so many rows and consumers that starts with these entries, and the pass of its boss.
pub(crate) fn make_sorted<C: Cargo, R: Wait + Drop>(
    rt: R,
    alloc: Global,
    rows: u64,
    consumers: u32,
    start: Vec<(Slip, C)>,
) -> Result<(Box<Held<C, Sorted<C>, R>>, HeldPass), NoMemory>
    requires rows { rows ≤ 524288 }
    requires consumers { consumers ≤ 64 }
    requires room { vec_len start ≤ rows }
    requires start { AllMayStart C.load kinds.Sorted 1 consumers start.items }
    ensures serves { IfOk result (λ r. Serves r.0.value r.1) }
    ensures fresh { IfOk result (λ r. IsFresh C.load kinds.Sorted 1 rows consumers start.items
        (build_by kinds.Sorted r.0.value) (sight r.1)) }
{
    let spare = rows - start.len() as u64;
    let mut core = Sorted::make(alloc, start)?;
    match core.grow(spare) {
        Ok(()) => {
            let (held, boss) = Held::make(rt, alloc, core, consumers)?;
            Ok((boxed(alloc, held)?, boss))
        }
        Err(_) => Err(NoMemory),
    }
}

/// A last-value queue of so many rows and consumers that starts with these entries, and the pass of its boss.
pub(crate) fn make_last_value<C: Cargo, R: Wait + Drop>(
    rt: R,
    alloc: Global,
    rows: u64,
    consumers: u32,
    start: Vec<(Slip, C)>,
) -> Result<(Box<Held<C, LastValue<C>, R>>, HeldPass), NoMemory>
    requires rows { rows ≤ 524288 }
    requires consumers { consumers ≤ 64 }
    requires room { vec_len start ≤ rows }
    requires start { AllMayStart C.load kinds.LastValue 1 consumers start.items }
    requires apart { KeysApart start.items }
    ensures serves { IfOk result (λ r. Serves r.0.value r.1) }
    ensures fresh { IfOk result (λ r. IsFresh C.load kinds.LastValue 1 rows consumers start.items
        (build_by kinds.LastValue r.0.value) (sight r.1)) }
{
    let spare = rows - start.len() as u64;
    let mut core = LastValue::make(alloc, start)?;
    match core.grow(spare) {
        Ok(()) => {
            let (held, boss) = Held::make(rt, alloc, core, consumers)?;
            Ok((boxed(alloc, held)?, boss))
        }
        Err(_) => Err(NoMemory),
    }
}

/// A split of a held queue's pass.
pub(crate) fn split_held<C: Freight, Q: BareCore<C>, R: Wait + Drop>(
    held: &Held<C, Q, R>,
    boss: &mut HeldPass,
    consumers: &[u32],
    allowance: u64,
) -> HeldPass
    requires serves { Serves held.now boss.old }
    requires may { MayPart (sight boss.old) consumers.now allowance }
    ensures serves { Serves held.now boss.new × Serves held.now result }
    ensures split { IsSplit (sight boss.old) (sight boss.new) (sight result) consumers.now
        allowance }
{
    held.split(boss, consumers, allowance)
}

/// Passes of a held queue as one.
pub(crate) fn join_held<C: Freight, Q: BareCore<C>, R: Wait + Drop>(
    held: &Held<C, Q, R>,
    into: &mut HeldPass,
    gone: HeldPass,
)
    requires into { Serves held.now into.old }
    requires gone { Serves held.now gone }
    requires history { (sight gone).opening ≡ (sight into.old).opening }
    ensures serves { Serves held.now into.new }
    ensures joined { IsJoined (sight into.old) (sight gone) (sight into.new) }
{
    held.join(into, gone);
}

/// What is left of a held queue.
pub(crate) fn close_held<C: Freight, Q: BareCore<C>, R: Wait + Drop>(
    held: Held<C, Q, R>,
    boss: HeldPass,
) -> Vec<RestEntry<C>>
    requires serves { Serves held boss }
    requires last { IsLast (sight boss) }
    ensures closed { IsClosed Q.kind_of (sight boss) (map (left_of C.goods) result.items) }
    ensures keys { AllByRecursion (λ e. KeyFits Q.kind_of e.slip.key) result.items }
{
    held.close(boss).bare_into_rest()
}
