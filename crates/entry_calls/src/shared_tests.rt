//! Four threads on one table, and what is left when it is closed.
ghost use Rattle.std.specs.Prelude.{◌≡◌, ◌<◌, ◌≤◌, ◌+◌, ◌∷◌, [], ℕ, All, length, slice_index_or};
ghost use Rattle.acts_core.specs.Hands.{SamePass};
ghost use Rattle.entry_table.specs.Passes.{allowance, callers, opening, share, view};
ghost use Rattle.entry_table.specs.Sights.{Serves, sight};
ghost use Rattle.entry_table.specs.Views.{Has};

use crate::closing_tests::left;
use crate::tests::{Empty, slip};
use crate::{enqueue, reserve};
use acts_core::RestEntry;
use entry_table::{Entries, Pass};
use queue_model::RowState;
use std::test::Fail;
use std::thread::{self, Threads};

/// How many entries each thread puts.
pub(crate) const PUTS: u64 = 16;

/// How many rows the table has.
pub(crate) const ROWS: u64 = 64;

/// How many entries there are, and the sum of 2^id of them.
#[derive(Clone, Copy, Drop)]
pub(crate) struct Tally {
    pub(crate) count: u64,
    pub(crate) bits: u64,
}

/// No entries.
const NONE: Tally = Tally { count: 0, bits: 0 };

/// What a thread works with: its pass, the id of the first of its entries, and what it took out.
#[derive(Drop)]
pub(crate) struct Worker {
    pub(crate) pass: Pass,
    pub(crate) first: u64,
    pub(crate) taken: Tally,
}

/// Puts an entry of this id.
fn put_one(entries: &Entries<Empty>, pass: &mut Pass, id: u64)
    requires serves { Serves entries.now pass.old }
    requires allowed { 0 < allowance pass.old }
    requires shape { (entries.now.shape.lists ≡ 1) × (entries.now.shape.consumers ≡ 0) }
    ensures serves { Serves entries.now pass.new }
    ensures same { SamePass (sight pass.old) (sight pass.new) }
    ensures allowed { allowance pass.new + 1 ≡ allowance pass.old }
{
    reserve(entries, pass, 0);
    enqueue(entries, pass, &slip(id), Empty { id });
}

/// Puts entries of the ids from this one on.
pub(crate) fn put_all(entries: &Entries<Empty>, pass: &mut Pass, first: u64)
    requires serves { Serves entries.now pass.old }
    requires allowed { PUTS ≤ allowance pass.old }
    requires shape { (entries.now.shape.lists ≡ 1) × (entries.now.shape.consumers ≡ 0) }
    ensures serves { Serves entries.now pass.new }
    ensures same { SamePass (sight pass.old) (sight pass.new) }
{
    for k in 0..PUTS {
        put_one(entries, pass, first.wrapping_add(k));
    }
}

/// Each puts its entries, in a thread of its own.
fn put_beside<R: Threads + Sync>(rt: &R, entries: &Entries<Empty>, workers: &mut [Worker])
    requires may { All (λ w. Serves entries.now w.pass × (PUTS ≤ allowance w.pass)) workers.old }
    requires shape { (entries.now.shape.lists ≡ 1) × (entries.now.shape.consumers ≡ 0) }
    ensures ran { (i : ℕ) (d : Worker) → i < length workers.old
        → Serves entries.now (slice_index_or workers.new i d).pass
        × SamePass (sight (slice_index_or workers.old i d).pass)
        (sight (slice_index_or workers.new i d).pass) }
{
    let put = |_: usize, worker: &mut Worker|
        requires { Serves entries.now worker.now.pass × (PUTS ≤ allowance worker.now.pass)
            × (entries.now.shape.lists ≡ 1) × (entries.now.shape.consumers ≡ 0) }
        ensures { Serves entries.entry.now worker.exit.now.pass
            × SamePass (sight worker.entry.now.pass) (sight worker.exit.now.pass) }
    { put_all(entries, &mut worker.pass, worker.first) };
    thread::for_each_mut(rt, workers, 4, &put);
}

/// What a thread begins with: a pass that is split off the boss's.
pub(crate) fn hired(entries: &Entries<Empty>, boss: &mut Pass, first: u64) -> Worker
    requires serves { Serves entries.now boss.old }
    requires boss { boss.old.caller ≡ 0 }
    requires made { (view boss.old).made < 5 }
    requires room { (PUTS ≤ allowance boss.old) × (PUTS ≤ share boss.old) }
    ensures serves { Serves entries.now boss.new × Serves entries.now result.pass }
    ensures boss { (boss.new.caller ≡ 0) × (callers boss.new ≡ callers boss.old)
        × (opening boss.new ≡ opening boss.old) }
    ensures made { (view boss.new).made ≡ (view boss.old).made + 1 }
    ensures room { (allowance boss.new + PUTS ≡ allowance boss.old)
        × (share boss.new + PUTS ≡ share boss.old) }
    ensures worker { (result.pass.caller ≡ (view boss.old).made)
        × (callers result.pass ≡ result.pass.caller ∷ [])
        × (opening result.pass ≡ opening boss.old) × (PUTS ≤ allowance result.pass) }
{
    let pass = entries.split(boss, &[], PUTS);
    let taken = NONE;
    Worker { pass, first, taken }
}

/// Joins the pass of the caller with this number into the boss's, which speaks for those below. Answers what the thread
/// took out.
pub(crate) fn dismiss(
    entries: &Entries<Empty>,
    boss: &mut Pass,
    number: u64,
    worker: Worker,
) -> Tally
    requires serves { Serves entries.now boss.old × Serves entries.now worker.pass }
    requires worker { (callers worker.pass ≡ number ∷ [])
        × (opening worker.pass ≡ opening boss.old) }
    requires every { (k : ℕ) → k < number → Has k (callers boss.old) }
    ensures serves { Serves entries.now boss.new }
    ensures boss { (boss.new.caller ≡ boss.old.caller) × (opening boss.new ≡ opening boss.old)
        × ((view boss.new).made ≡ (view boss.old).made) }
    ensures every { (k : ℕ) → k < number + 1 → Has k (callers boss.new) }
{
    let Worker {
        pass,
        first: _,
        taken,
    } = worker;
    let _number = number;
    entries.join(boss, pass);
    taken
}

/// Whether the ids of one thread are there, each once and in its order.
fn has_in_order(rest: &[RestEntry<Empty>], first: u64) -> bool {
    let mut next = first;
    for entry in rest {
        let id = entry.cargo.id;
        if id / PUTS == first / PUTS {
            if id != next || id != entry.slip.id || entry.state != RowState::Available {
                return false;
            }
            next = next.wrapping_add(1);
        }
    }
    next == first.wrapping_add(PUTS)
}

/// Each entry is left once, those of a thread in its order, whatever the schedule.
#[test]
fn four_threads_put_into_one_table(rt: HostRuntime) -> Result<(), Fail> {
    let alloc = rt.alloc();
    let (table, mut boss) = Entries::make(alloc, 1, ROWS, 0, Vec::new(alloc))?;
    let one = hired(&table, &mut boss, 0);
    let two = hired(&table, &mut boss, 16);
    let three = hired(&table, &mut boss, 32);
    let four = hired(&table, &mut boss, 48);
    let mut workers = [one, two, three, four];
    put_beside(&rt, &table, &mut workers);
    let [one, two, three, four] = workers;
    dismiss(&table, &mut boss, 1, one);
    dismiss(&table, &mut boss, 2, two);
    dismiss(&table, &mut boss, 3, three);
    dismiss(&table, &mut boss, 4, four);
    let Some(left) = left(table, boss, ROWS) else {
        panic!(rt; "a row is held");
    };
    assert_eq!(rt; (left.depth, left.rest.len()), (64, 64));
    assert!(rt; has_in_order(&left.rest, 0) && has_in_order(&left.rest, 16));
    assert!(rt; has_in_order(&left.rest, 32) && has_in_order(&left.rest, 48));
    Ok(())
}
