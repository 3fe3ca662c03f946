//! Four threads that put, hold, leave, lock again, give back, steal and take out, and what they leave of the table.
ghost use Rattle.std.specs.Prelude.{◌≡◌, ◌<◌, ◌≤◌, ℕ, All, IfSome, length, slice_index_or};
ghost use Rattle.acts_core.specs.Asked.{Handed, HasLeft};
ghost use Rattle.acts_core.specs.Hands.{SamePass};
ghost use Rattle.entry_table.specs.Passes.{allowance, seen, state};
ghost use Rattle.entry_table.specs.Sights.{Serves, sight};

use crate::closing_tests::left;
use crate::shared_tests::{PUTS, ROWS, Tally, Worker, dismiss, hired, put_all};
use crate::tests::Empty;
use crate::{delete, dequeue, find, lock, release, steal, unlock};
use acts_core::{Freight, Locking, Stealing};
use entry_table::{Entries, Pass};
use queue_model::{Change, RowState};
use std::test::Fail;
use std::thread::{self, Threads};

/// How many rounds each thread makes.
const ROUNDS: u64 = 12;

/// Acquires the entry of this id, if it is available; answers its row too.
fn acquire<C: Freight>(entries: &Entries<C>, pass: &mut Pass, id: u64) -> Option<(u64, C)>
    requires serves { Serves entries.now pass.old }
    ensures serves { Serves entries.now pass.new }
    ensures same { SamePass (sight pass.old) (sight pass.new) }
    ensures handed { IfSome result
        (λ x. Handed (state pass.new) pass.new.caller x.0 (C.goods x.1)) }
{
    let Some(row) = find(entries, pass, id) else {
        return None;
    };
    match entries.take_row(pass, row, Change::Acq, RowState::Available) {
        Ok(cargo) => Some((row, cargo)),
        Err(_) => None,
    }
}

/// Holds the entry of this id, if it is available, and leaves it; answers its row.
fn leave<C: Freight>(entries: &Entries<C>, pass: &mut Pass, id: u64) -> Option<u64>
    requires serves { Serves entries.now pass.old }
    ensures serves { Serves entries.now pass.new }
    ensures same { SamePass (sight pass.old) (sight pass.new) }
    ensures left { IfSome result (λ row. HasLeft pass.new.caller row (seen pass.new)) }
{
    match acquire(entries, pass, id) {
        Some((row, cargo)) => {
            unlock(entries, pass, row, cargo);
            Some(row)
        }
        None => None,
    }
}

/// Locks a row again that the caller had left, and gives it back, unless it was stolen meanwhile.
fn lock_again<C: Freight>(entries: &Entries<C>, pass: &mut Pass, row: u64)
    requires serves { Serves entries.now pass.old }
    requires left { HasLeft pass.old.caller row (seen pass.old) }
    ensures serves { Serves entries.now pass.new }
    ensures same { SamePass (sight pass.old) (sight pass.new) }
{
    match lock(entries, pass, row) {
        Locking::Locked(cargo) => release(entries, pass, row, cargo),
        Locking::Stolen(_) => {}
    }
}

/// Takes the entry of this id out, if it is available; answers whether it was.
fn take_out<C: Freight>(entries: &Entries<C>, pass: &mut Pass, id: u64) -> bool
    requires serves { Serves entries.now pass.old }
    ensures serves { Serves entries.now pass.new }
    ensures same { SamePass (sight pass.old) (sight pass.new) }
{
    match acquire(entries, pass, id) {
        Some((row, _)) => {
            dequeue(entries, pass, row);
            delete(entries, pass, row);
            true
        }
        None => false,
    }
}

/// Takes the entry of this id out, where somebody had left it; answers whether somebody had.
fn steal_out<C: Freight>(entries: &Entries<C>, pass: &mut Pass, id: u64) -> bool
    requires serves { Serves entries.now pass.old }
    ensures serves { Serves entries.now pass.new }
    ensures same { SamePass (sight pass.old) (sight pass.new) }
{
    let Some(row) = find(entries, pass, id) else {
        return false;
    };
    match steal(entries, pass, row) {
        Stealing::Stolen(_) => {
            dequeue(entries, pass, row);
            delete(entries, pass, row);
            true
        }
        Stealing::NotStealable(_) | Stealing::Moved(_) => false,
    }
}

/// The tally with one entry more.
fn with(tally: Tally, id: u64) -> Tally {
    Tally {
        count: tally.count.wrapping_add(1),
        bits: tally.bits.wrapping_add(1u64 << (id % 64)),
    }
}

/// Leaves an entry and locks it again, leaves another, and takes out one that was left and one that was not.
fn round(entries: &Entries<Empty>, pass: &mut Pass, id: u64, taken: Tally) -> Tally
    requires serves { Serves entries.now pass.old }
    ensures serves { Serves entries.now pass.new }
    ensures same { SamePass (sight pass.old) (sight pass.new) }
{
    let mut taken = taken;
    if let Some(row) = leave(entries, pass, id % ROWS) {
        lock_again(entries, pass, row);
    }
    leave(entries, pass, id.wrapping_add(1) % ROWS);
    let stolen = id.wrapping_add(6) % ROWS;
    if steal_out(entries, pass, stolen) {
        taken = with(taken, stolen);
    }
    let taken_out = id.wrapping_add(32) % ROWS;
    if take_out(entries, pass, taken_out) {
        taken = with(taken, taken_out);
    }
    taken
}

/// Puts the entries of a thread, and makes its rounds. Answers what it took out.
fn work(entries: &Entries<Empty>, pass: &mut Pass, first: u64) -> Tally
    requires serves { Serves entries.now pass.old }
    requires allowed { PUTS ≤ allowance pass.old }
    requires shape { (entries.now.shape.lists ≡ 1) × (entries.now.shape.consumers ≡ 0) }
    ensures serves { Serves entries.now pass.new }
    ensures same { SamePass (sight pass.old) (sight pass.new) }
{
    put_all(entries, pass, first);
    let mut taken = Tally { count: 0, bits: 0 };
    for k in 0..ROUNDS {
        taken = round(entries, pass, first.wrapping_add(k.wrapping_mul(5)), taken);
    }
    taken
}

/// Each works, in a thread of its own.
fn work_beside<R: Threads + Sync>(rt: &R, entries: &Entries<Empty>, workers: &mut [Worker])
    requires may { All (λ w. Serves entries.now w.pass × (PUTS ≤ allowance w.pass)) workers.old }
    requires shape { (entries.now.shape.lists ≡ 1) × (entries.now.shape.consumers ≡ 0) }
    ensures ran { (i : ℕ) (d : Worker) → i < length workers.old
        → Serves entries.now (slice_index_or workers.new i d).pass
        × SamePass (sight (slice_index_or workers.old i d).pass)
        (sight (slice_index_or workers.new i d).pass) }
{
    let one = |_: usize, worker: &mut Worker|
        requires { Serves entries.now worker.now.pass × (PUTS ≤ allowance worker.now.pass)
            × (entries.now.shape.lists ≡ 1) × (entries.now.shape.consumers ≡ 0) }
        ensures { Serves entries.entry.now worker.exit.now.pass
            × SamePass (sight worker.entry.now.pass) (sight worker.exit.now.pass) }
    { worker.taken = work(entries, &mut worker.pass, worker.first) };
    thread::for_each_mut(rt, workers, 4, &one);
}

/// Two tallies as one.
fn sum(one: Tally, two: Tally) -> Tally {
    Tally {
        count: one.count.wrapping_add(two.count),
        bits: one.bits.wrapping_add(two.bits),
    }
}

/// Each entry is left once, or was taken out once; and the depth is that of what is left.
#[test]
fn four_threads_lose_and_double_nothing(rt: HostRuntime) -> Result<(), Fail> {
    let alloc = rt.alloc();
    let (table, mut boss) = Entries::make(alloc, 1, ROWS, 0, Vec::new(alloc))?;
    let one = hired(&table, &mut boss, 0);
    let two = hired(&table, &mut boss, 16);
    let three = hired(&table, &mut boss, 32);
    let four = hired(&table, &mut boss, 48);
    let mut workers = [one, two, three, four];
    work_beside(&rt, &table, &mut workers);
    let [one, two, three, four] = workers;
    let one = dismiss(&table, &mut boss, 1, one);
    let two = dismiss(&table, &mut boss, 2, two);
    let three = dismiss(&table, &mut boss, 3, three);
    let four = dismiss(&table, &mut boss, 4, four);
    let mut all = sum(sum(one, two), sum(three, four));
    let Some(left) = left(table, boss, ROWS) else {
        panic!(rt; "a row is held");
    };
    assert_eq!(rt; left.rest.len() as u64, left.depth);
    for entry in &left.rest {
        assert_eq!(rt; entry.cargo.id, entry.slip.id);
        all = with(all, entry.slip.id);
    }
    assert_eq!(rt; all.count, ROWS);
    assert_eq!(rt; all.bits, u64::MAX);
    Ok(())
}
