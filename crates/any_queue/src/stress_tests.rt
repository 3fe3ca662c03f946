//! Four threads on one queue, and what they leave.
ghost use Rattle.std.specs.Prelude.{◌≡◌, ◌≤◌, vec_len};
ghost use Rattle.defs_read.specs.Allowed.{HasPriorities};
ghost use Rattle.defs_read.specs.Slips.{lists_of};
ghost use Rattle.any_queue.specs.Kinds.{sight_in, ServesAny};
ghost use Rattle.std.specs.Thread.{IsSync};

use crate::shared_tests::{
    PUTS, both_put, hold_and_leave, lock_again, of_kind, oldest_out, put_all, put_one, putter,
    standard, steal_out,
};
use crate::tests::Empty;
use crate::{AnyPass, AnyQueue};
use acts_core::{Placed, SharedQueue};
use byte_lists::{Bytes, NoMemory};
use defs_read::{QueueDef, QueueKind};
use std::alloc::{AllocError, Global};
use std::sync::Wait;
use std::test::Fail;
use std::thread::{Threads, join};

/// How many entries four threads put.
const ALL: u64 = 64;

/// How many entries were taken out, and the sum of 2^id of them.
#[derive(Clone, Copy)]
struct Tally {
    count: u64,
    bits: u64,
}

/// A pass, and what was taken out by it.
#[derive(Drop)]
struct Worked {
    pass: AnyPass,
    tally: Tally,
}

/// The tally with one entry more, if any.
fn with(tally: Tally, id: Option<u64>) -> Tally {
    match id {
        Some(id) => Tally {
            count: tally.count.wrapping_add(1),
            bits: tally.bits.wrapping_add(1u64 << (id % 64)),
        },
        None => tally,
    }
}

/// Two tallies as one.
fn sum(one: Tally, two: Tally) -> Tally {
    Tally {
        count: one.count.wrapping_add(two.count),
        bits: one.bits.wrapping_add(two.bits),
    }
}

/// Leaves the oldest entry, and locks it again and gives it back, unless it was stolen meanwhile.
fn leave_and_lock<W: Wait + Send + Sync + Drop>(queue: &AnyQueue<Empty, W>, pass: &mut AnyPass)
    requires serves { ServesAny queue.now pass.old }
    ensures serves { ServesAny queue.now pass.new }
    ensures opening { (sight_in pass.new).opening ≡ (sight_in pass.old).opening }
{
    if let Some(row) = hold_and_leave(queue, pass) {
        lock_again(queue, pass, row);
    }
}

/// Takes the entry of this id out, where somebody had left it, and answers the id.
fn stolen<W: Wait + Send + Sync + Drop>(
    queue: &AnyQueue<Empty, W>,
    pass: &mut AnyPass,
    id: u64,
) -> Option<u64>
    requires serves { ServesAny queue.now pass.old }
    ensures serves { ServesAny queue.now pass.new }
    ensures opening { (sight_in pass.new).opening ≡ (sight_in pass.old).opening }
{
    if steal_out(queue, pass, id) == Some(true) {
        Some(id)
    } else {
        None
    }
}

/// Leaves one entry and locks it again, leaves another, and takes out one that was left and one that was not.
fn round<W: Wait + Send + Sync + Drop>(
    queue: &AnyQueue<Empty, W>,
    pass: &mut AnyPass,
    id: u64,
) -> Tally
    requires serves { ServesAny queue.now pass.old }
    ensures serves { ServesAny queue.now pass.new }
    ensures opening { (sight_in pass.new).opening ≡ (sight_in pass.old).opening }
{
    leave_and_lock(queue, pass);
    hold_and_leave(queue, pass);
    let left = stolen(queue, pass, id);
    let oldest = oldest_out(queue, pass);
    with(with(Tally { count: 0, bits: 0 }, left), oldest)
}

/// Puts entries of the ids from this one on, and then makes half as many rounds.
fn work<W: Wait + Send + Sync + Drop>(
    queue: &AnyQueue<Empty, W>,
    pass: AnyPass,
    first: u64,
) -> Worked
    requires serves { ServesAny queue.now pass }
    requires allowed { PUTS ≤ (sight_in pass).allowance }
    requires lists { (sight_in pass).opening.lists ≡ 1 }
    requires consumers { (sight_in pass).opening.consumers ≡ 2 }
    ensures serves { ServesAny queue.now result.pass }
    ensures opening { (sight_in result.pass).opening ≡ (sight_in pass).opening }
{
    let mut pass = put_all(queue, pass, first);
    let mut tally = Tally { count: 0, bits: 0 };
    for k in 0..PUTS / 2 {
        let id = first.wrapping_add(k.wrapping_mul(5)) % ALL;
        tally = sum(tally, round(queue, &mut pass, id));
    }
    Worked { pass, tally }
}

/// Two threads work.
fn both_work<R: Threads + Sync, W: Wait + Send + Sync + Drop>(
    rt: &R,
    queue: &AnyQueue<Empty, W>,
    one: AnyPass,
    two: AnyPass,
    first: u64,
) -> (Worked, Worked)
    requires serves { ServesAny queue.now one × ServesAny queue.now two }
    requires allowed { (PUTS ≤ (sight_in one).allowance) × (PUTS ≤ (sight_in two).allowance) }
    requires lists { ((sight_in one).opening.lists ≡ 1) × ((sight_in two).opening.lists ≡ 1) }
    requires consumers { ((sight_in one).opening.consumers ≡ 2)
        × ((sight_in two).opening.consumers ≡ 2) }
    ensures serves { ServesAny queue.now result.0.pass × ServesAny queue.now result.1.pass }
    ensures one { (sight_in result.0.pass).opening ≡ (sight_in one).opening }
    ensures two { (sight_in result.1.pass).opening ≡ (sight_in two).opening }
{
    let second = first.wrapping_add(PUTS);
    join(
        rt,
        || -> Worked
            requires { ServesAny queue.now one
                × (PUTS ≤ (sight_in one).allowance)
                × ((sight_in one).opening.lists ≡ 1)
                × ((sight_in one).opening.consumers ≡ 2) }
        { work(queue, one, first) },
        || -> Worked
            requires { ServesAny queue.now two
                × (PUTS ≤ (sight_in two).allowance)
                × ((sight_in two).opening.lists ≡ 1)
                × ((sight_in two).opening.consumers ≡ 2) }
        { work(queue, two, second) },
    )
}

/// Takes all that is left out.
fn drain<W: Wait + Send + Sync + Drop>(queue: &AnyQueue<Empty, W>, pass: &mut AnyPass) -> Tally
    requires serves { ServesAny queue.now pass.old }
    ensures serves { ServesAny queue.now pass.new }
{
    let mut tally = Tally { count: 0, bits: 0 };
    for id in 0..ALL {
        tally = with(tally, stolen(queue, pass, id));
        tally = with(tally, oldest_out(queue, pass));
    }
    tally
}

/// What came of four threads: how full the queue was told to be, what was left then, what came out in all, and how full
/// it was told to be in the end.
#[derive(Drop)]
struct Outcome {
    depth: u64,
    left: u64,
    all: Tally,
    end: u64,
}

/// Four threads work on a queue of one list.
fn four_work<R: Threads + Wait + Clone + Send + Sync + Drop>(
    rt: &R,
    alloc: Global,
    def: &QueueDef,
) -> Result<Outcome, NoMemory>
    requires kind { HasPriorities def.now.kind × (lists_of def.now.kind ≡ 1) }
    requires consumers { vec_len def.now.consumers ≡ 2 }
{
    let Ok(handle) = rt.clone() else {
        return Err(NoMemory);
    };
    let (queue, mut boss) = AnyQueue::make(handle, alloc, def, ALL, Vec::new(alloc))?;
    let one = putter(&queue, &mut boss);
    let two = putter(&queue, &mut boss);
    let three = putter(&queue, &mut boss);
    let four = putter(&queue, &mut boss);
    let shared = &queue;
    let ((one, two), (three, four)) = join(
        rt,
        || -> (Worked, Worked)
            requires { IsSync R.row
                × (ServesAny shared.now one × ServesAny shared.now two)
                × ((PUTS ≤ (sight_in one).allowance) × (PUTS ≤ (sight_in two).allowance))
                × (((sight_in one).opening.lists ≡ 1) × ((sight_in two).opening.lists ≡ 1))
                × (((sight_in one).opening.consumers ≡ 2)
                × ((sight_in two).opening.consumers ≡ 2)) }
        { both_work(rt, shared, one, two, 0) },
        || -> (Worked, Worked)
            requires { IsSync R.row
                × (ServesAny shared.now three × ServesAny shared.now four)
                × ((PUTS ≤ (sight_in three).allowance) × (PUTS ≤ (sight_in four).allowance))
                × (((sight_in three).opening.lists ≡ 1) × ((sight_in four).opening.lists ≡ 1))
                × (((sight_in three).opening.consumers ≡ 2)
                × ((sight_in four).opening.consumers ≡ 2)) }
        { both_work(rt, shared, three, four, 32) },
    );
    let worked = sum(sum(one.tally, two.tally), sum(three.tally, four.tally));
    queue.join(&mut boss, one.pass);
    queue.join(&mut boss, two.pass);
    queue.join(&mut boss, three.pass);
    queue.join(&mut boss, four.pass);
    let depth = queue.depth(&mut boss).entries;
    let left = drain(&queue, &mut boss);
    Ok(Outcome {
        depth,
        left: left.count,
        all: sum(worked, left),
        end: queue.depth(&mut boss).entries,
    })
}

/// Whether each entry was taken out once, by a thread or of what was left, and the depth was that of what was left.
fn is_whole(outcome: &Outcome) -> bool {
    outcome.depth == outcome.left
        && outcome.all.count == ALL
        && outcome.all.bits == u64::MAX
        && outcome.end == 0
}

/// On a standard queue.
#[test]
fn four_threads_lose_and_double_nothing(rt: HostRuntime) -> Result<(), Fail> {
    let alloc = rt.alloc();
    let outcome = four_work(&rt, alloc, &standard(alloc)?)?;
    assert!(rt; is_whole(&outcome));
    Ok(())
}

/// On a sorted queue, each behind its lock.
#[test]
fn four_threads_share_a_sorted_queue(rt: HostRuntime) -> Result<(), Fail> {
    let alloc = rt.alloc();
    let name = Bytes::from_vec(Vec::new(alloc));
    let outcome = four_work(&rt, alloc, &of_kind(alloc, QueueKind::Sorted(name))?)?;
    assert!(rt; is_whole(&outcome));
    Ok(())
}

/// On a last-value queue whose entries have no key.
#[test]
fn four_threads_share_a_last_value_queue(rt: HostRuntime) -> Result<(), Fail> {
    let alloc = rt.alloc();
    let name = Bytes::from_vec(Vec::new(alloc));
    let outcome = four_work(&rt, alloc, &of_kind(alloc, QueueKind::LastValue(name))?)?;
    assert!(rt; is_whole(&outcome));
    Ok(())
}

/// Takes all that is available out, the oldest first, and lists the ids.
fn ids_out<W: Wait + Send + Sync + Drop>(
    alloc: Global,
    queue: &AnyQueue<Empty, W>,
    pass: &mut AnyPass,
) -> Result<Vec<u64>, AllocError>
    requires serves { ServesAny queue.now pass.old }
{
    let mut ids = Vec::new(alloc);
    for _ in 0..ALL {
        if let Some(id) = oldest_out(queue, pass) {
            ids.push(id)?;
        }
    }
    Ok(ids)
}

/// Whether the ids of one thread are there, each once and in its order.
fn has_in_order(ids: &[u64], first: u64) -> bool {
    let end = first.wrapping_add(PUTS);
    let mut next = first;
    for id in ids {
        if *id >= first && *id < end {
            if *id != next {
                return false;
            }
            next = next.wrapping_add(1);
        }
    }
    next == end
}

/// Each entry of two threads is there once, and those of each in its order.
#[test]
fn two_threads_put_into_one_list(rt: HostRuntime) -> Result<(), Fail> {
    let alloc = rt.alloc();
    let def = standard(alloc)?;
    let (queue, mut boss) = AnyQueue::make(rt, alloc, &def, ALL, Vec::new(alloc))?;
    let one = putter(&queue, &mut boss);
    let two = putter(&queue, &mut boss);
    let (one, two) = both_put(&rt, &queue, one, two, 0);
    queue.join(&mut boss, one);
    queue.join(&mut boss, two);
    let ids = ids_out(alloc, &queue, &mut boss)?;
    assert_eq!(rt; ids.len(), 32);
    assert!(rt; has_in_order(&ids, 0) && has_in_order(&ids, PUTS));
    Ok(())
}

/// The same of four threads.
#[test]
fn four_threads_put_into_one_list(rt: HostRuntime) -> Result<(), Fail> {
    let alloc = rt.alloc();
    let def = standard(alloc)?;
    let (queue, mut boss) = AnyQueue::make(rt, alloc, &def, ALL, Vec::new(alloc))?;
    let one = putter(&queue, &mut boss);
    let two = putter(&queue, &mut boss);
    let three = putter(&queue, &mut boss);
    let four = putter(&queue, &mut boss);
    let shared = &queue;
    let ((one, two), (three, four)) = join(
        &rt,
        || both_put(&rt, shared, one, two, 0),
        || both_put(&rt, shared, three, four, 32),
    );
    queue.join(&mut boss, one);
    queue.join(&mut boss, two);
    queue.join(&mut boss, three);
    queue.join(&mut boss, four);
    let ids = ids_out(alloc, &queue, &mut boss)?;
    assert_eq!(rt; ids.len(), 64);
    assert!(rt; has_in_order(&ids, 0) && has_in_order(&ids, 16));
    assert!(rt; has_in_order(&ids, 32) && has_in_order(&ids, 48));
    Ok(())
}

/// A put to a table whose rows are all drawn gives its cargo back.
#[test]
fn a_third_put_to_two_rows_is_spent(rt: HostRuntime) -> Result<(), Fail> {
    let alloc = rt.alloc();
    let def = standard(alloc)?;
    let (queue, mut boss) = AnyQueue::make(rt, alloc, &def, 2, Vec::new(alloc))?;
    let first = put_one(&queue, &mut boss, 5);
    assert!(rt; matches!(first, Placed::At { row: 0, .. }));
    let second = put_one(&queue, &mut boss, 6);
    assert!(rt; matches!(second, Placed::At { row: 1, .. }));
    match put_one(&queue, &mut boss, 7) {
        Placed::Spent(cargo) => assert_eq!(rt; cargo.id, 7),
        Placed::At { .. } => panic!(rt; "a third row"),
    }
    Ok(())
}
