//! Callers and threads that share one queue.
ghost use Rattle.std.specs.Prelude.{◌≡◌, ◌+◌, ◌<◌, ◌≤◌, None, [], ◌∷◌, IfOk, IfSome, vec_len};
ghost use mathlib.Core.List.{Mem};
ghost use Rattle.acts_core.specs.Asked.{HasLeft};
ghost use Rattle.any_queue.specs.Kinds.{sight_in, ServesAny};
ghost use Rattle.any_queue.specs.Parting.{MayPart, IsSplit};
ghost use Rattle.defs_read.specs.declared.defs.QueueKind.TheVariants as kinds;

use crate::tests::Empty;
use crate::{AnyPass, AnyQueue};
use acts_core::clients::{put_in, take_out};
use acts_core::{Locking, Next, Placed, Releasing, SharedQueue, Stealing};
use byte_lists::Bytes;
use defs_read::{ConsumerDef, QueueDef, QueueKind};
use queue_model::Slip;
use std::alloc::{AllocError, Global};
use std::sync::Wait;
use std::test::Fail;
use std::thread::{Threads, join};

/// How many entries each of two threads puts.
pub(crate) const PUTS: u64 = 16;

/// How often each of two threads tries to take one.
const TRIES: u64 = 40;

/// A pass, and what was taken by it: how many entries, and the sum of 2^id of them.
#[derive(Drop)]
pub(crate) struct Taken {
    pub(crate) pass: AnyPass,
    pub(crate) count: u64,
    pub(crate) bits: u64,
}

/// A standard queue of two consumers.
pub(crate) fn standard(alloc: Global) -> Result<QueueDef, AllocError>
    ensures { IfOk result (λ d. (d.kind ≡ kinds.Standard) × (vec_len d.consumers ≡ 2)) }
{
    of_kind(alloc, QueueKind::Standard)
}

/// A queue of this kind, of two consumers.
pub(crate) fn of_kind(alloc: Global, kind: QueueKind) -> Result<QueueDef, AllocError>
    ensures { IfOk result (λ d. (d.kind ≡ kind) × (vec_len d.consumers ≡ 2)) }
{
    let first = consumer(alloc, 0);
    let second = consumer(alloc, 1);
    let name = Bytes::from_vec(Vec::new(alloc));
    let consumers = vec![in alloc; first, second]?;
    Ok(QueueDef::bare(name, kind, consumers))
}

fn consumer(alloc: Global, number: u32) -> ConsumerDef {
    ConsumerDef {
        name: Bytes::from_vec(Vec::new(alloc)),
        actor: Bytes::from_vec(Vec::new(alloc)),
        number,
        selector: None,
    }
}

/// An entry that both consumers want.
pub(crate) fn wanted(id: u64) -> (Slip, Empty)
    ensures id { result.0.id ≡ id }
    ensures size { result.0.size ≡ 0 }
    ensures mask { result.0.mask ≡ 3 }
    ensures list { result.0.list ≡ 0 }
    ensures key { result.0.key ≡ None }
    ensures cargo { result.1.id ≡ id }
{
    let slip = Slip {
        id,
        size: 0,
        mask: 3,
        list: 0,
        key: None,
    };
    (slip, Empty { id })
}

/// Puts an entry of this id, in place of a reserved one.
pub(crate) fn put_one<W: Wait + Send + Sync + Drop>(
    queue: &AnyQueue<Empty, W>,
    pass: &mut AnyPass,
    id: u64,
) -> Placed<Empty>
    requires serves { ServesAny queue.now pass.old }
    requires allowed { 0 < (sight_in pass.old).allowance }
    requires lists { (sight_in pass.old).opening.lists ≡ 1 }
    requires consumers { (sight_in pass.old).opening.consumers ≡ 2 }
    ensures serves { ServesAny queue.now pass.new }
    ensures allowed { (sight_in pass.new).allowance + 1 ≡ (sight_in pass.old).allowance }
    ensures opening { (sight_in pass.new).opening ≡ (sight_in pass.old).opening }
    ensures consumers { (sight_in pass.new).consumers ≡ (sight_in pass.old).consumers }
{
    let (slip, cargo) = wanted(id);
    put_in(queue, pass, slip, cargo)
}

/// Puts entries of the ids from this one on.
pub(crate) fn put_all<W: Wait + Send + Sync + Drop>(
    queue: &AnyQueue<Empty, W>,
    pass: AnyPass,
    first: u64,
) -> AnyPass
    requires serves { ServesAny queue.now pass }
    requires allowed { PUTS ≤ (sight_in pass).allowance }
    requires lists { (sight_in pass).opening.lists ≡ 1 }
    requires consumers { (sight_in pass).opening.consumers ≡ 2 }
    ensures serves { ServesAny queue.now result }
    ensures opening { (sight_in result).opening ≡ (sight_in pass).opening }
{
    let mut pass = pass;
    for k in 0..PUTS {
        put_one(queue, &mut pass, first.wrapping_add(k));
    }
    pass
}

pub(crate) fn take_one<W: Wait + Send + Sync + Drop>(
    queue: &AnyQueue<Empty, W>,
    pass: &mut AnyPass,
    consumer: u32,
) -> Option<u64>
    requires serves { ServesAny queue.now pass.old }
    requires consumer { Mem consumer (sight_in pass.old).consumers }
    ensures serves { ServesAny queue.now pass.new }
    ensures consumers { (sight_in pass.new).consumers ≡ (sight_in pass.old).consumers }
    ensures opening { (sight_in pass.new).opening ≡ (sight_in pass.old).opening }
{
    take_out(queue, pass, consumer)
}

/// Takes entries for a consumer, as many as there are when it tries.
fn take_all<W: Wait + Send + Sync + Drop>(
    queue: &AnyQueue<Empty, W>,
    pass: AnyPass,
    consumer: u32,
) -> Taken
    requires serves { ServesAny queue.now pass }
    requires consumer { Mem consumer (sight_in pass).consumers }
    ensures serves { ServesAny queue.now result.pass }
    ensures opening { (sight_in result.pass).opening ≡ (sight_in pass).opening }
{
    let mut pass = pass;
    let mut count = 0u64;
    let mut bits = 0u64;
    for _ in 0..TRIES {
        if let Some(id) = take_one(queue, &mut pass, consumer) {
            count = count.wrapping_add(1);
            bits = bits.wrapping_add(1u64 << (id % 64));
        }
    }
    Taken { pass, count, bits }
}

/// Takes the oldest entry out.
pub(crate) fn oldest_out<W: Wait + Send + Sync + Drop>(
    queue: &AnyQueue<Empty, W>,
    pass: &mut AnyPass,
) -> Option<u64>
    requires serves { ServesAny queue.now pass.old }
    ensures serves { ServesAny queue.now pass.new }
    ensures opening { (sight_in pass.new).opening ≡ (sight_in pass.old).opening }
{
    match queue.oldest(pass) {
        Next::Got { row, cargo } => {
            let id = cargo.id;
            queue.dequeue(pass, row);
            queue.delete(pass, row);
            Some(id)
        }
        Next::Empty => None,
    }
}

/// What is left: how many entries, and the sum of 2^id of them.
fn left<W: Wait + Send + Sync + Drop>(queue: &AnyQueue<Empty, W>, pass: &mut AnyPass) -> (u64, u64)
    requires serves { ServesAny queue.now pass.old }
    ensures serves { ServesAny queue.now pass.new }
{
    let mut count = 0u64;
    let mut bits = 0u64;
    for _ in 0..TRIES {
        if let Some(id) = oldest_out(queue, pass) {
            count = count.wrapping_add(1);
            bits = bits.wrapping_add(1u64 << (id % 64));
        }
    }
    (count, bits)
}

/// Two threads put, entries of the ids from this one on.
pub(crate) fn both_put<R: Threads + Sync, W: Wait + Send + Sync + Drop>(
    rt: &R,
    queue: &AnyQueue<Empty, W>,
    one: AnyPass,
    two: AnyPass,
    first: u64,
) -> (AnyPass, AnyPass)
    requires serves { ServesAny queue.now one × ServesAny queue.now two }
    requires allowed { (PUTS ≤ (sight_in one).allowance) × (PUTS ≤ (sight_in two).allowance) }
    requires lists { ((sight_in one).opening.lists ≡ 1) × ((sight_in two).opening.lists ≡ 1) }
    requires consumers { ((sight_in one).opening.consumers ≡ 2)
        × ((sight_in two).opening.consumers ≡ 2) }
    ensures serves { ServesAny queue.now result.0 × ServesAny queue.now result.1 }
    ensures one { (sight_in result.0).opening ≡ (sight_in one).opening }
    ensures two { (sight_in result.1).opening ≡ (sight_in two).opening }
{
    let second = first.wrapping_add(PUTS);
    join(
        rt,
        || -> AnyPass
            requires { ServesAny queue.now one
                × (PUTS ≤ (sight_in one).allowance)
                × ((sight_in one).opening.lists ≡ 1)
                × ((sight_in one).opening.consumers ≡ 2) }
        { put_all(queue, one, first) },
        || -> AnyPass
            requires { ServesAny queue.now two
                × (PUTS ≤ (sight_in two).allowance)
                × ((sight_in two).opening.lists ≡ 1)
                × ((sight_in two).opening.consumers ≡ 2) }
        { put_all(queue, two, second) },
    )
}

/// Two threads take.
fn both_take<R: Threads + Sync, W: Wait + Send + Sync + Drop>(
    rt: &R,
    queue: &AnyQueue<Empty, W>,
    one: AnyPass,
    two: AnyPass,
) -> (Taken, Taken)
    requires serves { ServesAny queue.now one × ServesAny queue.now two }
    requires one { Mem 0 (sight_in one).consumers }
    requires two { Mem 1 (sight_in two).consumers }
    ensures serves { ServesAny queue.now result.0.pass × ServesAny queue.now result.1.pass }
    ensures one { (sight_in result.0.pass).opening ≡ (sight_in one).opening }
    ensures two { (sight_in result.1.pass).opening ≡ (sight_in two).opening }
{
    join(
        rt,
        || -> Taken
            requires { ServesAny queue.now one × Mem 0 (sight_in one).consumers }
        { take_all(queue, one, 0) },
        || -> Taken
            requires { ServesAny queue.now two × Mem 1 (sight_in two).consumers }
        { take_all(queue, two, 1) },
    )
}

/// The pass of a thread that puts.
pub(crate) fn putter<W: Wait + Send + Sync + Drop>(
    queue: &AnyQueue<Empty, W>,
    boss: &mut AnyPass,
) -> AnyPass
    requires serves { ServesAny queue.now boss.old }
    requires may { MayPart (sight_in boss.old) [] PUTS }
    requires lists { (sight_in boss.old).opening.lists ≡ 1 }
    requires consumers { (sight_in boss.old).opening.consumers ≡ 2 }
    ensures boss { ServesAny queue.now boss.new }
    ensures split { IsSplit (sight_in boss.old) (sight_in boss.new) (sight_in result) [] PUTS }
    ensures opening { (sight_in boss.new).opening ≡ (sight_in boss.old).opening }
    ensures serves { ServesAny queue.now result }
    ensures allowed { PUTS ≤ (sight_in result).allowance }
    ensures lists { (sight_in result).opening.lists ≡ 1 }
    ensures consumers { (sight_in result).opening.consumers ≡ 2 }
    ensures same { (sight_in result).opening ≡ (sight_in boss.old).opening }
{
    queue.split(boss, &[], PUTS)
}

/// The pass of a thread that takes.
fn taker<W: Wait + Send + Sync + Drop>(
    queue: &AnyQueue<Empty, W>,
    boss: &mut AnyPass,
    consumer: u32,
) -> AnyPass
    requires serves { ServesAny queue.now boss.old }
    requires may { MayPart (sight_in boss.old) (consumer ∷ []) 0 }
    ensures boss { ServesAny queue.now boss.new }
    ensures split { IsSplit (sight_in boss.old) (sight_in boss.new) (sight_in result)
        (consumer ∷ []) 0 }
    ensures opening { (sight_in boss.new).opening ≡ (sight_in boss.old).opening }
    ensures serves { ServesAny queue.now result }
    ensures consumer { Mem consumer (sight_in result).consumers }
    ensures same { (sight_in result).opening ≡ (sight_in boss.old).opening }
{
    queue.split(boss, &[consumer], 0)
}

/// Each entry is got once, by a thread or from what is left.
#[test]
fn two_threads_take_what_two_put(rt: HostRuntime) -> Result<(), Fail> {
    let alloc = rt.alloc();
    let def = standard(alloc)?;
    let (queue, mut boss) = AnyQueue::make(rt, alloc, &def, 64, Vec::new(alloc))?;
    let one = putter(&queue, &mut boss);
    let two = putter(&queue, &mut boss);
    let three = taker(&queue, &mut boss, 0);
    let four = taker(&queue, &mut boss, 1);
    let shared = &queue;
    let ((one, two), (three, four)) = join(
        &rt,
        || both_put(&rt, shared, one, two, 0),
        || both_take(&rt, shared, three, four),
    );
    let (more, sum) = (three.count, three.bits);
    let (others, rest) = (four.count, four.bits);
    queue.join(&mut boss, one);
    queue.join(&mut boss, two);
    queue.join(&mut boss, three.pass);
    queue.join(&mut boss, four.pass);
    let (count, bits) = left(&queue, &mut boss);
    assert_eq!(rt; count.wrapping_add(more).wrapping_add(others), 32);
    assert_eq!(rt; bits.wrapping_add(sum).wrapping_add(rest), 0xffff_ffff);
    assert_eq!(rt; queue.depth(&mut boss).entries, 0);
    Ok(())
}

/// Holds the oldest entry and leaves it; answers its row.
pub(crate) fn hold_and_leave<W: Wait + Send + Sync + Drop>(
    queue: &AnyQueue<Empty, W>,
    pass: &mut AnyPass,
) -> Option<u64>
    requires serves { ServesAny queue.now pass.old }
    ensures serves { ServesAny queue.now pass.new }
    ensures left { IfSome result (λ row.
        HasLeft (sight_in pass.new).caller row (sight_in pass.new).seen) }
    ensures opening { (sight_in pass.new).opening ≡ (sight_in pass.old).opening }
{
    match queue.oldest(pass) {
        Next::Got { row, cargo } => {
            queue.unlock(pass, row, cargo);
            Some(row)
        }
        Next::Empty => None,
    }
}

/// Steals the entry of this id, where there is one, and takes it out; answers whether somebody had left it.
pub(crate) fn steal_out<W: Wait + Send + Sync + Drop>(
    queue: &AnyQueue<Empty, W>,
    pass: &mut AnyPass,
    id: u64,
) -> Option<bool>
    requires serves { ServesAny queue.now pass.old }
    ensures serves { ServesAny queue.now pass.new }
    ensures opening { (sight_in pass.new).opening ≡ (sight_in pass.old).opening }
{
    let Some(row) = queue.find(pass, id) else {
        return None;
    };
    match queue.steal(pass, row) {
        Stealing::Stolen(_) => {
            queue.dequeue(pass, row);
            queue.delete(pass, row);
            Some(true)
        }
        Stealing::NotStealable(_) | Stealing::Moved(_) => Some(false),
    }
}

/// Locks a row again that the caller had left, and gives it back; answers whether it was still the caller's.
pub(crate) fn lock_again<W: Wait + Send + Sync + Drop>(
    queue: &AnyQueue<Empty, W>,
    pass: &mut AnyPass,
    row: u64,
) -> bool
    requires serves { ServesAny queue.now pass.old }
    requires left { HasLeft (sight_in pass.old).caller row (sight_in pass.old).seen }
    ensures serves { ServesAny queue.now pass.new }
    ensures opening { (sight_in pass.new).opening ≡ (sight_in pass.old).opening }
{
    match queue.lock(pass, row) {
        Locking::Locked(cargo) => { matches!(queue.release(pass, row, cargo), Releasing::Released) }
        Locking::Stolen(_) => false,
    }
}

/// One leaves the entry and the other steals it, or the first is back before.
#[test]
fn two_callers_meet_at_one_entry(rt: HostRuntime) -> Result<(), Fail> {
    let alloc = rt.alloc();
    let def = standard(alloc)?;
    let start = vec![in alloc; wanted(7)]?;
    let (queue, mut boss) = AnyQueue::make(rt, alloc, &def, 2, start)?;
    let mut other = queue.split(&mut boss, &[], 0);
    assert_eq!(rt; steal_out(&queue, &mut other, 7), Some(false));
    let first = hold_and_leave(&queue, &mut boss);
    assert_eq!(rt; first, Some(0));
    if let Some(row) = first {
        assert!(rt; lock_again(&queue, &mut boss, row));
    }
    assert_eq!(rt; steal_out(&queue, &mut other, 7), Some(false));
    let second = hold_and_leave(&queue, &mut boss);
    assert_eq!(rt; steal_out(&queue, &mut other, 7), Some(true));
    if let Some(row) = second {
        assert!(rt; !lock_again(&queue, &mut boss, row));
    }
    assert_eq!(rt; steal_out(&queue, &mut other, 7), None);
    assert_eq!(rt; queue.depth(&mut boss).entries, 0);
    Ok(())
}
