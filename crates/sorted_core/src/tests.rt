//! A sorted queue at a concrete cargo.
ghost use Rattle.std.specs.Prelude.{ℕ, ◌≡◌, ◌≢◌, IfSome};
ghost use Rattle.queue_model.specs.declared.queues.Queue.{Queue};
ghost use Rattle.acts_core.specs.Calls.{CallRelease};
ghost use Rattle.acts_core.specs.Kept.{Stands};
ghost use Rattle.acts_core.specs.Load.{Load};
ghost use Rattle.acts_core.specs.Serves.{MayCall};

use crate::Sorted;
use acts_core::{Cargo, Next, QueueCore};
use byte_lists::Bytes;
use queue_model::{MOST_ENTRIES, Slip};
use std::alloc::{AllocError, Global};
use std::test::Fail;

/// The caller that puts.
const PUTTER: u64 = 9;

/// How many entries are put with random keys.
const MANY: u64 = 1_000;

/// How many keys they have; an entry that draws the last has none.
const KEYS: u64 = 300;

/// A message with no bytes.
#[derive(Debug, Drop)]
struct Empty {
    id: u64,
}

impl Cargo for Empty {
    ghost use Rattle.std.specs.Prelude.{[]};
    ghost use Rattle.std.proofs.Common.{arith};

    ghost load = { λ m. record { id = m.id; size = 0; count = 0; content = []; origin = [] } };

    fn id(&self) -> u64 {
        self.id
    }

    fn size(&self) -> u64 {
        0
    }

    fn count(&self) -> u32 {
        0
    }

    ghost content_fits = { λ m. Prim.omega arith };
}

/// An entry of this key, that the first consumer wants.
fn entry(id: u64, key: Option<Bytes>) -> (Slip, Empty)
    ensures id { result.0.id ≡ id }
    ensures size { result.0.size ≡ 0 }
    ensures mask { result.0.mask ≡ 1 }
    ensures list { result.0.list ≡ 0 }
    ensures cargo { result.1.id ≡ id }
{
    let slip = Slip {
        id,
        size: 0,
        mask: 1,
        list: 0,
        key,
    };
    (slip, Empty { id })
}

/// A key of one byte.
fn key(alloc: Global, byte: u8) -> Result<Option<Bytes>, AllocError> {
    Ok(Some(Bytes::from_vec(vec![in alloc; byte]?)))
}

/// A key of two bytes, by its number; the last has none.
fn numbered(alloc: Global, number: u64) -> Result<Option<Bytes>, AllocError> {
    if number >= KEYS - 1 {
        return Ok(None);
    }
    let bytes = vec![in alloc; (number / 256) as u8, (number % 256) as u8]?;
    Ok(Some(Bytes::from_vec(bytes)))
}

/// Puts an entry, where there is room for it.
fn put(queue: &mut Sorted<Empty>, id: u64, key: Option<Bytes>) -> bool
    requires stands { (q : Queue) × Stands queue.old q }
    ensures stands { (q : Queue) × Stands queue.new q }
{
    if queue.spare() == 0 || queue.depth(PUTTER).entries >= MOST_ENTRIES {
        return false;
    }
    queue.reserve(PUTTER, 0);
    let (slip, cargo) = entry(id, key);
    queue.put(PUTTER, slip, cargo);
    true
}

/// Takes the next entry for the first consumer: its row and its cargo. What other callers hold stays theirs.
fn take<C: Cargo>(queue: &mut Sorted<C>, caller: u64) -> Option<(u64, C)>
    requires stands { (q : Queue) × Stands queue.old q }
    ensures stands { (q : Queue) × Stands queue.new q }
    ensures held { IfSome result (λ x. MayCall queue.new caller (CallRelease x.0 (C.load x.1))) }
    ensures others { (h r : ℕ) (load : Load) → caller ≢ h
        → MayCall queue.old h (CallRelease r load) → MayCall queue.new h (CallRelease r load) }
{
    match queue.next(caller, 0) {
        Next::Got { row, cargo } => Some((row, cargo)),
        Next::Empty => None,
    }
}

/// Takes the next entry for the first consumer as caller 1, and answers its id.
fn taken(queue: &mut Sorted<Empty>) -> Option<u64>
    requires stands { (q : Queue) × Stands queue.old q }
    ensures stands { (q : Queue) × Stands queue.new q }
    ensures others { (h r : ℕ) (load : Load) → 1 ≢ h
        → MayCall queue.old h (CallRelease r load) → MayCall queue.new h (CallRelease r load) }
{
    match take(queue, 1) {
        Some((_row, cargo)) => Some(cargo.id),
        None => None,
    }
}

/// Makes a held row available again.
fn back<C: Cargo>(queue: &mut Sorted<C>, caller: u64, row: u64, cargo: C)
    requires held { MayCall queue.old caller (CallRelease row (C.load cargo)) }
    ensures stands { (q : Queue) × Stands queue.new q }
{
    queue.release(caller, row, cargo);
}

/// By key, those of one key by arrival, and those without a key last.
#[test]
fn entries_come_by_key(rt: HostRuntime) -> Result<(), Fail> {
    let alloc = rt.alloc();
    let start = vec![in alloc;
        entry(1, key(alloc, 98)?),
        entry(2, None),
        entry(3, key(alloc, 97)?),
        entry(4, key(alloc, 98)?),
    ]?;
    let mut queue = Sorted::make(alloc, start)?;
    assert_eq!(rt; taken(&mut queue), Some(3));
    assert_eq!(rt; taken(&mut queue), Some(1));
    assert_eq!(rt; taken(&mut queue), Some(4));
    assert_eq!(rt; taken(&mut queue), Some(2));
    assert_eq!(rt; taken(&mut queue), None);
    Ok(())
}

/// A released entry comes again, before those of later keys.
#[test]
fn a_released_entry_comes_by_its_key(rt: HostRuntime) -> Result<(), Fail> {
    let alloc = rt.alloc();
    let mut queue = Sorted::make(alloc, Vec::new(alloc))?;
    queue.reserve_rows(4)?;
    assert!(rt; put(&mut queue, 1, key(alloc, 98)?));
    assert!(rt; put(&mut queue, 2, None));
    assert!(rt; put(&mut queue, 3, key(alloc, 97)?));
    assert!(rt; put(&mut queue, 4, key(alloc, 98)?));
    assert!(rt; !put(&mut queue, 5, None));
    let Some((row, cargo)) = take(&mut queue, 7) else {
        panic!(rt; "no entry");
    };
    assert_eq!(rt; (row, cargo.id), (2, 3));
    assert_eq!(rt; taken(&mut queue), Some(1));
    back(&mut queue, 7, row, cargo);
    assert_eq!(rt; taken(&mut queue), Some(3));
    assert_eq!(rt; taken(&mut queue), Some(4));
    assert_eq!(rt; taken(&mut queue), Some(2));
    assert_eq!(rt; taken(&mut queue), None);
    Ok(())
}

/// Puts entries of the ids from 0 on with random keys, and lists the number of each one's key with its id.
fn put_random(alloc: Global, queue: &mut Sorted<Empty>) -> Result<Vec<(u64, u64)>, Fail>
    requires stands { (q : Queue) × Stands queue.old q }
    ensures stands { (q : Queue) × Stands queue.new q }
{
    let mut put_in = Vec::new(alloc);
    let mut word = 0x9e37_79b9u64;
    for id in 0..MANY {
        word = word.wrapping_mul(6_364_136_223_846_793_005).wrapping_add(1);
        let number = (word >> 33) % KEYS;
        if put(queue, id, numbered(alloc, number)?) {
            put_in.push((number, id))?;
        }
    }
    Ok(put_in)
}

/// Takes as many entries, and tells how many of them came in the order of the list.
fn taken_in_order(queue: &mut Sorted<Empty>, order: &[(u64, u64)]) -> u64
    requires stands { (q : Queue) × Stands queue.old q }
    ensures stands { (q : Queue) × Stands queue.new q }
{
    let mut count = 0u64;
    for next in order {
        if taken(queue) == Some(next.1) {
            count = count.wrapping_add(1);
        }
    }
    count
}

/// The order is that of a stable sort by key.
#[test]
fn random_keys_come_as_a_sort_has_them(rt: HostRuntime) -> Result<(), Fail> {
    let alloc = rt.alloc();
    let mut queue = Sorted::make(alloc, Vec::new(alloc))?;
    queue.reserve_rows(MANY)?;
    let mut order = put_random(alloc, &mut queue)?;
    assert_eq!(rt; order.len(), 1_000);
    order.sort()?;
    assert_eq!(rt; taken_in_order(&mut queue, &order), MANY);
    assert_eq!(rt; taken(&mut queue), None);
    Ok(())
}

/// A queue with enough memory for its entries and its spare.
#[test]
fn ample(rt: HostRuntime) -> Result<(), Fail> {
    let alloc = rt.alloc();
    let start = vec![in alloc; entry(1, None), entry(2, None)]?;
    let mut queue = Sorted::make(alloc, start)?;
    queue.reserve_rows(5)?;
    assert_eq!(rt; queue.spare(), 5);
    Ok(())
}
