//! A last-value queue at a concrete cargo.
ghost use Rattle.std.specs.Prelude.{ℕ, ◌≡◌, ◌≢◌, IfSome};
ghost use Rattle.queue_model.specs.declared.queues.Queue.{Queue};
ghost use Rattle.acts_core.specs.Calls.{CallRelease};
ghost use Rattle.acts_core.specs.Kept.{Stands};
ghost use Rattle.acts_core.specs.Load.{Load};
ghost use Rattle.acts_core.specs.Serves.{MayCall};

use crate::LastValue;
use acts_core::{Cargo, Next, Placed, QueueCore, Releasing};
use byte_lists::Bytes;
use queue_model::{MOST_ENTRIES, Slip};
use std::alloc::{AllocError, Global};
use std::test::Fail;

/// The caller that puts.
const PUTTER: u64 = 9;

/// A message with no bytes.
#[derive(Debug, Drop)]
struct Empty {
    id: u64,
}

impl Cargo for Empty {
    ghost use Rattle.std.specs.Prelude.{[]};
    ghost use Rattle.std.proofs.Common.{arith};

    ghost load = { λ m. record { id = m.id; size = 0; count = 0; content = []; origin = [] } };

    fn id(&self) -> u64 {
        self.id
    }

    fn size(&self) -> u64 {
        0
    }

    fn count(&self) -> u32 {
        0
    }

    ghost content_fits = { λ m. Prim.omega arith };
}

/// An entry of this key, that the first consumer wants.
fn entry(id: u64, key: Option<Bytes>) -> (Slip, Empty)
    ensures id { result.0.id ≡ id }
    ensures size { result.0.size ≡ 0 }
    ensures mask { result.0.mask ≡ 1 }
    ensures list { result.0.list ≡ 0 }
    ensures cargo { result.1.id ≡ id }
{
    let slip = Slip {
        id,
        size: 0,
        mask: 1,
        list: 0,
        key,
    };
    (slip, Empty { id })
}

/// The key that all entries have, but those without one.
fn key(alloc: Global) -> Result<Option<Bytes>, AllocError> {
    Ok(Some(Bytes::from_vec(vec![in alloc; b'x']?)))
}

/// Puts an entry, where there is room for it. What other callers hold stays theirs.
fn put(queue: &mut LastValue<Empty>, id: u64, key: Option<Bytes>) -> Option<Placed<Empty>>
    requires stands { (q : Queue) × Stands queue.old q }
    ensures stands { (q : Queue) × Stands queue.new q }
    ensures others { (h r : ℕ) (load : Load) → PUTTER ≢ h
        → MayCall queue.old h (CallRelease r load) → MayCall queue.new h (CallRelease r load) }
{
    if queue.spare() == 0 || queue.depth(PUTTER).entries >= MOST_ENTRIES {
        return None;
    }
    queue.reserve(PUTTER, 0);
    let (slip, cargo) = entry(id, key);
    Some(queue.put(PUTTER, slip, cargo))
}

/// The row of a put entry, and the row and id of the one that it displaced.
fn told(placed: Option<Placed<Empty>>) -> Option<(u64, Option<(u64, u64)>)> {
    match placed {
        Some(
            Placed::At {
                row,
                displaced: Some((older, cargo)),
            },
        ) => Some((row, Some((older, cargo.id)))),
        Some(
            Placed::At {
                row,
                displaced: None,
            },
        ) => Some((row, None)),
        Some(Placed::Spent(_cargo)) => None,
        None => None,
    }
}

/// Takes the next entry for the first consumer: its row and its cargo. What other callers hold stays theirs.
fn take<C: Cargo>(queue: &mut LastValue<C>, caller: u64) -> Option<(u64, C)>
    requires stands { (q : Queue) × Stands queue.old q }
    ensures stands { (q : Queue) × Stands queue.new q }
    ensures held { IfSome result (λ x. MayCall queue.new caller (CallRelease x.0 (C.load x.1))) }
    ensures others { (h r : ℕ) (load : Load) → caller ≢ h
        → MayCall queue.old h (CallRelease r load) → MayCall queue.new h (CallRelease r load) }
{
    match queue.next(caller, 0) {
        Next::Got { row, cargo } => Some((row, cargo)),
        Next::Empty => None,
    }
}

/// Takes the next entry for the first consumer as caller 1, and answers its id. What other callers hold stays theirs.
fn taken(queue: &mut LastValue<Empty>) -> Option<u64>
    requires stands { (q : Queue) × Stands queue.old q }
    ensures stands { (q : Queue) × Stands queue.new q }
    ensures others { (h r : ℕ) (load : Load) → 1 ≢ h
        → MayCall queue.old h (CallRelease r load) → MayCall queue.new h (CallRelease r load) }
{
    match take(queue, 1) {
        Some((_row, cargo)) => Some(cargo.id),
        None => None,
    }
}

/// Makes a held row available again; answers the id of one that is outdated.
fn back<C: Cargo>(queue: &mut LastValue<C>, caller: u64, row: u64, cargo: C) -> Option<u64>
    requires held { MayCall queue.old caller (CallRelease row (C.load cargo)) }
    ensures stands { (q : Queue) × Stands queue.new q }
{
    match queue.release(caller, row, cargo) {
        Releasing::Released => None,
        Releasing::Outdated(cargo) => Some(cargo.id()),
    }
}

/// The available entry of the key goes to whoever puts a later one, and one that is held is outdated when it comes
/// back.
#[test]
fn a_later_entry_takes_the_place_of_one_of_its_key(rt: HostRuntime) -> Result<(), Fail> {
    let alloc = rt.alloc();
    let mut queue = LastValue::make(alloc, Vec::new(alloc))?;
    queue.reserve_rows(4)?;
    assert_eq!(rt; told(put(&mut queue, 1, key(alloc)?)), Some((0, None)));
    let Some((row, cargo)) = take(&mut queue, 7) else {
        panic!(rt; "no entry");
    };
    assert_eq!(rt; (row, cargo.id), (0, 1));
    assert_eq!(rt; told(put(&mut queue, 2, key(alloc)?)), Some((1, None)));
    assert_eq!(rt;
        told(put(&mut queue, 3, key(alloc)?)),
        Some((2, Some((1, 2))))
    );
    assert_eq!(rt; taken(&mut queue), Some(3));
    assert_eq!(rt; back(&mut queue, 7, row, cargo), Some(1));
    assert_eq!(rt; taken(&mut queue), None);
    Ok(())
}

/// Entries without the key are displaced by none, and come back.
#[test]
fn entries_without_a_key_stay(rt: HostRuntime) -> Result<(), Fail> {
    let alloc = rt.alloc();
    let mut queue = LastValue::make(alloc, Vec::new(alloc))?;
    queue.reserve_rows(2)?;
    assert_eq!(rt; told(put(&mut queue, 1, None)), Some((0, None)));
    let Some((row, cargo)) = take(&mut queue, 7) else {
        panic!(rt; "no entry");
    };
    assert_eq!(rt; told(put(&mut queue, 2, None)), Some((1, None)));
    assert_eq!(rt; told(put(&mut queue, 3, None)), None);
    assert_eq!(rt; back(&mut queue, 7, row, cargo), None);
    assert_eq!(rt; taken(&mut queue), Some(1));
    assert_eq!(rt; taken(&mut queue), Some(2));
    Ok(())
}

/// A queue with enough memory for its spare.
#[test]
fn ample(rt: HostRuntime) -> Result<(), Fail> {
    let alloc = rt.alloc();
    let mut queue: LastValue<Empty> = LastValue::make(alloc, Vec::new(alloc))?;
    queue.reserve_rows(5)?;
    assert_eq!(rt; queue.spare(), 5);
    Ok(())
}
