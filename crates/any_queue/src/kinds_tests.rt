//! Queues of all kinds on one thread, and what they leave.
ghost use Rattle.std.specs.Prelude.{◌≡◌, IfOk, vec_len};

use crate::AnyQueue;
use crate::tests::Empty;
use acts_core::RestEntry;
use byte_lists::Bytes;
use defs_read::{ConsumerDef, QueueDef, QueueKind};
use queue_model::Slip;
use std::alloc::{AllocError, Global};
use std::test::Fail;

/// A definition of a queue that goes by a header, by key or by the last value of each, with one consumer.
fn definition(alloc: Global, kind: QueueKind) -> Result<QueueDef, AllocError>
    ensures { IfOk result (λ d. (d.kind ≡ kind) × (vec_len d.consumers ≡ 1)) }
{
    let consumer = ConsumerDef {
        name: Bytes::from_vec(Vec::new(alloc)),
        actor: Bytes::from_vec(Vec::new(alloc)),
        number: 0,
        selector: None,
    };
    let name = Bytes::from_vec(Vec::new(alloc));
    let consumers = vec![in alloc; consumer]?;
    Ok(QueueDef::bare(name, kind, consumers))
}

/// An entry of this list and key that the consumer wants.
fn entry(list: u32, id: u64, key: Option<Bytes>) -> (Slip, Empty)
    ensures id { result.0.id ≡ id }
    ensures size { result.0.size ≡ 0 }
    ensures mask { result.0.mask ≡ 1 }
    ensures list { result.0.list ≡ list }
    ensures key { result.0.key ≡ key }
    ensures cargo { result.1.id ≡ id }
{
    let slip = Slip {
        id,
        size: 0,
        mask: 1,
        list,
        key,
    };
    (slip, Empty { id })
}

/// A key of one byte.
fn key(alloc: Global, byte: u8) -> Result<Option<Bytes>, AllocError> {
    Ok(Some(Bytes::from_vec(vec![in alloc; byte]?)))
}

/// Whether these are the ids of what is left, in order, and nothing of it is outdated.
fn are_left(rest: &[RestEntry<Empty>], ids: &[u64]) -> bool {
    rest.len() == ids.len()
        && rest.iter().zip(ids).all(|(entry, id)| entry.slip.id == *id
            && entry.cargo.id == *id
            && !entry.outdated)
}

/// The higher lists first, and each list by arrival.
#[test]
fn a_priority_queue_leaves_its_lists(rt: HostRuntime) -> Result<(), Fail> {
    let alloc = rt.alloc();
    let def = definition(alloc, QueueKind::Priority(3))?;
    let start = vec![in alloc;
        entry(0, 1, None),
        entry(2, 2, None),
        entry(1, 3, None),
        entry(2, 4, None),
    ]?;
    let (queue, boss) = AnyQueue::make(rt, alloc, &def, 4, start)?;
    assert!(rt; are_left(&queue.close(boss), &[2, 4, 3, 1]));
    Ok(())
}

/// By key, those of one key by arrival, and those without a key last.
#[test]
fn a_sorted_queue_leaves_by_key(rt: HostRuntime) -> Result<(), Fail> {
    let alloc = rt.alloc();
    let name = Bytes::from_vec(Vec::new(alloc));
    let def = definition(alloc, QueueKind::Sorted(name))?;
    let start = vec![in alloc;
        entry(0, 1, key(alloc, 98)?),
        entry(0, 2, None),
        entry(0, 3, key(alloc, 97)?),
        entry(0, 4, key(alloc, 98)?),
    ]?;
    let (queue, boss) = AnyQueue::make(rt, alloc, &def, 6, start)?;
    assert!(rt; are_left(&queue.close(boss), &[3, 1, 4, 2]));
    Ok(())
}
