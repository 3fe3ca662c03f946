//! The calls of queues of all kinds at a concrete cargo, on one thread.
ghost use Rattle.std.specs.Prelude.{◌≡◌, None, IfOk, vec_len};
ghost use mathlib.Core.List.{Mem};
ghost use Rattle.any_queue.specs.Kinds.{sight_in, ServesAny};
ghost use Rattle.defs_read.specs.declared.defs.QueueKind.TheVariants as kinds;

use crate::{AnyPass, AnyQueue};
use acts_core::clients::take_out;
use acts_core::{Cargo, Next, SharedQueue};
use byte_lists::Bytes;
use defs_read::{ConsumerDef, QueueDef, QueueKind};
use queue_model::Slip;
use std::alloc::{AllocError, Global};
use std::sync::Wait;
use std::test::Fail;

/// A message with no bytes.
#[derive(Debug, Drop)]
pub(crate) struct Empty {
    pub(crate) id: u64,
}

impl Cargo for Empty {
    ghost use Rattle.std.specs.Prelude.{[]};
    ghost use Rattle.std.proofs.Common.{arith};

    ghost load = { λ m. record { id = m.id; size = 0; count = 0; content = []; origin = [] } };

    fn id(&self) -> u64 {
        self.id
    }

    fn size(&self) -> u64 {
        0
    }

    fn count(&self) -> u32 {
        0
    }

    ghost content_fits = { λ m. Prim.omega arith };
}

/// An entry of a list, that the first consumer wants.
fn entry(list: u32, id: u64) -> (Slip, Empty)
    ensures id { result.0.id ≡ id }
    ensures size { result.0.size ≡ 0 }
    ensures mask { result.0.mask ≡ 1 }
    ensures list { result.0.list ≡ list }
    ensures key { result.0.key ≡ None }
    ensures cargo { result.1.id ≡ id }
{
    let slip = Slip {
        id,
        size: 0,
        mask: 1,
        list,
        key: None,
    };
    (slip, Empty { id })
}

/// A queue of three lists, and of one consumer.
fn three_lists(alloc: Global) -> Result<QueueDef, AllocError>
    ensures { IfOk result (λ d. (d.kind ≡ kinds.Priority 3) × (vec_len d.consumers ≡ 1)) }
{
    let consumer = ConsumerDef {
        name: Bytes::from_vec(Vec::new(alloc)),
        actor: Bytes::from_vec(Vec::new(alloc)),
        number: 0,
        selector: None,
    };
    let name = Bytes::from_vec(Vec::new(alloc));
    let consumers = vec![in alloc; consumer]?;
    Ok(QueueDef::bare(name, QueueKind::Priority(3), consumers))
}

/// Takes the next entry out for the first consumer.
fn taken<W: Wait + Send + Sync + Drop>(
    queue: &AnyQueue<Empty, W>,
    pass: &mut AnyPass,
) -> Option<u64>
    requires serves { ServesAny queue.now pass.old }
    requires consumer { Mem 0 (sight_in pass.old).consumers }
    ensures serves { ServesAny queue.now pass.new }
    ensures consumer { Mem 0 (sight_in pass.new).consumers }
{
    take_out(queue, pass, 0)
}

/// The higher lists first, and each list in order of arrival.
#[test]
fn entries_of_three_lists_come_by_list(rt: HostRuntime) -> Result<(), Fail> {
    let alloc = rt.alloc();
    let def = three_lists(alloc)?;
    let start = vec![in alloc; entry(0, 1), entry(2, 2), entry(1, 3), entry(2, 4)]?;
    let (queue, mut boss) = AnyQueue::make(rt, alloc, &def, 8, start)?;
    assert_eq!(rt; taken(&queue, &mut boss), Some(2));
    assert_eq!(rt; taken(&queue, &mut boss), Some(4));
    assert_eq!(rt; taken(&queue, &mut boss), Some(3));
    assert_eq!(rt; taken(&queue, &mut boss), Some(1));
    assert_eq!(rt; taken(&queue, &mut boss), None);
    Ok(())
}

/// The lowest list first.
#[test]
fn the_oldest_entry_is_of_the_lowest_list(rt: HostRuntime) -> Result<(), Fail> {
    let alloc = rt.alloc();
    let def = three_lists(alloc)?;
    let start = vec![in alloc; entry(2, 1), entry(1, 2), entry(0, 3), entry(0, 4)]?;
    let (queue, mut boss) = AnyQueue::make(rt, alloc, &def, 8, start)?;
    let oldest = match queue.oldest(&mut boss) {
        Next::Got { row, cargo } => Some((row, cargo.id)),
        Next::Empty => None,
    };
    assert_eq!(rt; oldest, Some((2, 3)));
    assert_eq!(rt; queue.find(&mut boss, 1), Some(0));
    assert_eq!(rt; queue.find(&mut boss, 5), None);
    Ok(())
}

/// A queue with enough memory for its entries.
#[test]
fn ample(rt: HostRuntime) -> Result<(), Fail> {
    let alloc = rt.alloc();
    let def = three_lists(alloc)?;
    let start = vec![in alloc; entry(0, 1), entry(2, 2), entry(2, 3)]?;
    let (queue, mut boss) = AnyQueue::make(rt, alloc, &def, 3, start)?;
    assert_eq!(rt; queue.find(&mut boss, 3), Some(2));
    Ok(())
}
