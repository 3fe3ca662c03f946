//! A held queue round a queue that goes by key, at a concrete cargo.
ghost use Rattle.std.specs.Prelude.{◌≡◌};
ghost use mathlib.Core.List.{Mem};
ghost use Rattle.held_table.specs.Sights.{Serves, sight};

use crate::{Held, HeldPass};
use acts_core::clients::take_out;
use acts_core::{Cargo, QueueCore};
use byte_lists::Bytes;
use queue_model::Slip;
use sorted_core::Sorted;
use std::alloc::{AllocError, Global};
use std::sync::Wait;
use std::test::Fail;

/// A message with no bytes.
#[derive(Debug, Drop)]
struct Empty {
    id: u64,
}

impl Cargo for Empty {
    ghost use Rattle.std.specs.Prelude.{[]};
    ghost use Rattle.std.proofs.Common.{arith};

    ghost load = { λ m. record { id = m.id; size = 0; count = 0; content = []; origin = [] } };

    fn id(&self) -> u64 {
        self.id
    }

    fn size(&self) -> u64 {
        0
    }

    fn count(&self) -> u32 {
        0
    }

    ghost content_fits = { λ m. Prim.omega arith };
}

/// An entry of this key, that the first consumer wants.
fn entry(id: u64, key: Option<Bytes>) -> (Slip, Empty)
    ensures id { result.0.id ≡ id }
    ensures size { result.0.size ≡ 0 }
    ensures mask { result.0.mask ≡ 1 }
    ensures list { result.0.list ≡ 0 }
    ensures cargo { result.1.id ≡ id }
{
    let slip = Slip {
        id,
        size: 0,
        mask: 1,
        list: 0,
        key,
    };
    (slip, Empty { id })
}

/// A key of one byte.
fn key(alloc: Global, byte: u8) -> Result<Option<Bytes>, AllocError> {
    Ok(Some(Bytes::from_vec(vec![in alloc; byte]?)))
}

/// Takes the next entry out for the first consumer, and answers its id.
fn taken<R: Wait + Send + Sync + Drop>(
    queue: &Held<Empty, Sorted<Empty>, R>,
    pass: &mut HeldPass,
) -> Option<u64>
    requires serves { Serves queue.now pass.old }
    requires consumer { Mem 0 (sight pass.old).consumers }
    ensures serves { Serves queue.now pass.new }
    ensures consumer { Mem 0 (sight pass.new).consumers }
{
    take_out(queue, pass, 0)
}

/// By key, those of one key by arrival, and those without a key last. The memory that is asked for is there.
#[test]
fn ample(rt: HostRuntime) -> Result<(), Fail> {
    let alloc = rt.alloc();
    let start = vec![in alloc;
        entry(1, key(alloc, 98)?),
        entry(2, None),
        entry(3, key(alloc, 97)?),
        entry(4, key(alloc, 98)?),
    ]?;
    let core = Sorted::make(alloc, start)?;
    let (queue, mut boss) = Held::make(rt, alloc, core, 1)?;
    assert_eq!(rt; taken(&queue, &mut boss), Some(3));
    assert_eq!(rt; taken(&queue, &mut boss), Some(1));
    assert_eq!(rt; taken(&queue, &mut boss), Some(4));
    assert_eq!(rt; taken(&queue, &mut boss), Some(2));
    assert_eq!(rt; taken(&queue, &mut boss), None);
    Ok(())
}
