//! The calls at a concrete cargo, on one thread.
ghost use Rattle.std.specs.Prelude.{◌≡◌, None, []};

use crate::{depth, enqueue, find, reserve};
use acts_core::{Cargo, Placed};
use entry_table::Entries;
use queue_model::Slip;
use std::test::Fail;

/// A message with no bytes.
#[derive(Debug, Drop)]
pub(crate) struct Empty {
    pub(crate) id: u64,
}

impl Cargo for Empty {
    ghost use Rattle.std.specs.Prelude.{[]};
    ghost use Rattle.std.proofs.Common.{arith};

    ghost load = { λ m. record { id = m.id; size = 0; count = 0; content = []; origin = [] } };

    fn id(&self) -> u64 {
        self.id
    }

    fn size(&self) -> u64 {
        0
    }

    fn count(&self) -> u32 {
        0
    }

    ghost content_fits = { λ m. Prim.omega arith };
}

/// A slip of a message with no bytes, in the only list, that no consumer wants.
pub(crate) fn slip(id: u64) -> Slip
    ensures id { result.id ≡ id }
    ensures size { result.size ≡ 0 }
    ensures mask { result.mask ≡ 0 }
    ensures list { result.list ≡ 0 }
    ensures key { result.key ≡ None }
{
    Slip {
        id,
        size: 0,
        mask: 0,
        list: 0,
        key: None,
    }
}

#[test]
fn an_entry_is_put_and_found(rt: HostRuntime) -> Result<(), Fail> {
    let alloc = rt.alloc();
    let start = vec![in alloc; (slip(7), Empty { id: 7 })]?;
    let (entries, mut boss) = Entries::make(alloc, 1, 2, 0, start)?;
    assert_eq!(rt; find(&entries, &mut boss, 7), Some(0));
    assert_eq!(rt; depth(&entries, &mut boss).entries, 1);
    reserve(&entries, &mut boss, 0);
    let placed = enqueue(&entries, &mut boss, &slip(9), Empty { id: 9 });
    assert!(rt; matches!(placed, Placed::At { row: 1, .. }));
    assert_eq!(rt; find(&entries, &mut boss, 9), Some(1));
    assert_eq!(rt; find(&entries, &mut boss, 8), None);
    Ok(())
}
