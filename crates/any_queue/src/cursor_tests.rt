//! Consumers that go on from where they stood, and back to an entry that was released.
ghost use Rattle.std.specs.Prelude.{◌≡◌, ◌≤◌};
ghost use mathlib.Core.List.{Mem};
ghost use Rattle.any_queue.specs.Kinds.{sight_in, ServesAny};

use crate::shared_tests::{put_one, standard, take_one, wanted};
use crate::tests::Empty;
use crate::{AnyPass, AnyQueue};
use acts_core::{Next, SharedQueue};
use std::sync::Wait;
use std::test::Fail;

/// How many entries are taken in order.
const ENTRIES: u64 = 1000;

/// Puts entries of the ids from 0 on.
fn put_entries<W: Wait + Send + Sync + Drop>(queue: &AnyQueue<Empty, W>, pass: &mut AnyPass)
    requires serves { ServesAny queue.now pass.old }
    requires allowed { ENTRIES ≤ (sight_in pass.old).allowance }
    requires lists { (sight_in pass.old).opening.lists ≡ 1 }
    requires consumers { (sight_in pass.old).opening.consumers ≡ 2 }
    requires consumer { Mem 0 (sight_in pass.old).consumers }
    ensures serves { ServesAny queue.now pass.new }
    ensures consumer { Mem 0 (sight_in pass.new).consumers }
{
    for id in 0..ENTRIES {
        put_one(queue, pass, id);
    }
}

/// Takes entries out for the first consumer; answers how many came in the order of their ids.
fn take_in_order<W: Wait + Send + Sync + Drop>(
    queue: &AnyQueue<Empty, W>,
    pass: &mut AnyPass,
) -> u64
    requires serves { ServesAny queue.now pass.old }
    requires consumer { Mem 0 (sight_in pass.old).consumers }
    ensures serves { ServesAny queue.now pass.new }
    ensures consumer { Mem 0 (sight_in pass.new).consumers }
{
    let mut count = 0u64;
    for _ in 0..ENTRIES {
        if take_one(queue, pass, 0) == Some(count) {
            count = count.wrapping_add(1);
        }
    }
    count
}

/// Each entry in order, and then none.
#[test]
fn a_thousand_entries_come_in_order(rt: HostRuntime) -> Result<(), Fail> {
    let alloc = rt.alloc();
    let def = standard(alloc)?;
    let (queue, mut boss) = AnyQueue::make(rt, alloc, &def, ENTRIES, Vec::new(alloc))?;
    put_entries(&queue, &mut boss);
    assert_eq!(rt; take_in_order(&queue, &mut boss), ENTRIES);
    assert_eq!(rt; take_one(&queue, &mut boss, 0), None);
    Ok(())
}

/// Acquires the next entry for the first consumer, and releases it.
fn acquire_and_release<W: Wait + Send + Sync + Drop>(
    queue: &AnyQueue<Empty, W>,
    pass: &mut AnyPass,
) -> Option<u64>
    requires serves { ServesAny queue.now pass.old }
    requires consumer { Mem 0 (sight_in pass.old).consumers }
    ensures serves { ServesAny queue.now pass.new }
    ensures consumer { Mem 0 (sight_in pass.new).consumers }
{
    match queue.next(pass, 0) {
        Next::Got { row, cargo } => {
            let id = cargo.id;
            let _released = queue.release(pass, row, cargo);
            Some(id)
        }
        Next::Empty => None,
    }
}

/// The consumer goes back to the entry that was released, and then on.
#[test]
fn a_consumer_goes_back_to_a_released_entry(rt: HostRuntime) -> Result<(), Fail> {
    let alloc = rt.alloc();
    let def = standard(alloc)?;
    let start = vec![in alloc; wanted(7), wanted(8)]?;
    let (queue, mut boss) = AnyQueue::make(rt, alloc, &def, 2, start)?;
    assert_eq!(rt; acquire_and_release(&queue, &mut boss), Some(7));
    assert_eq!(rt; take_one(&queue, &mut boss, 0), Some(7));
    assert_eq!(rt; acquire_and_release(&queue, &mut boss), Some(8));
    assert_eq!(rt; take_one(&queue, &mut boss, 0), Some(8));
    assert_eq!(rt; take_one(&queue, &mut boss, 0), None);
    Ok(())
}
