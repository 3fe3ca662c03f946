//! A queue of three lists that is opened with what was left, and closed at once.
ghost use Rattle.std.specs.Prelude.{[], ◌∷◌, ◌≡◌, ◌<◌, ◌≤◌, IfOk, length};
ghost use Rattle.std.specs.List.{AllByRecursion};
ghost use Rattle.defs_read.specs.Defined.{queues_in};
ghost use Rattle.phase_queues.specs.Left.{MayStay};
ghost use Rattle.phase_queues.specs.Tried.{three_lists};

use crate::{Opened, close_queues, open_queues};
use acts_core::{Cargo, Receipt, RestEntry};
use byte_lists::Bytes;
use defs_read::{Defs, QueueDef, QueueKind};
use message_core::Message;
use phase_text::Rest;
use queue_model::{RowState, Slip};
use report_core::Resting;
use std::alloc::Global;
use std::sync::Wait;
use std::test::Fail;
use txn_core::Parcel;

// One queue of three lists.
fn definitions(alloc: Global) -> Result<Defs, Fail>
    ensures { IfOk result (λ d. queues_in d ≡ three_lists ∷ []) }
{
    let name = Bytes::of(alloc, b"p")?;
    let def = QueueDef::bare(name, QueueKind::Priority(3), Vec::new(alloc));
    let queues = vec![in alloc; def]?;
    Ok(Defs { queues })
}

// An entry that was left in one of its lists: committed, and delivered once.
fn entry(alloc: Global, list: u32, id: u64, state: RowState) -> Result<RestEntry<Parcel>, Fail>
    requires { list < 3 }
    ensures { IfOk result (λ e. MayStay three_lists e) }
{
    let body = Bytes::of(alloc, b"")?;
    let message = Message::make(alloc, id, false, 4, Vec::new(alloc), body)?;
    let mut cargo = Parcel::of(message, Some(Receipt { ticket: 3, at: 29 }), 56);
    cargo.raise();
    let slip = Slip {
        id: cargo.id(),
        size: cargo.size(),
        mask: 0,
        list,
        key: None,
    };
    Ok(RestEntry {
        slip,
        state,
        outdated: false,
        cargo,
    })
}

// What is told and left of the queue, where it is opened with these entries and closed at once.
fn there_and_back<R: Wait + Clone + Drop>(
    rt: &R,
    alloc: Global,
    entries: Vec<RestEntry<Parcel>>,
) -> Result<(Vec<Rest>, Vec<Vec<RestEntry<Parcel>>>), Fail>
    requires stay { AllByRecursion (MayStay three_lists) entries.items }
    requires few { length entries.items ≤ 1000 }
{
    let defs = definitions(alloc)?;
    let before = vec![in alloc; entries]?;
    let opened = open_queues(rt, alloc, &defs, before, &[3])?;
    let Opened {
        queues,
        bosses,
        mut rests,
        mut left,
    } = opened;
    close_queues(queues, bosses, &mut rests, &mut left);
    Ok((rests, left))
}

const HELD: RowState = RowState::Unlocked(2);

/// The higher lists first, and each list in order of arrival; whoever had an entry has it no more.
#[test]
fn entries_of_three_lists_go_on_by_list(rt: HostRuntime) -> Result<(), Fail> {
    let alloc = rt.alloc();
    let first = entry(alloc, 0, 1, RowState::Available)?;
    let second = entry(alloc, 2, 2, HELD)?;
    let third = entry(alloc, 1, 3, HELD)?;
    let fourth = entry(alloc, 2, 4, RowState::Available)?;
    let entries = vec![in alloc; first, second, third, fourth]?;
    let (rests, left) = there_and_back(&rt, alloc, entries)?;
    assert_eq!(rt; (rests.len(), left.len()), (1, 1));
    for rest in &rests {
        assert_eq!(rt; rest.name.as_slice(), b"p".as_slice());
        assert_eq!(rt; rest.entries.len(), 4);
        for (told, id) in rest.entries.iter().zip([2, 4, 3, 1]) {
            assert_eq!(rt;
                *told,
                Resting {
                    id,
                    size: 16,
                    holder: None
                }
            );
        }
    }
    for entries in &left {
        assert_eq!(rt; entries.len(), 4);
        for (entry, id) in entries.iter().zip([2, 4, 3, 1]) {
            assert_eq!(rt; (entry.slip.id, entry.cargo.message().id()), (id, id));
            assert_eq!(rt; (entry.cargo.delivered(), entry.cargo.receipt()), (1, None));
            assert_eq!(rt; entry.state, RowState::Available);
        }
    }
    Ok(())
}

/// Queues with enough memory, and with no entries.
#[test]
fn ample(rt: HostRuntime) -> Result<(), Fail> {
    let alloc = rt.alloc();
    let (rests, left) = there_and_back(&rt, alloc, Vec::new(alloc))?;
    assert_eq!(rt; (rests.len(), left.len()), (1, 1));
    Ok(())
}
