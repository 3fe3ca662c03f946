//! The counts of puts and the ways of targets, at concrete lines and rosters.
ghost use Rattle.std.specs.Prelude.{◌≡◌, IfOk, vec_len};

use crate::{puts_in, return_targets};
use byte_lists::Bytes;
use message_core::Message;
use script_read::{Op, What};
use std::alloc::Global;
use std::test::Fail;
use target_core::{CONSUMERS, PlainTarget, Roster, Target};

// A line of this kind.
fn line(alloc: Global, what: What) -> Result<Op, Fail> {
    Ok(Op {
        line: 2,
        actor: Bytes::of(alloc, b"a")?,
        what,
    })
}

// A line that puts to this queue.
fn put(alloc: Global, queue: u32) -> Result<Op, Fail> {
    let body = Bytes::of(alloc, b"hi")?;
    let message = Message::make(alloc, 7, false, 4, Vec::new(alloc), body)?;
    line(alloc, What::Put { queue, message })
}

// 64 targets without a limit.
fn targets(alloc: Global) -> Result<Vec<Box<dyn Target>>, Fail>
    ensures { IfOk result (λ targets. vec_len targets ≡ 64) }
{
    let mut targets: Vec<Box<dyn Target>> = Vec::new(alloc);
    for count in 0..CONSUMERS {
        targets.push(Box::new(alloc, PlainTarget::make(alloc, None))?)?;
    }
    Ok(targets)
}

#[test]
fn puts_count_for_their_own_queue(rt: HostRuntime) -> Result<(), Fail> {
    let alloc = rt.alloc();
    let take = line(alloc, What::Take { consumer: 1 })?;
    let ops = vec![in alloc; put(alloc, 0)?, take, put(alloc, 2)?, put(alloc, 0)?]?;
    assert_eq!(rt; puts_in(0, &ops), 2);
    assert_eq!(rt; puts_in(1, &ops), 0);
    assert_eq!(rt; puts_in(2, &ops), 1);
    Ok(())
}

#[test]
fn targets_return_where_none_stands(rt: HostRuntime) -> Result<(), Fail> {
    let alloc = rt.alloc();
    let mut roster = Roster::of(targets(alloc)?);
    let mut other = roster.beside(alloc)?;
    return_targets(&mut roster, &mut other);
    assert_eq!(rt; roster.room(5), None);
    assert_eq!(rt; other.room(5), Some(0));
    other.prepare(5, 3)?;
    assert!(rt; other.close(6));
    return_targets(&mut other, &mut roster);
    assert_eq!(rt; roster.room(5), Some(3));
    assert_eq!(rt; roster.room(6), None);
    assert_eq!(rt; other.finish().len(), 0);
    assert_eq!(rt; roster.finish().len(), 63);
    Ok(())
}
