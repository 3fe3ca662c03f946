ghost use Rattle.std.specs.Prelude.{◌≡◌, ◌<◌, ◌≤◌, length, vec_len, IfOk};
ghost use Rattle.target_core.specs.Seats.{sum_of};

use crate::{CONSUMERS, Delivery, Handed, MeetTarget, PlainTarget, Roster, Target, sum};
use std::alloc::Global;
use std::process::Abort;
use std::test::Fail;
use std::thread;

// The delivery of a short body to this consumer.
fn delivery(consumer: u32, body: &[u8]) -> Delivery
    requires { length body.now ≤ 1048576 }
    ensures consumer { result.consumer ≡ consumer }
    ensures length { result.length ≡ length body.now }
    ensures sum { result.sum ≡ sum_of body.now }
{
    Delivery {
        consumer,
        queue: 0,
        id: 7,
        delivered: 1,
        length: body.len() as u64,
        sum: sum(body),
    }
}

// Hands a body to a target: `hi`.
fn handed<T: Target>(target: &mut T) -> bool {
    target.hand(delivery(3, b"hi"), b"hi")
}

// Hands it to the target of this consumer.
fn handed_by(roster: &mut Roster, consumer: u32) -> Handed
    requires { consumer < 64 }
{
    roster.hand(delivery(consumer, b"hi"), b"hi")
}

// 64 targets, each of which takes one delivery at most.
fn targets(alloc: Global) -> Result<Vec<Box<dyn Target>>, Fail>
    ensures { IfOk result (λ targets. vec_len targets ≡ 64) }
{
    let mut targets: Vec<Box<dyn Target>> = Vec::new(alloc);
    for count in 0..CONSUMERS {
        targets.push(Box::new(alloc, PlainTarget::make(alloc, Some(1)))?)?;
    }
    Ok(targets)
}

#[test]
fn sums(rt: HostRuntime) {
    assert_eq!(rt; sum(b""), 0);
    // 1 times 104, and 2 times 105.
    assert_eq!(rt; sum(b"hi"), 314);
    assert_eq!(rt; sum(&[0, 255, 1]), 513);
}

#[test]
fn up_to_the_limit(rt: HostRuntime) -> Result<(), Fail> {
    let mut target = PlainTarget::make(rt.alloc(), Some(2));
    assert!(rt; !handed(&mut target));
    target.prepare(5)?;
    assert_eq!(rt; target.room(), 2);
    assert!(rt; handed(&mut target));
    target.prepare(1)?;
    assert_eq!(rt; target.room(), 1);
    assert!(rt; handed(&mut target));
    target.prepare(1)?;
    assert!(rt; !handed(&mut target));
    assert_eq!(rt; target.deliveries().len(), 2);
    assert_eq!(rt; target.deliveries().last().map(|d| d.sum), Some(314));
    Ok(())
}

#[test]
fn ample(rt: HostRuntime) -> Result<(), Fail> {
    let mut roster = Roster::of(targets(rt.alloc())?);
    let mut other = Roster::bare(rt.alloc())?;
    assert_eq!(rt; other.room(5), None);
    assert_eq!(rt; handed_by(&mut other, 5), Handed::Closed);
    assert_eq!(rt; handed_by(&mut roster, 5), Handed::NoCredit);
    roster.prepare(5, 2)?;
    assert_eq!(rt; roster.room(5), Some(1));
    assert_eq!(rt; handed_by(&mut roster, 5), Handed::Taken);
    assert_eq!(rt; roster.room(5), Some(0));
    assert!(rt; roster.close(6));
    assert!(rt; !roster.close(6));
    other.prepare(6, 1)?;
    let beside = roster.beside(rt.alloc())?;
    assert_eq!(rt; beside.room(5), None);
    assert_eq!(rt; roster.finish().len(), 63);
    Ok(())
}

#[test]
fn one_alone_is_late(rt: HostRuntime) -> Result<(), Fail> {
    let (mut first, second, watch) = MeetTarget::pair(rt.alloc(), 10)?;
    first.prepare(1)?;
    assert!(rt; handed(&mut first));
    assert!(rt; watch.late());
    assert_eq!(rt; second.room(), 0);
    Ok(())
}

#[test]
fn two_meet(rt: HostRuntime) -> Result<(), Fail> {
    let (mut first, mut second, watch) = MeetTarget::pair(rt.alloc(), 1_000_000_000)?;
    first.prepare(1)?;
    second.prepare(1)?;
    let (one, two) = thread::join(&rt, || handed(&mut first), || handed(&mut second));
    assert!(rt; one && two);
    assert!(rt; !watch.late());
    Ok(())
}
