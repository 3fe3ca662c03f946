use crate::{Locked, Story};
use std::marker::Brand;
use std::test::Fail;

// A number that rises by one with each event. An event is its caller.
struct Counting;

impl Story<u64, u64, u64> for Counting {
    ghost use Rattle.history_lock.specs.Counting.{counting};

    ghost tale = { counting };
}

#[test]
fn ample(rt: HostRuntime) -> Result<(), Fail> {
    let (lock, mut seat) = Locked::<u64, u64, u64, Counting>::make(rt.alloc())?;
    lock.open::<Brand>(&mut seat, 5);
    let number = lock.lock(&rt, &mut seat);
    lock.unlock::<Brand>(&mut seat, number + 1);
    assert_eq!(rt; lock.close(seat), Some(6));
    Ok(())
}
