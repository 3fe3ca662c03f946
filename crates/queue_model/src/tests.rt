use crate::{Act, Deed, QueueState, Slip, Unapplied};
use byte_lists::{Bytes, Origin};
use std::alloc::{AllocError, Global};
use std::test::Fail;

// Whether the deed of this act is done.
fn does(state: &mut QueueState, caller: u64, act: Act) -> bool {
    state.apply(Deed { caller, act }).is_ok()
}

// Whether the deed of this act is illegal and comes back whole, and the state stays.
fn refuses(
    alloc: Global,
    state: &mut QueueState,
    caller: u64,
    act: Act,
) -> Result<bool, AllocError> {
    let deed = Deed { caller, act };
    let deed_before = format!(in alloc; "{deed:?}")?;
    let state_before = format!(in alloc; "{state:?}")?;
    let Err(Unapplied::Illegal(back)) = state.apply(deed) else {
        return Ok(false);
    };
    let deed_after = format!(in alloc; "{back:?}")?;
    let state_after = format!(in alloc; "{state:?}")?;
    Ok(deed_after == deed_before && state_after == state_before)
}

// The act that enqueues a row of this size, which has no key and comes from nowhere.
fn enqueue(alloc: Global, row: u64, size: u64, mask: u64, list: u32) -> Result<Act, Fail> {
    let content = Bytes::of(alloc, b"0123456789abcdef")?;
    let origin = Origin::none(alloc);
    let slip = Slip {
        id: row,
        size,
        mask,
        list,
        key: None,
    };
    Ok(Act::Enq {
        row,
        slip,
        content,
        origin,
        count: 0,
    })
}

// A queue of 2 lists and 3 consumers. Caller 1 holds row 0, left row 1, and has 16 bytes reserved; row 2
// is available.
fn three_rows(alloc: Global) -> Result<QueueState, Fail> {
    let mut state = QueueState::fresh(alloc, 2, 3)?;
    for row in 0..3 {
        does(&mut state, 1, Act::Reserve { size: 16 });
        does(&mut state, 1, enqueue(alloc, row, 16, 7, 1)?);
    }
    does(&mut state, 1, Act::Acq { row: 0 });
    does(&mut state, 1, Act::Acq { row: 1 });
    does(&mut state, 1, Act::Unlock { row: 1, count: 1 });
    does(&mut state, 1, Act::Reserve { size: 16 });
    Ok(state)
}

#[test]
fn ample(rt: HostRuntime) -> Result<(), Fail> {
    let alloc = rt.alloc();
    let mut state = QueueState::fresh(alloc, 1, 0)?;
    assert!(rt; does(&mut state, 0, Act::Reserve { size: 16 }));
    assert!(rt; does(&mut state, 0, enqueue(alloc, 0, 16, 0, 0)?));
    Ok(())
}

#[test]
fn each_act_is_done(rt: HostRuntime) -> Result<(), Fail> {
    let alloc = rt.alloc();
    let mut state = QueueState::fresh(alloc, 2, 3)?;
    assert!(rt; does(&mut state, 1, Act::Reserve { size: 16 }));
    assert!(rt; does(&mut state, 1, enqueue(alloc, 0, 16, 5, 1)?));
    assert!(rt; does(&mut state, 1, Act::Reserve { size: 20 }));
    assert!(rt; does(&mut state, 1, enqueue(alloc, 1, 20, 0, 1)?));
    assert!(rt;
        does(
            &mut state,
            1,
            Act::Bell {
                row: 1,
                consumer: 2
            }
        )
    );
    assert!(rt;
        does(
            &mut state,
            1,
            Act::Bell {
                row: 0,
                consumer: 2
            }
        )
    );
    assert!(rt;
        does(
            &mut state,
            1,
            Act::Take {
                consumer: 2,
                list: 1
            }
        )
    );
    assert!(rt; does(&mut state, 2, Act::Acq { row: 0 }));
    assert!(rt; does(&mut state, 2, Act::Unlock { row: 0, count: 1 }));
    assert!(rt; does(&mut state, 2, Act::Lock { row: 0 }));
    assert!(rt; does(&mut state, 2, Act::Rel { row: 0, count: 2 }));
    assert!(rt; does(&mut state, 2, Act::Acq { row: 0 }));
    assert!(rt; does(&mut state, 2, Act::Unlock { row: 0, count: 2 }));
    assert!(rt; does(&mut state, 3, Act::Steal { row: 0 }));
    assert!(rt; does(&mut state, 3, Act::Deq { row: 0 }));
    assert!(rt; does(&mut state, 3, Act::GiveBack { size: 16 }));
    assert!(rt; does(&mut state, 3, Act::Del { row: 0 }));
    Ok(())
}

#[test]
fn rows_in_other_states(rt: HostRuntime) -> Result<(), Fail> {
    let alloc = rt.alloc();
    let mut state = three_rows(alloc)?;
    assert!(rt; refuses(alloc, &mut state, 1, Act::Acq { row: 3 })?);
    assert!(rt; refuses(alloc, &mut state, 2, Act::Acq { row: 0 })?);
    assert!(rt; refuses(alloc, &mut state, 2, Act::Lock { row: 1 })?);
    assert!(rt; refuses(alloc, &mut state, 2, Act::Unlock { row: 0, count: 1 })?);
    assert!(rt; refuses(alloc, &mut state, 1, Act::Steal { row: 2 })?);
    assert!(rt; refuses(alloc, &mut state, 2, Act::Rel { row: 0, count: 1 })?);
    assert!(rt; refuses(alloc, &mut state, 1, Act::Deq { row: 2 })?);
    assert!(rt; refuses(alloc, &mut state, 1, Act::Del { row: 0 })?);
    Ok(())
}

#[test]
fn what_does_not_fit(rt: HostRuntime) -> Result<(), Fail> {
    let alloc = rt.alloc();
    let mut state = three_rows(alloc)?;
    assert!(rt; refuses(alloc, &mut state, 1, Act::Reserve { size: 1_048_577 })?);
    assert!(rt; refuses(alloc, &mut state, 2, Act::GiveBack { size: 16 })?);
    assert!(rt; refuses(alloc, &mut state, 1, Act::GiveBack { size: 10 })?);
    assert!(rt; refuses(alloc, &mut state, 2, enqueue(alloc, 3, 16, 0, 0)?)?);
    assert!(rt; refuses(alloc, &mut state, 1, enqueue(alloc, 2, 16, 0, 0)?)?);
    assert!(rt; refuses(alloc, &mut state, 1, enqueue(alloc, 3, 16, 0, 2)?)?);
    assert!(rt; refuses(alloc, &mut state, 1, enqueue(alloc, 3, 16, 8, 0)?)?);
    assert!(rt;
        refuses(
            alloc,
            &mut state,
            1,
            Act::Bell {
                row: 3,
                consumer: 0
            }
        )?
    );
    assert!(rt;
        refuses(
            alloc,
            &mut state,
            1,
            Act::Bell {
                row: 0,
                consumer: 3
            }
        )?
    );
    assert!(rt;
        refuses(
            alloc,
            &mut state,
            1,
            Act::Take {
                consumer: 0,
                list: 2
            }
        )?
    );
    Ok(())
}
