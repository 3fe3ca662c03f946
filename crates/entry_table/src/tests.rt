//! The calls of a table at a concrete cargo, on one thread.
ghost use Rattle.std.specs.Prelude.{◌≡◌, ◌<◌, None};
ghost use mathlib.Core.List.{Mem};
ghost use Rattle.entry_table.specs.Passes.{consumers, IsPassOf, Kept, opening};

use crate::{Drawn, Entries, Pass};
use acts_core::Cargo;
use queue_model::Slip;
use std::test::Fail;
use std::thread::join;

/// A message with no bytes.
#[derive(Debug, Drop)]
struct Empty {
    id: u64,
}

impl Cargo for Empty {
    ghost use Rattle.std.specs.Prelude.{[]};
    ghost use Rattle.std.proofs.Common.{arith};

    ghost load = { λ m. record { id = m.id; size = 0; count = 0; content = []; origin = [] } };

    fn id(&self) -> u64 {
        self.id
    }

    fn size(&self) -> u64 {
        0
    }

    fn count(&self) -> u32 {
        0
    }

    ghost content_fits = { λ m. Prim.omega arith };
}

/// A slip of a message with no bytes, in the only list, that no consumer wants.
fn slip(id: u64) -> Slip
    ensures id { result.id ≡ id }
    ensures size { result.size ≡ 0 }
    ensures mask { result.mask ≡ 0 }
    ensures list { result.list ≡ 0 }
    ensures key { result.key ≡ None }
{
    Slip {
        id,
        size: 0,
        mask: 0,
        list: 0,
        key: None,
    }
}

#[test]
fn a_third_row_of_two_is_spent(rt: HostRuntime) -> Result<(), Fail> {
    let alloc = rt.alloc();
    let (entries, mut boss) = Entries::make(alloc, 1, 2, 0, Vec::new(alloc))?;
    assert_eq!(rt;
        drawn(entries.draw_row(&mut boss, Empty { id: 1 })),
        Some(0)
    );
    assert_eq!(rt;
        drawn(entries.draw_row(&mut boss, Empty { id: 2 })),
        Some(1)
    );
    assert_eq!(rt; drawn(entries.draw_row(&mut boss, Empty { id: 3 })), None);
    Ok(())
}

/// The row that was drawn.
fn drawn(answer: Drawn<Empty>) -> Option<u64> {
    match answer {
        Drawn::Row(draft) => Some(draft.row()),
        Drawn::Spent(_) => None,
    }
}

#[test]
fn a_made_table_closes_with_its_entries(rt: HostRuntime) -> Result<(), Fail> {
    let alloc = rt.alloc();
    let start = vec![in alloc; (slip(7), Empty { id: 7 }), (slip(9), Empty { id: 9 })]?;
    let (entries, boss) = Entries::make(alloc, 1, 3, 0, start)?;
    let rest = entries.close(boss);
    assert_eq!(rt; rest.len(), 2);
    assert_eq!(rt; rest[0].slip.id, 7);
    assert_eq!(rt; rest[1].cargo.id, 9);
    Ok(())
}

#[test]
fn passes_part_and_join(rt: HostRuntime) -> Result<(), Fail> {
    let alloc = rt.alloc();
    let (entries, mut boss) = Entries::make(alloc, 1, 2, 0, Vec::new(alloc))?;
    let mut other = entries.split(&mut boss, &[], 1);
    assert_eq!(rt; other.caller(), 1);
    assert_eq!(rt; entries.reserve_depth(&mut other, 5).entries, 0);
    entries.meet(&mut other, &mut boss);
    assert_eq!(rt; entries.reserve_depth(&mut boss, 6).bytes, 5);
    assert_eq!(rt;
        drawn(entries.draw_row(&mut other, Empty { id: 1 })),
        Some(0)
    );
    assert_eq!(rt; drawn(entries.draw_row(&mut other, Empty { id: 2 })), None);
    entries.join(&mut boss, other);
    assert_eq!(rt;
        drawn(entries.draw_row(&mut boss, Empty { id: 3 })),
        Some(1)
    );
    Ok(())
}

/// Rings the bell of consumer 1 for the second row of the only list and then for the first, and takes it.
fn rung_twice(entries: &Entries<Empty>, pass: &mut Pass) -> Option<u64>
    requires table { IsPassOf entries.now pass.old }
    requires list { 0 < entries.now.shape.lists }
    requires consumer { 1 < entries.now.shape.consumers }
    requires mine { Mem 1 (consumers pass.old) }
    ensures kept { Kept pass.old pass.new }
{
    let first = entries.follow(pass, 0, 0)?;
    let second = entries.follow(pass, 0, first + 1)?;
    entries.ring(pass, 1, second);
    let again = entries.follow(pass, 0, 0)?;
    entries.ring(pass, 1, again);
    entries.take_bell(pass, 1, 0)
}

/// Of two rows that a bell was rung for the earlier is answered, to the bell's consumer alone, and once.
#[test]
fn the_earlier_row_rings_once(rt: HostRuntime) -> Result<(), Fail> {
    let alloc = rt.alloc();
    let start = vec![in alloc; (slip(7), Empty { id: 7 }), (slip(9), Empty { id: 9 })]?;
    let (entries, mut boss) = Entries::make(alloc, 1, 2, 2, start)?;
    assert_eq!(rt; entries.consumers(), 2);
    assert_eq!(rt; entries.take_bell(&mut boss, 1, 0), None);
    assert_eq!(rt; rung_twice(&entries, &mut boss), Some(0));
    assert_eq!(rt; entries.take_bell(&mut boss, 1, 0), None);
    assert_eq!(rt; entries.take_bell(&mut boss, 0, 0), None);
    Ok(())
}

/// Draws rows until none is left for the pass, and adds their numbers up.
fn draw_all(entries: &Entries<Empty>, pass: Pass) -> (Pass, u64)
    requires table { IsPassOf entries.now pass }
    ensures table { IsPassOf entries.now result.0 }
    ensures opening { opening result.0 ≡ opening pass }
{
    let mut pass = pass;
    let mut sum = 0u64;
    'rows: while let Drawn::Row(draft) = entries.draw_row(&mut pass, Empty { id: 0 }) {
        sum = sum.wrapping_add(draft.row());
    }
    (pass, sum)
}

#[test]
fn two_threads_draw_each_row_once(rt: HostRuntime) -> Result<(), Fail> {
    let alloc = rt.alloc();
    let (table, mut boss) = Entries::make(alloc, 1, 1000, 0, Vec::new(alloc))?;
    let one = table.split(&mut boss, &[], 500);
    let two = table.split(&mut boss, &[], 500);
    let entries = &table;
    let (a, b) = join(
        &rt,
        || -> (Pass, u64)
            requires { IsPassOf entries.now one }
        { draw_all(entries, one) },
        || -> (Pass, u64)
            requires { IsPassOf entries.now two }
        { draw_all(entries, two) },
    );
    assert_eq!(rt; a.1.wrapping_add(b.1), 999 * 500);
    Ok(())
}

/// Each call that may want memory, with its memory.
#[test]
fn ample(rt: HostRuntime) -> Result<(), Fail> {
    let alloc = rt.alloc();
    let (entries, _boss) = Entries::<Empty>::make(alloc, 10, 4, 64, Vec::new(alloc))?;
    assert_eq!(rt; entries.lists(), 10);
    Ok(())
}
