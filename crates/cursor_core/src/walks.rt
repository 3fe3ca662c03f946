//! Walks of one list, to the first row that is acquired. Deleted rows are stepped over, and the links are moved on past them.
ghost use Rattle.std.specs.Prelude.{◌≡◌, ◌<◌, []};
ghost use mathlib.Core.List.{Mem};
ghost use Rattle.entry_table.specs.Passes.{IsPassOf, Kept, consumers, opening, seen};
ghost use Rattle.entry_table.specs.Sights.{sight};
ghost use Rattle.cursor_core.specs.Takes.{WalksReady};
ghost use Rattle.cursor_core.specs.Truths.{Good};
ghost use Rattle.cursor_core.specs.Walking.{Rung, Faces, WalksTo};

use crate::takes::{place_of, take_free, take_ready};
use acts_core::Freight;
use entry_table::{Entries, Pass};
use scavenge_core::step_behind;

// Takes the consumer's bell at a list, and answers its row where that is at or before a stop.
fn rung<C: Freight>(
    entries: &Entries<C>,
    pass: &mut Pass,
    consumer: u32,
    list: u32,
    stop: u64,
) -> Option<u64>
    requires table { IsPassOf entries.now pass.old }
    requires list { list < entries.now.shape.lists }
    requires consumer { Mem consumer (consumers pass.old) }
    requires quiet { (opening pass.old).bells ≡ [] }
    requires good { Good (opening pass.old) consumer list stop (seen pass.old) }
    ensures kept { Kept pass.old pass.new }
    ensures rung { Rung (opening pass.old) (sight pass.old) (sight pass.new) consumer list
        stop stop result }
{
    if let Some(row) = entries.take_bell(pass, consumer, list) {
        if stop > 0 {
            let bell = place_of(entries, pass, row);
            let reached = place_of(entries, pass, stop - 1);
            if bell <= reached {
                return Some(row);
            }
        }
    }
    None
}

// Takes the bell, and answers the row at which the walk begins.
fn first<C: Freight>(
    entries: &Entries<C>,
    pass: &mut Pass,
    consumer: u32,
    list: u32,
    stop: u64,
) -> Option<u64>
    requires table { IsPassOf entries.now pass.old }
    requires list { list < entries.now.shape.lists }
    requires consumer { Mem consumer (consumers pass.old) }
    requires quiet { (opening pass.old).bells ≡ [] }
    requires good { Good (opening pass.old) consumer list stop (seen pass.old) }
    ensures kept { Kept pass.old pass.new }
    ensures faces { Faces (opening pass.old) (sight pass.old) (sight pass.new) consumer list
        stop stop result }
{
    match rung(entries, pass, consumer, list, stop) {
        Some(row) => Some(row),
        None => step_behind(entries, pass, list, stop),
    }
}

/// Acquires the first row of a list, from a stop of the consumer on, that is free to it when looked at. The
/// bell is taken first, and leads back where its row is at or before the stop.
pub(crate) fn walk_free<C: Freight>(
    entries: &Entries<C>,
    pass: &mut Pass,
    consumer: u32,
    list: u32,
    stop: &mut u64,
) -> Option<(u64, C)>
    requires table { IsPassOf entries.now pass.old }
    requires list { list < entries.now.shape.lists }
    requires consumer { Mem consumer (consumers pass.old) }
    requires quiet { (opening pass.old).bells ≡ [] }
    requires good { Good (opening pass.old) consumer list stop.old (seen pass.old) }
    ensures kept { Kept pass.old pass.new }
    ensures walks { WalksTo C.goods (opening pass.old) (sight pass.old) (sight pass.new) consumer list
        stop.old stop.new result }
{
    let mut next = first(entries, pass, consumer, list, *stop);
    'rows: while let Some(row) = next {
        if let Some(cargo) = take_free(entries, pass, consumer, row) {
            *stop = row + 1;
            return Some((row, cargo));
        }
        *stop = row + 1;
        next = step_behind(entries, pass, list, *stop);
    }
    None
}

/// Acquires the first row of a list, from its head on, that is available when looked at.
pub(crate) fn walk_ready<C: Freight>(
    entries: &Entries<C>,
    pass: &mut Pass,
    list: u32,
) -> Option<(u64, C)>
    requires table { IsPassOf entries.now pass.old }
    requires list { list < entries.now.shape.lists }
    ensures kept { Kept pass.old pass.new }
    ensures walks { WalksReady C.goods (sight pass.old) (sight pass.new) list result }
{
    let mut next = step_behind(entries, pass, list, 0);
    'rows: while let Some(row) = next {
        if let Some(cargo) = take_ready(entries, pass, row) {
            return Some((row, cargo));
        }
        next = step_behind(entries, pass, list, row + 1);
    }
    None
}
