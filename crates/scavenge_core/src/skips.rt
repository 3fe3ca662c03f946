//! Steps over the deleted rows behind a node.
ghost use Rattle.std.specs.Prelude.{◌≡◌, ◌<◌, Some, IfSome};
ghost use Rattle.queue_model.specs.declared.rows.Row.{Row};
ghost use Rattle.queue_model.specs.declared.rows.RowState.TheVariants.{Deleted};
ghost use Rattle.queue_model.specs.History.{Legal};
ghost use Rattle.queue_model.specs.State.{row_at, place_at, IsIn};
ghost use Rattle.acts_core.specs.Walks.{IsStop};
ghost use Rattle.entry_table.specs.Passes.{IsPassOf, Kept, opening, seen, state};
ghost use Rattle.entry_table.specs.declared.pass.Pass.{Pass};
ghost use Rattle.scavenge_core.specs.Skips.{Ahead, GoesOn, KnowsPlace, MayMove, Moved, StepsOver};

use acts_core::Freight;
use entry_table::{Entries, Pass, node_of};
use link_core::places::state_word;
use queue_model::{DraftWord, RowState, WordName};

/// The next row behind a stop of a list that is not deleted when it is looked at. The link behind the stop then
/// names it: it was moved on past the deleted rows between, by one exchange where nobody else moves it. None
/// where the end of the list was shown; a deleted last row is stepped past, and the link that names it stays. A
/// stop is 0 for the head of the list, and a number more than a row's for that row. Takes no memory, and never
/// waits.
pub fn step_behind<C: Freight>(
    entries: &Entries<C>,
    pass: &mut Pass,
    list: u32,
    stop: u64,
) -> Option<u64>
    requires table { IsPassOf entries.now pass.old }
    requires list { list < entries.now.shape.lists }
    requires stop { IsStop (state pass.old) list stop }
    ensures kept { Kept pass.old pass.new }
    ensures steps { StepsOver pass.old pass.new list stop result }
{
    let Some(named) = entries.watch(pass, list, stop) else {
        return None;
    };
    let mut first = named;
    let mut row = named;
    'rows: loop {
        let found = entries.look(pass, WordName::State(row));
        if found != state_word(RowState::Deleted) {
            let named = move_on(entries, pass, list, stop, first, row);
            if named == row {
                return Some(row);
            }
            first = named;
            row = named;
        } else {
            match go_on(entries, pass, list, stop, first, row) {
                None => return None,
                Some((named, next)) => {
                    first = named;
                    row = next;
                }
            }
        }
    }
}

// Goes on behind a deleted row: the row that the link behind the stop names then, and the next row to look at.
// None where the end of the list was shown, with all rows behind the stop deleted.
fn go_on<C: Freight>(
    entries: &Entries<C>,
    pass: &mut Pass,
    list: u32,
    stop: u64,
    first: u64,
    row: u64,
) -> Option<(u64, u64)>
    requires table { IsPassOf entries.now pass.old }
    requires list { list < entries.now.shape.lists }
    requires may { MayMove pass.old list stop first row }
    requires legal { Legal (opening pass.old) (seen pass.old) }
    requires gone { IsIn (state pass.old) row Deleted }
    ensures kept { Kept pass.old pass.new }
    ensures goes { (old : Pass) → IsStop (state old) list stop
        → Ahead old pass.old list stop first row 1 1 → GoesOn old pass.new list stop result }
    ensures later { IfSome result (λ n. place_at (state pass.old) row < place_at (state pass.new) n.1) }
{
    if let Some(next) = entries.follow(pass, list, row + 1) {
        return Some((first, next));
    }
    if first == row {
        return None;
    }
    let named = move_on(entries, pass, list, stop, first, row);
    if named != row {
        return Some((named, named));
    }
    match entries.follow(pass, list, row + 1) {
        Some(next) => Some((row, next)),
        None => None,
    }
}

// Moves the link behind the stop on from the row that it names to a later one, past deleted rows. The row that it
// names then: where somebody else moved it farther, a later one still.
fn move_on<C: Freight>(
    entries: &Entries<C>,
    pass: &mut Pass,
    list: u32,
    stop: u64,
    first: u64,
    row: u64,
) -> u64
    requires table { IsPassOf entries.now pass.old }
    requires list { list < entries.now.shape.lists }
    requires may { MayMove pass.old list stop first row }
    requires legal { Legal (opening pass.old) (seen pass.old) }
    ensures kept { Kept pass.old pass.new }
    ensures moved { Moved pass.old pass.new list stop first row result }
{
    let mut from = first;
    'tries: while from != row {
        let found = entries.move_link(pass, node_of(list, stop), from, row);
        if found == from + 1 {
            return row;
        }
        let named = found - 1;
        let there = place_of(entries, pass, named);
        if there > place_of(entries, pass, row) {
            return named;
        }
        from = named;
    }
    row
}

// The place of a row in its list.
fn place_of<C: Freight>(entries: &Entries<C>, pass: &mut Pass, row: u64) -> u64
    requires table { IsPassOf entries.now pass.old }
    requires known { (x : Row) × (row_at (state pass.old) row ≡ Some x) }
    ensures kept { Kept pass.old pass.new }
    ensures knows { KnowsPlace pass.old pass.new row result }
{
    let word = DraftWord::Place;
    entries.look(pass, WordName::Draft { row, word })
}
