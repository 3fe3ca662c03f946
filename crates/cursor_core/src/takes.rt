//! Acquiring one row.
ghost use Rattle.std.specs.Prelude.{◌≡◌, Some, IsTrue, ◌↔◌};
ghost use Rattle.std.specs.Int.{bit_at};
ghost use Rattle.std.specs.Option.{option_map};
ghost use Rattle.queue_model.specs.declared.rows.Row.{Row};
ghost use Rattle.queue_model.specs.State.{row_at};
ghost use Rattle.entry_table.specs.Passes.{IsPassOf, Kept, opening, state};
ghost use Rattle.entry_table.specs.Sights.{sight};
ghost use Rattle.cursor_core.specs.Goes.{KnowsPlace, TriesRow};
ghost use Rattle.cursor_core.specs.Takes.{TakesReady};

use acts_core::Freight;
use entry_table::{Entries, Pass};
use queue_model::{Change, DraftWord, RowState, WordName};

// Whether a mask has the bit of a consumer.
fn wants(mask: u64, consumer: u32) -> bool
    ensures { IsTrue result ↔ (bit_at mask consumer ≡ 1) }
{
    if consumer < 64 {
        (mask >> consumer) & 1 == 1
    } else {
        false
    }
}

/// Acquires a row if it is available: one exchange of its state, which hands out no cargo where it shows
/// another.
pub(crate) fn take_ready<C: Freight>(entries: &Entries<C>, pass: &mut Pass, row: u64) -> Option<C>
    requires table { IsPassOf entries.now pass.old }
    requires known { (x : Row) × (row_at (state pass.old) row ≡ Some x) }
    ensures kept { Kept pass.old pass.new }
    ensures takes { TakesReady (sight pass.old) (sight pass.new) row (option_map C.goods result) }
{
    match entries.take_row(pass, row, Change::Acq, RowState::Available) {
        Ok(cargo) => Some(cargo),
        Err(_) => None,
    }
}

/// Acquires a row if it is free to the consumer: available, and wanted by its selector.
pub(crate) fn take_free<C: Freight>(
    entries: &Entries<C>,
    pass: &mut Pass,
    consumer: u32,
    row: u64,
) -> Option<C>
    requires table { IsPassOf entries.now pass.old }
    requires known { (x : Row) × (row_at (state pass.old) row ≡ Some x) }
    ensures kept { Kept pass.old pass.new }
    ensures tries { TriesRow (opening pass.old) (sight pass.old) (sight pass.new) consumer row
        (option_map C.goods result) }
{
    let word = DraftWord::Mask;
    let mask = entries.look(pass, WordName::Draft { row, word });
    if wants(mask, consumer) {
        take_ready(entries, pass, row)
    } else {
        None
    }
}

/// The place of a row in its list.
pub(crate) fn place_of<C: Freight>(entries: &Entries<C>, pass: &mut Pass, row: u64) -> u64
    requires table { IsPassOf entries.now pass.old }
    requires known { (x : Row) × (row_at (state pass.old) row ≡ Some x) }
    ensures kept { Kept pass.old pass.new }
    ensures knows { KnowsPlace (opening pass.old) (sight pass.old) (sight pass.new) row result }
{
    let word = DraftWord::Place;
    entries.look(pass, WordName::Draft { row, word })
}
