//! The bells that a release rings.
ghost use Rattle.std.specs.Prelude.{◌≡◌, ℕ, ◌<◌, ◌==◌, Some};
ghost use Rattle.std.specs.Int.{bit_at};
ghost use Rattle.queue_model.specs.declared.rows.Row.{Row};
ghost use Rattle.queue_model.specs.State.{row_at};
ghost use Rattle.acts_core.specs.Calls.{rings_up};
ghost use Rattle.acts_core.specs.Moments.{HasMask};
ghost use Rattle.entry_table.specs.Passes.{state};
ghost use Rattle.entry_table.specs.Sights.{Serves};
ghost use Rattle.entry_calls.specs.Appends.{Ran};

use acts_core::Freight;
use entry_table::{Entries, Pass};
use queue_model::{DraftWord, WordName};

// Whether a mask has the bit of a consumer.
fn wants(mask: u64, consumer: u32) -> bool
    requires { consumer < 64 }
    ensures { result ≡ (bit_at mask consumer == 1) }
{
    (mask >> consumer) & 1 == 1
}

// Rings the bell of a consumer for a row, if the mask has its bit.
fn ring_wanted<C: Freight>(
    entries: &Entries<C>,
    pass: &mut Pass,
    consumer: u32,
    row: u64,
    mask: u64,
)
    requires serves { Serves entries.now pass.old }
    requires consumer { consumer < entries.now.shape.consumers }
    requires known { (x : Row) × (row_at (state pass.old) row ≡ Some x) }
    ensures serves { Serves entries.now pass.new }
    ensures ran { Ran pass.old pass.new (rings_up row mask consumer 1) }
{
    if wants(mask, consumer) {
        entries.ring(pass, consumer, row);
    }
}

/// Rings the bell of each consumer that wants the row, upwards, and answers the row's mask.
pub(crate) fn ring_row<C: Freight>(entries: &Entries<C>, pass: &mut Pass, row: u64) -> u64
    requires serves { Serves entries.now pass.old }
    requires known { (x : Row) × (row_at (state pass.old) row ≡ Some x) }
    ensures serves { Serves entries.now pass.new }
    ensures mask { HasMask (state pass.old) row result }
    ensures ran { Ran pass.old pass.new (rings_up row result 0 entries.now.shape.consumers) }
{
    let word = DraftWord::Mask;
    let mask = entries.look(pass, WordName::Draft { row, word });
    let consumers = entries.consumers();
    let mut consumer = 0;
    'consumers: while consumer < consumers {
        ring_wanted(entries, pass, consumer, row, mask);
        consumer += 1;
    }
    mask
}
