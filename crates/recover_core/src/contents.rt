//! What the batches of a journal still hold.
ghost use Rattle.std.specs.Prelude.{ℕ, List, IfOk};
ghost use Rattle.journal_core.specs.Opening.{AreBatches};
ghost use Rattle.recover_core.specs.Recovered.{IsRecovered};

use crate::kept::Recovered;
use crate::passing::live_of;
use byte_lists::NoMemory;
use journal_core::Batches;
use sqlite_items::Items;
use std::alloc::Global;

/// What the batches of a journal still hold: the number of its transactions, and the entries that were put and are not
/// gone, in order, each with the places of its transaction and of its body. Refuses only for want of memory.
pub(crate) fn contents_of(alloc: Global, batches: Batches) -> Result<Recovered, NoMemory>
    requires { (bytes : List ℕ) × AreBatches bytes batches.commits batches.read.items }
    ensures { (bytes : List ℕ) → AreBatches bytes batches.commits batches.read.items →
        IfOk result (λ r. IsRecovered bytes r.commits r.entries) }
{
    let Batches { commits, read } = batches;
    match live_of(alloc, read) {
        Ok(entries) => Ok(Recovered {
            commits,
            entries: Items::from_vec(entries),
        }),
        Err(fault) => Err(fault),
    }
}
