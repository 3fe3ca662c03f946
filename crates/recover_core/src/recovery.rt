//! Opens a journal with what it still holds.
ghost use Rattle.std.specs.Prelude.{◌≡◌, ◌+◌, ◌≤◌, IfOk, IfErr};
ghost use Rattle.disk_core.specs.Trails.{Extends};
ghost use Rattle.disk_core.specs.Images.{Over, Still, NoMore};
ghost use Rattle.journal_core.specs.Opening.{left_by, OpenFits};
ghost use Rattle.journal_core.specs.declared.journal.Trust.TheVariants.{Clean};
ghost use Rattle.recover_core.specs.Opened.{OpenedWith};

use crate::contents::contents_of;
use crate::kept::Recovered;
use disk_core::Disk;
use journal_core::{Journal, OpenFault, open_batches};
use std::alloc::Global;

/// Opens the journal on a disk, as `open_journal` does, and tells what it still holds: the number of its transactions,
/// and the entries that were put and are not gone, in order, each with the places of its transaction and of its body.
/// Refuses as `open_journal` does.
pub fn recover<D: Disk>(alloc: Global, disk: D) -> Result<(Journal<D>, Recovered), (OpenFault, D)>
    ensures opened { IfOk result (λ x. OpenedWith (D.images x.0.disk) (D.seen x.0.disk) x.0.gate x.0.trust
        x.1.commits x.1.entries) }
    ensures clean { IfOk result (λ x. x.0.trust ≡ Clean) }
    ensures refused { IfErr result (λ e. OpenFits e.0 (D.seen e.1) (D.faults disk) (D.faults e.1)) }
    ensures faults { IfOk result (λ x. D.faults x.0.disk ≡ D.faults disk) }
    ensures still { Still (D.seen disk) (D.seen (left_by (λ x. x.0.disk) result)) }
    ensures images { NoMore (D.images disk) (D.images (left_by (λ x. x.0.disk) result)) }
    ensures moments { Over D.moment D.since disk (left_by (λ x. x.0.disk) result) (D.images disk) }
    ensures trail { Extends (D.trail disk) (D.trail (left_by (λ x. x.0.disk) result)) }
    ensures syncs { (D.syncs disk ≤ D.syncs (left_by (λ x. x.0.disk) result))
        × (D.syncs (left_by (λ x. x.0.disk) result) ≤ D.syncs disk + 1) }
{
    match open_batches(alloc, disk) {
        Ok((journal, batches)) => match contents_of(alloc, batches) {
            Ok(recovered) => Ok((journal, recovered)),
            Err(_) => Err((OpenFault::NoMemory, journal.into_disk())),
        },
        Err((fault, disk)) => Err((fault, disk)),
    }
}
