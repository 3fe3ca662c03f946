//! A write that is synced.
ghost use Rattle.std.specs.Prelude.{◌≡◌, ◌+◌, ◌≤◌, length, IfSome, OnOk};
ghost use Rattle.outside_io.specs.Told.{HasCause, WhileTold};
ghost use Rattle.disk_core.specs.Trails.{Extends};
ghost use Rattle.disk_core.specs.Images.{Holds, Torn, Only, Over};
ghost use Rattle.journal_core.specs.Stands.{TornFrom};

use disk_core::Disk;
use journal_format::DeviceFault;

/// Writes the bytes at that place, and syncs: two calls of the disk, one where the write fails.
pub(crate) fn put<D: Disk>(disk: &mut D, at: u64, bytes: &[u8]) -> Result<(), DeviceFault>
    requires { IfSome (D.seen disk.old) (λ b. at ≤ length b) }
    ensures written { OnOk result (WhileTold (D.seen disk.old) (D.seen disk.new) (Holds at bytes.now)) }
    ensures durable { OnOk result (Only (D.seen disk.new) (D.images disk.new)) }
    ensures torn { WhileTold (D.seen disk.old) (D.seen disk.new) (Torn at (length bytes.now)) }
    ensures images { (c : _) → D.images disk.new c → TornFrom (D.images disk.old) at (length bytes.now) c }
    ensures moments { Over D.moment D.since disk.old disk.new
        (TornFrom (D.images disk.old) at (length bytes.now)) }
    ensures trail { Extends (D.trail disk.old) (D.trail disk.new) }
    ensures cause { HasCause (D.faults disk.old) (D.faults disk.new) result }
    ensures syncs { (D.syncs disk.old ≤ D.syncs disk.new) × (D.syncs disk.new ≤ D.syncs disk.old + 1) }
{
    if disk.write_at(at, bytes).is_err() {
        return Err(DeviceFault);
    }
    if disk.sync().is_err() {
        return Err(DeviceFault);
    }
    Ok(())
}
