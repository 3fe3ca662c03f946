//! What a journal writes, over a disk and the place of the gate.
ghost use Rattle.std.specs.Prelude.{◌≡◌, ◌+◌, ◌≤◌, ◌++◌, ℕ, List, length, min, IfOk, IfErr, IfSome, OnOk, OnErr};
ghost use Rattle.std.specs.List.{flat_map};
ghost use Rattle.outside_io.specs.Counts.{last_count};
ghost use Rattle.outside_io.specs.Told.{HasCause};
ghost use Rattle.disk_core.specs.Trails.{Extends};
ghost use Rattle.disk_core.specs.Images.{Only, Over, Still, NoMore};
ghost use Rattle.journal_format.specs.Spelling.{Txn, txn_bytes, batch_bytes};
ghost use Rattle.journal_core.specs.Stands.{Stands, IsEither, IsBody, KeepsFront, Gives};
ghost use Rattle.journal_core.specs.declared.journal.Trust.TheVariants.{Clean, Body, Gate};

use crate::journal::Trust;
use crate::put::put;
use disk_core::Disk;
use journal_format::DeviceFault;

/// Writes a batch behind the gate, with a closed gate behind it, and syncs; then opens the gate, and syncs. Answers
/// the place of the next gate. Err tells how far it came.
pub(crate) fn write_behind<D: Disk>(disk: &mut D, gate: u64, body: &[u8]) -> Result<u64, Trust>
    requires whole { (C : List Txn) × (A : List Txn) × Stands (D.images disk.old) gate Clean C A }
    requires batch { (B : List Txn) × IsBody B body.now }
    ensures moments { (C A B : List Txn) → Stands (D.images disk.old) gate Clean C A →
        IsBody B body.now → Over D.moment D.since disk.old disk.new (IsEither C B) }
    ensures ok { IfOk result (λ g. (C A B : List Txn) → Stands (D.images disk.old) gate Clean C A →
        IsBody B body.now → Stands (D.images disk.new) g Clean (C ++ B) B) }
    ensures gives { OnOk result ((C A B : List Txn) → Stands (D.images disk.old) gate Clean C A →
        IsBody B body.now → IfSome (D.seen disk.new) (Gives (gate + 13) (flat_map txn_bytes B))) }
    ensures err { IfErr result (λ t. (C A B : List Txn) → Stands (D.images disk.old) gate Clean C A →
        IsBody B body.now → Stands (D.images disk.new) gate t C B) }
    ensures unclean { IfErr result (λ t. t ≡ Clean → ⊥) }
    ensures gate { IfOk result (λ g. g ≡ min (gate + length body.now) last_count) }
    ensures front { KeepsFront gate (D.seen disk.old) (D.seen disk.new) }
    ensures trail { Extends (D.trail disk.old) (D.trail disk.new) }
    ensures cause { HasCause (D.faults disk.old) (D.faults disk.new) result }
    ensures syncs { (D.syncs disk.old ≤ D.syncs disk.new) × (D.syncs disk.new ≤ D.syncs disk.old + 2) }
{
    match stage(disk, gate, body) {
        Ok(()) => match open_gate(disk, gate, body.len() as u64) {
            Ok(next) => Ok(next),
            Err(_) => Err(Trust::Gate),
        },
        Err(_) => Err(Trust::Body),
    }
}

/// Writes a batch behind the gate, with a closed gate behind it, and syncs.
fn stage<D: Disk>(disk: &mut D, gate: u64, body: &[u8]) -> Result<(), DeviceFault>
    requires whole { (C : List Txn) × (A : List Txn) × Stands (D.images disk.old) gate Clean C A }
    ensures moments { (C A B : List Txn) → Stands (D.images disk.old) gate Clean C A →
        IsBody B body.now → Over D.moment D.since disk.old disk.new (IsEither C B) }
    ensures ok { OnOk result ((C A B : List Txn) → Stands (D.images disk.old) gate Clean C A →
        IsBody B body.now → Stands (D.images disk.new) gate Gate C B) }
    ensures err { OnErr result ((C A B : List Txn) → Stands (D.images disk.old) gate Clean C A →
        IsBody B body.now → Stands (D.images disk.new) gate Body C B) }
    ensures front { KeepsFront gate (D.seen disk.old) (D.seen disk.new) }
    ensures trail { Extends (D.trail disk.old) (D.trail disk.new) }
    ensures cause { HasCause (D.faults disk.old) (D.faults disk.new) result }
    ensures syncs { (D.syncs disk.old ≤ D.syncs disk.new) × (D.syncs disk.new ≤ D.syncs disk.old + 1) }
{
    let behind = gate.saturating_add(1);
    if put(disk, behind, body).is_err() {
        return Err(DeviceFault);
    }
    Ok(())
}

/// Opens the gate before a batch of that size, the closed gate behind it among its bytes, and syncs. Answers the place
/// of that gate.
fn open_gate<D: Disk>(disk: &mut D, gate: u64, size: u64) -> Result<u64, DeviceFault>
    requires whole { (C : List Txn) × (B : List Txn) × Stands (D.images disk.old) gate Gate C B }
    ensures moments { (C B : List Txn) → Stands (D.images disk.old) gate Gate C B →
        Over D.moment D.since disk.old disk.new (IsEither C B) }
    ensures ok { IfOk result (λ g. (C B : List Txn) → Stands (D.images disk.old) gate Gate C B →
        size ≡ length (batch_bytes B) + 1 → Stands (D.images disk.new) g Clean (C ++ B) B) }
    ensures gives { OnOk result ((C B : List Txn) → Stands (D.images disk.old) gate Gate C B →
        IfSome (D.seen disk.new) (Gives (gate + 13) (flat_map txn_bytes B))) }
    ensures err { OnErr result ((C B : List Txn) → Stands (D.images disk.old) gate Gate C B →
        Stands (D.images disk.new) gate Gate C B) }
    ensures gate { IfOk result (λ g. g ≡ min (gate + size) last_count) }
    ensures front { KeepsFront gate (D.seen disk.old) (D.seen disk.new) }
    ensures trail { Extends (D.trail disk.old) (D.trail disk.new) }
    ensures cause { HasCause (D.faults disk.old) (D.faults disk.new) result }
    ensures syncs { (D.syncs disk.old ≤ D.syncs disk.new) × (D.syncs disk.new ≤ D.syncs disk.old + 1) }
{
    if put(disk, gate, &[1]).is_err() {
        return Err(DeviceFault);
    }
    Ok(gate.saturating_add(size))
}

/// Closes a gate that a failed append may have opened, and syncs.
fn close_gate<D: Disk>(disk: &mut D, gate: u64) -> Result<(), DeviceFault>
    requires whole { (C : List Txn) × (B : List Txn) × Stands (D.images disk.old) gate Gate C B }
    ensures moments { (C B : List Txn) → Stands (D.images disk.old) gate Gate C B →
        Over D.moment D.since disk.old disk.new (IsEither C B) }
    ensures ok { OnOk result ((C B : List Txn) → Stands (D.images disk.old) gate Gate C B →
        Stands (D.images disk.new) gate Clean C B) }
    ensures err { OnErr result ((C B : List Txn) → Stands (D.images disk.old) gate Gate C B →
        Stands (D.images disk.new) gate Gate C B) }
    ensures front { KeepsFront gate (D.seen disk.old) (D.seen disk.new) }
    ensures trail { Extends (D.trail disk.old) (D.trail disk.new) }
    ensures cause { HasCause (D.faults disk.old) (D.faults disk.new) result }
    ensures syncs { (D.syncs disk.old ≤ D.syncs disk.new) × (D.syncs disk.new ≤ D.syncs disk.old + 1) }
{
    if put(disk, gate, &[0]).is_err() {
        return Err(DeviceFault);
    }
    Ok(())
}

/// Syncs.
pub(crate) fn only_sync<D: Disk>(disk: &mut D) -> Result<(), DeviceFault>
    ensures durable { OnOk result (Only (D.seen disk.new) (D.images disk.new)) }
    ensures still { Still (D.seen disk.old) (D.seen disk.new) }
    ensures images { NoMore (D.images disk.old) (D.images disk.new) }
    ensures moments { Over D.moment D.since disk.old disk.new (D.images disk.old) }
    ensures trail { Extends (D.trail disk.old) (D.trail disk.new) }
    ensures cause { HasCause (D.faults disk.old) (D.faults disk.new) result }
    ensures syncs { (D.syncs disk.old ≤ D.syncs disk.new) × (D.syncs disk.new ≤ D.syncs disk.old + 1) }
{
    if disk.sync().is_err() {
        return Err(DeviceFault);
    }
    Ok(())
}

/// What a repair does, by how far the failed append had come.
pub(crate) fn mend<D: Disk>(disk: &mut D, gate: u64, trust: Trust) -> Result<(), DeviceFault>
    requires whole { (C : List Txn) × (B : List Txn) × Stands (D.images disk.old) gate trust C B }
    ensures moments { (C B : List Txn) → Stands (D.images disk.old) gate trust C B →
        Over D.moment D.since disk.old disk.new (IsEither C B) }
    ensures ok { OnOk result ((C B : List Txn) → Stands (D.images disk.old) gate trust C B →
        Stands (D.images disk.new) gate Clean C B) }
    ensures err { OnErr result ((C B : List Txn) → Stands (D.images disk.old) gate trust C B →
        Stands (D.images disk.new) gate trust C B) }
    ensures alone { (trust ≡ Gate → ⊥) → Still (D.seen disk.old) (D.seen disk.new)
        × NoMore (D.images disk.old) (D.images disk.new) }
    ensures front { KeepsFront gate (D.seen disk.old) (D.seen disk.new) }
    ensures trail { Extends (D.trail disk.old) (D.trail disk.new) }
    ensures cause { HasCause (D.faults disk.old) (D.faults disk.new) result }
    ensures syncs { (D.syncs disk.old ≤ D.syncs disk.new) × (D.syncs disk.new ≤ D.syncs disk.old + 1) }
{
    match trust {
        Trust::Gate => close_gate(disk, gate),
        Trust::Body => only_sync(disk),
        Trust::Clean => only_sync(disk),
    }
}
