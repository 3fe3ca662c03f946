//! Creating and opening a journal.
ghost use Rattle.std.specs.Prelude.{◌≡◌, ◌+◌, ◌<◌, ◌≤◌, [], ℕ, List, length, IfOk, IfErr, IfSome, IsSomeAnd, OnOk};
ghost use Rattle.outside_io.specs.Told.{HasCause};
ghost use Rattle.disk_core.specs.Trails.{Extends};
ghost use Rattle.disk_core.specs.Images.{Over, Still, NoMore};
ghost use Rattle.journal_format.specs.Spelling.{Txn};
ghost use Rattle.journal_core.specs.Stands.{Stands};
ghost use Rattle.journal_core.specs.Opening.{left_by, CreateFits, OpenFits, GateFits, ReadFits, IsGateOf, OpenedAs, OpenedBatches};
ghost use Rattle.journal_core.specs.declared.faults.CreateFault.TheVariants.{DeviceFault};
ghost use Rattle.journal_core.specs.declared.journal.Trust.TheVariants.{Clean};

use crate::faults::{CreateFault, OpenFault};
use crate::journal::{Journal, Trust};
use crate::put::put;
use crate::reading::read_whole;
use crate::steps::only_sync;
use crate::walk::{Batches, HEADER, batches_of, gate_of};
use byte_lists::Bytes;
use disk_core::Disk;
use std::alloc::Global;

/// A journal with no commits: the header, and a closed gate.
const FIRST_BYTES: [u8; 17] = [
    b'Q', b'P', b'I', b'D', b'Q', b'J', b'N', b'L', 0, 0, 0, 1, 0, 0, 0, 0, 0,
];

/// Makes a journal with no commits on an empty disk: writes header and closed gate in one write, and syncs. Refuses
/// with NotEmpty exactly where the disk's length isn't 0, and with DeviceFault where a call of the disk failed.
/// Takes no memory.
pub fn create<D: Disk>(disk: D) -> Result<Journal<D>, (CreateFault, D)>
    ensures made { IfOk result (λ j. Stands (D.images j.disk) j.gate j.trust [] []) }
    ensures clean { IfOk result (λ j. (j.trust ≡ Clean) × (j.gate ≡ 16)) }
    ensures empty { IfOk result (λ j. IfSome (D.seen disk) (λ b. 0 ≡ length b)) }
    ensures refused { IfErr result (λ e. CreateFits e.0 (D.seen disk) (D.faults disk) (D.faults e.1)) }
    ensures faults { IfOk result (λ j. D.faults j.disk ≡ D.faults disk) }
    // A disk that has bytes is left as it was.
    ensures spared { IsSomeAnd (D.seen disk) (λ b. 0 < length b) →
        Still (D.seen disk) (D.seen (left_by (λ j. j.disk) result)) × NoMore (D.images disk) (D.images (left_by (λ j. j.disk) result)) }
    ensures trail { Extends (D.trail disk) (D.trail (left_by (λ j. j.disk) result)) }
    ensures later { D.moment disk ≤ D.moment (left_by (λ j. j.disk) result) }
    ensures syncs { (D.syncs disk ≤ D.syncs (left_by (λ j. j.disk) result))
        × (D.syncs (left_by (λ j. j.disk) result) ≤ D.syncs disk + 1) }
{
    let mut disk = disk;
    match make(&mut disk) {
        Ok(()) => Ok(Journal {
            disk,
            gate: HEADER.len() as u64,
            trust: Trust::Clean,
        }),
        Err(fault) => Err((fault, disk)),
    }
}

// Writes header and closed gate to an empty disk, and syncs.
fn make<D: Disk>(disk: &mut D) -> Result<(), CreateFault>
    ensures made { OnOk result (Stands (D.images disk.new) 16 Clean [] []) }
    ensures empty { OnOk result (IfSome (D.seen disk.old) (λ b. 0 ≡ length b)) }
    ensures refused { IfErr result (λ e.
        CreateFits e (D.seen disk.old) (D.faults disk.old) (D.faults disk.new)) }
    ensures faults { OnOk result (D.faults disk.new ≡ D.faults disk.old) }
    ensures spared { IsSomeAnd (D.seen disk.old) (λ b. 0 < length b) →
        Still (D.seen disk.old) (D.seen disk.new) × NoMore (D.images disk.old) (D.images disk.new) }
    ensures trail { Extends (D.trail disk.old) (D.trail disk.new) }
    ensures later { D.moment disk.old ≤ D.moment disk.new }
    ensures syncs { (D.syncs disk.old ≤ D.syncs disk.new) × (D.syncs disk.new ≤ D.syncs disk.old + 1) }
{
    match disk.len() {
        Ok(len) => {
            if len == 0 {
                write_first(disk)
            } else {
                Err(CreateFault::NotEmpty { len })
            }
        }
        Err(_) => Err(CreateFault::DeviceFault),
    }
}

// Writes header and closed gate, and syncs.
fn write_first<D: Disk>(disk: &mut D) -> Result<(), CreateFault>
    requires { IfSome (D.seen disk.old) (λ b. 0 ≡ length b) }
    ensures made { OnOk result (Stands (D.images disk.new) 16 Clean [] []) }
    ensures refused { IfErr result (λ e. e ≡ DeviceFault) }
    ensures cause { HasCause (D.faults disk.old) (D.faults disk.new) result }
    ensures trail { Extends (D.trail disk.old) (D.trail disk.new) }
    ensures later { D.moment disk.old ≤ D.moment disk.new }
    ensures syncs { (D.syncs disk.old ≤ D.syncs disk.new) × (D.syncs disk.new ≤ D.syncs disk.old + 1) }
{
    match put(disk, 0, &FIRST_BYTES) {
        Ok(()) => Ok(()),
        Err(_) => Err(CreateFault::DeviceFault),
    }
}

/// Opens the journal on a disk: syncs, and then reads it whole. The journal is clean. Refuses with NotJournal exactly
/// where the bytes have no whole header and first gate, with Damaged exactly where a batch behind an open gate is
/// none, at the place of the first fault, with DeviceFault where a call of the disk failed, and for want of memory.
pub fn open_journal<D: Disk>(alloc: Global, disk: D) -> Result<Journal<D>, (OpenFault, D)>
    ensures opened { IfOk result (λ j. (C : List Txn) × Stands (D.images j.disk) j.gate j.trust C []) }
    ensures told { IfOk result (λ j. IfSome (D.seen j.disk)
        (λ b. OpenedAs b (D.images j.disk) j.gate j.trust)) }
    ensures clean { IfOk result (λ j. j.trust ≡ Clean) }
    ensures refused { IfErr result (λ e. OpenFits e.0 (D.seen e.1) (D.faults disk) (D.faults e.1)) }
    ensures faults { IfOk result (λ j. D.faults j.disk ≡ D.faults disk) }
    ensures still { Still (D.seen disk) (D.seen (left_by (λ j. j.disk) result)) }
    ensures images { NoMore (D.images disk) (D.images (left_by (λ j. j.disk) result)) }
    ensures moments { Over D.moment D.since disk (left_by (λ j. j.disk) result) (D.images disk) }
    ensures trail { Extends (D.trail disk) (D.trail (left_by (λ j. j.disk) result)) }
    ensures syncs { (D.syncs disk ≤ D.syncs (left_by (λ j. j.disk) result))
        × (D.syncs (left_by (λ j. j.disk) result) ≤ D.syncs disk + 1) }
{
    let mut disk = disk;
    match find_gate(alloc, &mut disk) {
        Ok((gate, _)) => Ok(Journal {
            disk,
            gate,
            trust: Trust::Clean,
        }),
        Err(fault) => Err((fault, disk)),
    }
}

/// Opens the journal on a disk, as `open_journal` does, and gives its batches too. Each batch is read once.
pub fn open_batches<D: Disk>(
    alloc: Global,
    disk: D,
) -> Result<(Journal<D>, Batches), (OpenFault, D)>
    ensures opened { IfOk result (λ x. OpenedBatches (D.images x.0.disk) (D.seen x.0.disk) x.0.gate
        x.0.trust x.1.commits x.1.read.items) }
    ensures clean { IfOk result (λ x. x.0.trust ≡ Clean) }
    ensures refused { IfErr result (λ e. OpenFits e.0 (D.seen e.1) (D.faults disk) (D.faults e.1)) }
    ensures faults { IfOk result (λ x. D.faults x.0.disk ≡ D.faults disk) }
    ensures still { Still (D.seen disk) (D.seen (left_by (λ x. x.0.disk) result)) }
    ensures images { NoMore (D.images disk) (D.images (left_by (λ x. x.0.disk) result)) }
    ensures moments { Over D.moment D.since disk (left_by (λ x. x.0.disk) result) (D.images disk) }
    ensures trail { Extends (D.trail disk) (D.trail (left_by (λ x. x.0.disk) result)) }
    ensures syncs { (D.syncs disk ≤ D.syncs (left_by (λ x. x.0.disk) result))
        × (D.syncs (left_by (λ x. x.0.disk) result) ≤ D.syncs disk + 1) }
{
    let mut disk = disk;
    match find_batches(alloc, &mut disk) {
        Ok((gate, batches)) => {
            let trust = Trust::Clean;
            Ok((Journal { disk, gate, trust }, batches))
        }
        Err(fault) => Err((fault, disk)),
    }
}

// Syncs, reads all bytes, and finds the first gate that isn't open.
fn find_gate<D: Disk>(alloc: Global, disk: &mut D) -> Result<(u64, Bytes), OpenFault>
    ensures opened { IfOk result (λ x. OpenedAs x.1 (D.images disk.new) x.0 Clean) }
    ensures told { IfOk result (λ x. IfSome (D.seen disk.new) (λ b. x.1 ≡ b)) }
    ensures refused { IfErr result (λ e.
        OpenFits e (D.seen disk.new) (D.faults disk.old) (D.faults disk.new)) }
    ensures faults { OnOk result (D.faults disk.new ≡ D.faults disk.old) }
    ensures still { Still (D.seen disk.old) (D.seen disk.new) }
    ensures images { NoMore (D.images disk.old) (D.images disk.new) }
    ensures moments { Over D.moment D.since disk.old disk.new (D.images disk.old) }
    ensures trail { Extends (D.trail disk.old) (D.trail disk.new) }
    ensures syncs { (D.syncs disk.old ≤ D.syncs disk.new) × (D.syncs disk.new ≤ D.syncs disk.old + 1) }
{
    match read_synced(alloc, disk) {
        Ok(bytes) => gated(alloc, bytes),
        Err(fault) => Err(fault),
    }
}

// Syncs, reads all bytes, and of these the batches up to the first gate that isn't open.
fn find_batches<D: Disk>(alloc: Global, disk: &mut D) -> Result<(u64, Batches), OpenFault>
    ensures opened { IfOk result (λ x. OpenedBatches (D.images disk.new) (D.seen disk.new) x.0 Clean
        x.1.commits x.1.read.items) }
    ensures refused { IfErr result (λ e.
        OpenFits e (D.seen disk.new) (D.faults disk.old) (D.faults disk.new)) }
    ensures faults { OnOk result (D.faults disk.new ≡ D.faults disk.old) }
    ensures still { Still (D.seen disk.old) (D.seen disk.new) }
    ensures images { NoMore (D.images disk.old) (D.images disk.new) }
    ensures moments { Over D.moment D.since disk.old disk.new (D.images disk.old) }
    ensures trail { Extends (D.trail disk.old) (D.trail disk.new) }
    ensures syncs { (D.syncs disk.old ≤ D.syncs disk.new) × (D.syncs disk.new ≤ D.syncs disk.old + 1) }
{
    match read_synced(alloc, disk) {
        Ok(bytes) => batches_of(alloc, bytes.as_slice()),
        Err(fault) => Err(fault),
    }
}

// Syncs, and reads all bytes: each image is what was read.
fn read_synced<D: Disk>(alloc: Global, disk: &mut D) -> Result<Vec<u8>, OpenFault>
    ensures each { IfOk result (λ v. (c : List ℕ) → D.images disk.new c → v.items ≡ c) }
    ensures told { IfOk result (λ v. IfSome (D.seen disk.new) (λ b. v.items ≡ b)) }
    ensures refused { IfErr result (λ e. ReadFits e (D.faults disk.old) (D.faults disk.new)) }
    ensures faults { OnOk result (D.faults disk.new ≡ D.faults disk.old) }
    ensures still { Still (D.seen disk.old) (D.seen disk.new) }
    ensures images { NoMore (D.images disk.old) (D.images disk.new) }
    ensures moments { Over D.moment D.since disk.old disk.new (D.images disk.old) }
    ensures trail { Extends (D.trail disk.old) (D.trail disk.new) }
    ensures syncs { (D.syncs disk.old ≤ D.syncs disk.new) × (D.syncs disk.new ≤ D.syncs disk.old + 1) }
{
    match only_sync(disk) {
        Ok(()) => read_whole(alloc, disk),
        Err(_) => Err(OpenFault::DeviceFault),
    }
}

// The bytes, with the place of the first gate that isn't open.
fn gated(alloc: Global, bytes: Vec<u8>) -> Result<(u64, Bytes), OpenFault>
    ensures found { IfOk result (λ x. IsGateOf bytes.items x.0) }
    ensures bytes { IfOk result (λ x. x.1 ≡ bytes.items) }
    ensures refused { IfErr result (λ e. GateFits e bytes.items) }
{
    match gate_of(alloc, bytes.as_slice()) {
        Ok(gate) => Ok((gate, Bytes::from_vec(bytes))),
        Err(fault) => Err(fault),
    }
}
