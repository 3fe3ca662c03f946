//! Goes over the bytes of a journal from gate to gate.
ghost use Rattle.std.specs.Prelude.{◌≡◌, ◌↔◌, IsTrue, IfOk, IfErr};
ghost use Rattle.journal_format.specs.Journal.{IsHeaded};
ghost use Rattle.journal_core.specs.Opening.{GateFits, IsGateOf, AreBatches, fault_of};

use crate::faults::OpenFault;
use journal_format::batches::read_batch;
use journal_format::{Batch, BatchFault};
use std::alloc::Global;

/// The bytes before the first gate: the name, the version and zeros.
pub(crate) const HEADER: [u8; 16] = [
    b'Q', b'P', b'I', b'D', b'Q', b'J', b'N', b'L', 0, 0, 0, 1, 0, 0, 0, 0,
];

/// A gate that has a batch behind it.
const OPEN: u8 = 1;

/// The batches of a journal.
#[derive(Debug, Drop)]
pub struct Batches {
    /// How many transactions they have.
    pub commits: u64,
    /// In their order, each with the place of the gate behind it.
    pub read: Vec<Batch>,
}

// The place of the first gate that isn't open.
pub(crate) fn gate_of(alloc: Global, bytes: &[u8]) -> Result<u64, OpenFault>
    ensures found { IfOk result (λ gate. IsGateOf bytes.now gate) }
    ensures refused { IfErr result (λ e. GateFits e bytes.now) }
{
    if !is_headed(bytes) {
        return Err(OpenFault::NotJournal);
    }
    let mut gate = HEADER.len() as u64;
    while bytes[gate as usize] == OPEN {
        match read_batch(alloc, bytes, gate + 1) {
            Ok(batch) => gate = batch.next,
            Err(fault) => return Err(open_fault(fault)),
        }
    }
    Ok(gate)
}

// The place of the first gate that isn't open, and the batches before it.
pub(crate) fn batches_of(alloc: Global, bytes: &[u8]) -> Result<(u64, Batches), OpenFault>
    ensures gate { IfOk result (λ x. IsGateOf bytes.now x.0) }
    ensures batches { IfOk result (λ x. AreBatches bytes.now x.1.commits x.1.read.items) }
    ensures refused { IfErr result (λ e. GateFits e bytes.now) }
{
    if !is_headed(bytes) {
        return Err(OpenFault::NotJournal);
    }
    let mut gate = HEADER.len() as u64;
    let mut commits = 0;
    let mut read = Vec::new(alloc);
    'gates: while bytes[gate as usize] == OPEN {
        let batch = match read_batch(alloc, bytes, gate + 1) {
            Ok(batch) => batch,
            Err(fault) => return Err(open_fault(fault)),
        };
        gate = batch.next;
        commits += batch.txns.len() as u64;
        match read.push(batch) {
            Ok(()) => {}
            Err(_) => return Err(OpenFault::NoMemory),
        }
    }
    Ok((gate, Batches { commits, read }))
}

// The fault of a journal whose open gate has no batch behind it.
fn open_fault(fault: BatchFault) -> OpenFault
    ensures { result ≡ fault_of fault }
{
    match fault {
        BatchFault::NotBatch { at } => OpenFault::Damaged { at },
        BatchFault::NoMemory => OpenFault::NoMemory,
    }
}

// Whether the bytes have a whole header and a gate behind it.
fn is_headed(bytes: &[u8]) -> bool
    ensures { IsTrue result ↔ IsHeaded bytes.now }
{
    bytes.len() > HEADER.len() && &bytes[..HEADER.len()] == HEADER.as_slice()
}
