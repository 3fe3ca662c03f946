//! Why a transaction takes nothing more, why bytes are no batch, and what a device refuses.
use thiserror::Error;

/// The transaction has 65,536 items, or its encoding would have more than 67,108,864 bytes.
#[derive(Clone, Copy, Debug, PartialEq, Eq, Error)]
#[error("the transaction is too long")]
pub struct TxnTooLong;

/// Why bytes give no batch.
#[derive(Clone, Copy, Debug, PartialEq, Eq, Error)]
pub enum BatchFault {
    /// No batch stands there. The first fault begins at this byte, counted from the first of all bytes.
    #[error("no batch: a fault at byte {at}")]
    NotBatch { at: u64 },
    #[error("out of memory")]
    NoMemory,
}

/// A device refused a call.
#[derive(Clone, Copy, Debug, PartialEq, Eq, Error)]
#[error("device fault")]
pub struct DeviceFault;
