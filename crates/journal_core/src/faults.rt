//! Why a journal isn't created or opened.
use thiserror::Error;

/// Why a journal isn't created.
#[derive(Clone, Copy, Debug, PartialEq, Eq, Error)]
pub enum CreateFault {
    #[error("device fault")]
    DeviceFault,
    /// The disk has so many bytes already.
    #[error("the disk is not empty: {len} bytes")]
    NotEmpty { len: u64 },
}

/// Why a journal isn't opened, or its bytes aren't given.
#[derive(Clone, Copy, Debug, PartialEq, Eq, Error)]
pub enum OpenFault {
    #[error("device fault")]
    DeviceFault,
    /// The bytes have no whole header and first gate.
    #[error("not a journal")]
    NotJournal,
    /// A batch behind an open gate is none. The first fault is at this place.
    #[error("damaged at byte {at}")]
    Damaged { at: u64 },
    #[error("out of memory")]
    NoMemory,
}
