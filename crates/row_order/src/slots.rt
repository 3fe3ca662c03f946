//! The rows of a one-thread queue.
use queue_model::{RowState, Slip};

/// A row, with its cargo while that is at home: while the row is available, or left by a caller.
#[derive(Debug, Drop)]
pub struct Slot<C> {
    pub slip: Slip,
    pub state: RowState,
    pub cargo: Option<C>,
}
