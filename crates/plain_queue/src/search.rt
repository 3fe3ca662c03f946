//! Searches through the rows, in order of arrival.
ghost use Rattle.std.specs.Prelude.{◌≡◌, ◌&&◌, ◌==◌, position};
ghost use Rattle.queue_model.specs.declared.rows.Row.{Row};
ghost use Rattle.plain_queue.specs.Calls.{is_available, is_locked_by};

use queue_model::{Row, RowState};

/// Whether a row in this state is available.
fn is_available(state: RowState) -> bool
    ensures { result ≡ is_available state }
{
    matches!(state, RowState::Available)
}

/// Whether a row in this state is held by the caller.
fn is_locked_by(caller: u64, state: RowState) -> bool
    ensures { result ≡ is_locked_by caller state }
{
    match state {
        RowState::Locked(holder) => holder == caller,
        _ => false,
    }
}

/// Where the first available row stands.
pub(crate) fn first_available(rows: &[Row]) -> Option<usize>
    ensures { result ≡ position (λ (x : Row). is_available x.state) rows.now }
{
    rows.iter().position(|row| is_available(row.state))
}

/// Where the first row of this id stands that the caller holds.
pub(crate) fn held_row(rows: &[Row], caller: u64, id: u64) -> Option<usize>
    ensures { result ≡ position (λ (x : Row). is_locked_by caller x.state && (x.slip.id == id)) rows.now }
{
    rows.iter()
        .position(|row| is_locked_by(caller, row.state) && row.slip.id == id)
}
