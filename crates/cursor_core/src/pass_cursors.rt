//! Where the cursors of a pass stand.
ghost use Rattle.std.specs.Prelude.{◌≡◌, length};

use crate::cursor::Cursor;

/// The greatest number of consumers of a queue.
pub const MOST_CONSUMERS: usize = 64;

/// The cursors of a pass's consumers, each at its consumer's number.
#[derive(Drop)]
pub struct PassCursors {
    /// The cursor of each consumer that the pass has; None at the number of another.
    pub slots: [Option<Cursor>; 64],
    ghost places: { length slots ≡ 64 },
}
