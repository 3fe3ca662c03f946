//! What a program reads from and writes to.
ghost use Rattle.std.specs.Prelude.{◌<◌, ◌≤◌, ℕ, List, Option, length, IfOk};
ghost use Rattle.outside_io.specs.Told.{HasCause, Reads, Writes};

use thiserror::Error;

/// The outside refused a call. Why it did is not known.
#[derive(Clone, Copy, Debug, PartialEq, Eq, Error)]
#[error("failed")]
pub struct Failed;

/// What a program reads bytes from. Contracts see the bytes that it has left, where it tells them, and
/// how often it has failed.
pub trait Source {
    /// The bytes that are left; None where the source doesn't tell them.
    ghost left: { Self → Option (List ℕ) };

    /// How often a call has failed. It rises by one where a call fails, and else stays.
    ghost faults: { Self → ℕ };

    /// Moves bytes from the front of what is left to the front of the buffer, as many as the answer
    /// says. 0 says that nothing is left. Where it fails it takes nothing. Behind the bytes that were moved
    /// the buffer may hold anything, and where it fails all of it may.
    fn read(&mut self, buffer: &mut [u8]) -> Result<usize, Failed>
        requires { 0 < length buffer.old }
        ensures bound { IfOk result (λ n. n ≤ length buffer.new) }
        ensures takes { Reads (left self.old) (left self.new) result buffer.new }
        ensures cause { HasCause (faults self.old) (faults self.new) result };
}

/// What a program writes bytes to. Contracts see the bytes that were written, where it tells them, and
/// how often it has failed.
pub trait Sink {
    /// The bytes that were written; None where the sink doesn't tell them.
    ghost written: { Self → Option (List ℕ) };

    /// How often a call has failed. It rises by one where a call fails, and else stays.
    ghost faults: { Self → ℕ };

    /// Writes the first of the bytes, as many as the answer says: at least one. Where it fails it
    /// writes nothing.
    fn write(&mut self, bytes: &[u8]) -> Result<usize, Failed>
        requires { 0 < length bytes.now }
        ensures adds { Writes (written self.old) (written self.new) result bytes.now }
        ensures cause { HasCause (faults self.old) (faults self.new) result };
}
