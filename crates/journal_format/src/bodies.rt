//! Bodies of messages that stand on a device.
ghost use Rattle.std.specs.Prelude.{◌≡◌, ◌<◌, ◌≤◌, ◌+◌, ℕ, List, Result, length, OnOk, OnErr};
ghost use Rattle.journal_format.specs.declared.faults.DeviceFault.{DeviceFault};

use crate::faults::DeviceFault;
use byte_lists::Buffer;

/// What gives the bytes at a place of a journal. Whoever implements it states what it gives, and what a call leaves.
pub trait Bodies {
    /// How many calls failed so far; it never falls.
    ghost faults: { Self → ℕ };

    /// What a call gives with Ok, by the place and the length.
    ghost gives: { Self → ℕ → ℕ → List ℕ → Type 0 };

    /// How the object after a call stands to that before it, for each answer.
    ghost leaves: { Self → ℕ → ℕ → Result Unit DeviceFault → Self → Type 0 };

    /// Makes `into` hold the `len` bytes from `at` on, for which it has to have room. Takes no memory. DeviceFault
    /// comes only where the count of faults rose in this call; what `into` holds then is open.
    fn body(&mut self, at: u64, into: &mut Buffer, len: u32) -> Result<(), DeviceFault>
        requires { len ≤ into.old.room }
        ensures given { OnOk result (gives self.old at len into.new.bytes) }
        ensures len { OnOk result (length into.new.bytes ≡ len) }
        ensures room { into.old.room ≤ into.new.room }
        ensures left { leaves self.old at len result self.new }
        ensures later { faults self.old ≤ faults self.new }
        ensures cause { OnErr result (faults self.old < faults self.new) };
}
