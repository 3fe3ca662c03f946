//! Writes the text of a status.
ghost use Rattle.std.specs.Prelude.{codes};
ghost use Rattle.command_status.specs.Told.{Tells};

use crate::status::Status;
use outside_io::{Sink, write_all};

/// Writes the text of a status, and answers the status, or that the sink failed.
pub fn tell<K: Sink>(out: &mut K, status: Status, text: &[u8]) -> Status
    ensures { Tells result status text.now (K.written out.old) (K.written out.new)
        (K.faults out.old) (K.faults out.new) }
{
    match write_all(out, text) {
        Ok(()) => status,
        Err(_) => Status::WriteFault,
    }
}

/// Tells of want of memory.
pub fn tell_no_memory<K: Sink>(out: &mut K) -> Status
    ensures { Tells result Status.NoMemory (codes "fault: memory\n")
        (K.written out.old) (K.written out.new) (K.faults out.old) (K.faults out.new) }
{
    tell(out, Status::NoMemory, b"fault: memory\n")
}

/// Tells that the disk failed.
pub fn tell_device_fault<K: Sink>(out: &mut K) -> Status
    ensures { Tells result Status.DeviceFault (codes "fault: disk\n")
        (K.written out.old) (K.written out.new) (K.faults out.old) (K.faults out.new) }
{
    tell(out, Status::DeviceFault, b"fault: disk\n")
}

/// Tells that the words are refused.
pub fn refuse_words<K: Sink>(out: &mut K) -> Status
    ensures { Tells result Status.WordsRefused (codes "fault: words\n")
        (K.written out.old) (K.written out.new) (K.faults out.old) (K.faults out.new) }
{
    tell(out, Status::WordsRefused, b"fault: words\n")
}
