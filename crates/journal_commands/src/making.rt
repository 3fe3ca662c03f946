//! Makes a journal.
ghost use Rattle.std.specs.Prelude.{◌≡◌, map, string_bytes};
ghost use Rattle.journal_commands.specs.Disks.{medium};
ghost use Rattle.journal_commands.specs.JournalEnds.{InitEnds, JournalEnds};
ghost use Rattle.command_line.specs.JournalTasks.{asked_journal, initializing};

use crate::journal_telling::refuse_disk;
use byte_lists::NoMemory;
use command_line::{Asked, is_init, read_words};
use command_status::{Status, refuse_words, tell, tell_device_fault, tell_no_memory};
use disk_core::Disk;
use journal_core::{CreateFault, create};
use outside_io::Sink;
use std::alloc::Global;

/// Makes a journal without commits on an empty disk, and writes `created`; or tells that the disk failed, or that it
/// isn't empty, and how long it is. A disk that isn't empty is left as it was.
pub fn initialize<K: Sink, D: Disk>(alloc: Global, out: &mut K, disk: D) -> (Status, D)
    ensures { InitEnds result.0
        (medium D.seen D.images D.moment D.since D.trail D.faults D.syncs disk)
        (medium D.seen D.images D.moment D.since D.trail D.faults D.syncs result.1)
        (K.written out.old) (K.written out.new) (K.faults out.old) (K.faults out.new) }
{
    match create(disk) {
        Ok(journal) => (tell(out, Status::Done, b"created\n"), journal.into_disk()),
        Err((CreateFault::DeviceFault, disk)) => (tell_device_fault(out), disk),
        Err((CreateFault::NotEmpty { len }, disk)) => (refuse_disk(alloc, out, len), disk),
    }
}

/// Does what the program does for the words `init` and a path: it makes a journal without commits on the disk, which
/// must be empty, and writes `created`, or a fault line. All other words are refused, and leave the disk as it was. Gives
/// the disk back. Waits for nobody.
///
/// docs/SCRIPT.md, "Statuses", says when each status comes.
pub fn init_command<K: Sink, D: Disk>(
    alloc: Global,
    words: &[String],
    out: &mut K,
    disk: D,
) -> (Status, D)
    ensures { JournalEnds (initializing (asked_journal (map string_bytes words.now))) result.0
        (medium D.seen D.images D.moment D.since D.trail D.faults D.syncs disk)
        (medium D.seen D.images D.moment D.since D.trail D.faults D.syncs result.1)
        (K.written out.old) (K.written out.new) (K.faults out.old) (K.faults out.new) }
{
    if !is_init(words) {
        return (refuse_words(out), disk);
    }
    match read_words(alloc, words) {
        Ok(Asked::Init(_)) => initialize(alloc, out, disk),
        Ok(_) => unreachable!(),
        Err(NoMemory) => (tell_no_memory(out), disk),
    }
}
