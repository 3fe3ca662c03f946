//! Tells what a journal still holds.
ghost use Rattle.std.specs.Prelude.{◌≡◌, map, string_bytes};
ghost use Rattle.journal_commands.specs.Disks.{medium};
ghost use Rattle.journal_commands.specs.JournalEnds.{RecoverEnds, JournalEnds};
ghost use Rattle.command_line.specs.JournalTasks.{asked_journal, recovering};

use crate::journal_telling::{tell_open_fault, tell_recovered};
use byte_lists::NoMemory;
use command_line::{Asked, is_recover, read_words};
use command_status::{Status, refuse_words, tell_no_memory};
use disk_core::Disk;
use outside_io::Sink;
use recover_core::recover;
use std::alloc::Global;

/// Writes what the journal on a disk still holds; or tells that the disk failed, or where the journal is damaged. The
/// disk is only looked at.
pub fn tell_journal<K: Sink, D: Disk>(alloc: Global, out: &mut K, disk: D) -> (Status, D)
    ensures { RecoverEnds result.0
        (medium D.seen D.images D.moment D.since D.trail D.faults D.syncs disk)
        (medium D.seen D.images D.moment D.since D.trail D.faults D.syncs result.1)
        (K.written out.old) (K.written out.new) (K.faults out.old) (K.faults out.new) }
{
    match recover(alloc, disk) {
        Ok((journal, recovered)) => (tell_recovered(out, &recovered), journal.into_disk()),
        Err((fault, disk)) => (tell_open_fault(alloc, out, fault), disk),
    }
}

/// Does what the program does for the words `recover` and a path: it reads the journal on the disk, and writes
/// `entry QUEUE ID` for each live entry in order and then `commits N entries M`, or a fault line. All other words are
/// refused, and leave the disk as it was; else it is only read, after one sync. Gives the disk back. Waits for nobody.
///
/// docs/SCRIPT.md, "Statuses", says when each status comes.
pub fn recover_command<K: Sink, D: Disk>(
    alloc: Global,
    words: &[String],
    out: &mut K,
    disk: D,
) -> (Status, D)
    ensures { JournalEnds (recovering (asked_journal (map string_bytes words.now))) result.0
        (medium D.seen D.images D.moment D.since D.trail D.faults D.syncs disk)
        (medium D.seen D.images D.moment D.since D.trail D.faults D.syncs result.1)
        (K.written out.old) (K.written out.new) (K.faults out.old) (K.faults out.new) }
{
    if !is_recover(words) {
        return (refuse_words(out), disk);
    }
    match read_words(alloc, words) {
        Ok(Asked::Recover(_)) => tell_journal(alloc, out, disk),
        Ok(_) => unreachable!(),
        Err(NoMemory) => (tell_no_memory(out), disk),
    }
}
