//! Writes the text of `init` and `recover`.
ghost use Rattle.std.specs.Prelude.{◌≡◌, ◌++◌, IfOk, codes, length, string_bytes};
ghost use Rattle.std.specs.Fmt.{decimal};
ghost use Rattle.std.specs.List.{flat_map};
ghost use Rattle.outside_io.specs.Says.{Says};
ghost use Rattle.command_status.specs.Told.{Tells};
ghost use Rattle.journal_commands.specs.JournalEnds.{TellsOfOpening, TellsOrWants, journal_text, not_empty_text};
ghost use Rattle.journal_commands.specs.Recovered.{counts_line, entry_line, kept_line, recovered_text};

use byte_lists::NoMemory;
use command_status::{Status, tell, tell_device_fault, tell_no_memory};
use itoa::Buffer;
use journal_core::OpenFault;
use outside_io::{Failed, Sink, write_all};
use recover_core::{Kept, Recovered};
use std::alloc::Global;

/// Makes the line that tells where a journal is damaged.
fn journal_text(alloc: Global, at: u64) -> Result<String, NoMemory>
    ensures { IfOk result (λ text. string_bytes text ≡ journal_text at) }
{
    match format!(in alloc; "fault: journal at {at}\n") {
        Ok(text) => Ok(text),
        Err(_) => Err(NoMemory),
    }
}

/// Makes the line that tells how long a disk is that isn't empty.
fn not_empty_text(alloc: Global, len: u64) -> Result<String, NoMemory>
    ensures { IfOk result (λ text. string_bytes text ≡ not_empty_text len) }
{
    match format!(in alloc; "fault: not empty {len}\n") {
        Ok(text) => Ok(text),
        Err(_) => Err(NoMemory),
    }
}

/// Tells where a journal is damaged, 0 where there is none.
pub(crate) fn refuse_journal<K: Sink>(alloc: Global, out: &mut K, at: u64) -> Status
    ensures { TellsOrWants (journal_text at) result
        (K.written out.old) (K.written out.new) (K.faults out.old) (K.faults out.new) }
{
    match journal_text(alloc, at) {
        Ok(text) => tell(out, Status::JournalRefused, text.as_bytes()),
        Err(NoMemory) => tell_no_memory(out),
    }
}

/// Tells how long a disk is that isn't empty.
pub(crate) fn refuse_disk<K: Sink>(alloc: Global, out: &mut K, len: u64) -> Status
    ensures { TellsOrWants (not_empty_text len) result
        (K.written out.old) (K.written out.new) (K.faults out.old) (K.faults out.new) }
{
    match not_empty_text(alloc, len) {
        Ok(text) => tell(out, Status::JournalRefused, text.as_bytes()),
        Err(NoMemory) => tell_no_memory(out),
    }
}

/// Tells why a journal isn't opened.
pub(crate) fn tell_open_fault<K: Sink>(alloc: Global, out: &mut K, fault: OpenFault) -> Status
    ensures { TellsOfOpening fault result
        (K.written out.old) (K.written out.new) (K.faults out.old) (K.faults out.new) }
{
    match fault {
        OpenFault::DeviceFault => tell_device_fault(out),
        OpenFault::NotJournal => refuse_journal(alloc, out, 0),
        OpenFault::Damaged { at } => refuse_journal(alloc, out, at),
        OpenFault::NoMemory => tell_no_memory(out),
    }
}

/// Writes a number in decimal.
fn say_number<K: Sink>(out: &mut K, number: u64) -> Result<(), Failed>
    ensures { Says result (K.written out.old) (K.written out.new)
        (K.faults out.old) (K.faults out.new) (decimal number) }
{
    let mut digits = Buffer::new();
    write_all(out, digits.format(number).as_bytes())
}

/// Writes a text, a number, and the end of the line.
fn say_end<K: Sink>(out: &mut K, text: &[u8], number: u64) -> Result<(), Failed>
    ensures { Says result (K.written out.old) (K.written out.new)
        (K.faults out.old) (K.faults out.new) (text.now ++ (decimal number ++ codes "\n")) }
{
    write_all(out, text)?;
    say_number(out, number)?;
    write_all(out, b"\n")
}

/// Writes the line of a live entry.
fn say_entry<K: Sink>(out: &mut K, entry: &Kept) -> Result<(), Failed>
    ensures { Says result (K.written out.old) (K.written out.new)
        (K.faults out.old) (K.faults out.new) (kept_line entry.now) }
{
    write_all(out, b"entry ")?;
    write_all(out, entry.queue.as_slice())?;
    say_end(out, b" ", entry.message.id())
}

/// Writes the lines of the live entries, in order.
fn say_entries<K: Sink>(out: &mut K, entries: &[Kept]) -> Result<(), Failed>
    ensures { Says result (K.written out.old) (K.written out.new)
        (K.faults out.old) (K.faults out.new) (flat_map kept_line entries.now) }
{
    'entries: for entry in entries {
        say_entry(out, entry)?;
    }
    Ok(())
}

/// Writes how many commits and live entries there are.
fn say_counts<K: Sink>(out: &mut K, commits: u64, entries: u64) -> Result<(), Failed>
    ensures { Says result (K.written out.old) (K.written out.new)
        (K.faults out.old) (K.faults out.new) (counts_line commits entries) }
{
    write_all(out, b"commits ")?;
    say_number(out, commits)?;
    say_end(out, b" entries ", entries)
}

/// Writes the lines of the live entries, in order, and the counts.
fn say_recovered<K: Sink>(out: &mut K, recovered: &Recovered) -> Result<(), Failed>
    ensures { Says result (K.written out.old) (K.written out.new)
        (K.faults out.old) (K.faults out.new) (recovered_text recovered.now.commits recovered.now.entries) }
{
    let entries = recovered.entries.as_slice();
    say_entries(out, entries)?;
    say_counts(out, recovered.commits, entries.len() as u64)
}

/// Tells what a journal still holds. Takes no memory.
pub(crate) fn tell_recovered<K: Sink>(out: &mut K, recovered: &Recovered) -> Status
    ensures { Tells result Status.Done (recovered_text recovered.now.commits recovered.now.entries)
        (K.written out.old) (K.written out.new) (K.faults out.old) (K.faults out.new) }
{
    match say_recovered(out, recovered) {
        Ok(()) => Status::Done,
        Err(_) => Status::WriteFault,
    }
}
